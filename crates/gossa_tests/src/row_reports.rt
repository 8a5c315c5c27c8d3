// Rows that must not hold, and what is told of each: the first part that differs, the first line of it, and both
// lines.

use gossa_base::{MemSink, NoMemory, Sequence};
use rows::{ArchiveFile, ArchiveRefusal, Row, Verdict, judge, judge_archives, play, read_archive};
use std::alloc::Global;

// A row whose program reads two signatures, which it lists, but for what is wanted of its output.
const SIGNATURES: &str = "=== two signatures\n\
words: gossa compile\n\
status: 0\n\
errors:\n\
-- input --\n\
sig  f()\n\
sig  g(int)\n\
-- output --\n";

// The output that is wanted, and what is told of it.
const OUTPUTS: [(&str, &str); 7] = [
    ("sig f()\nsig g(int64)\n", ""),
    (
        "sig f()\nsig g(int)\n",
        "some.rows: two signatures: output, line 2\n  wanted: sig g(int)\n  came:   sig g(int64)\n",
    ),
    (
        "sig h()\nsig g(int)\n",
        "some.rows: two signatures: output, line 1\n  wanted: sig h()\n  came:   sig f()\n",
    ),
    (
        "sig f()\n",
        "some.rows: two signatures: output, line 2\n  wanted: (no line)\n  came:   sig g(int64)\n",
    ),
    (
        "sig f()\nsig g(int64)\nsig h()\n",
        "some.rows: two signatures: output, line 3\n  wanted: sig h()\n  came:   (no line)\n",
    ),
    (
        "sig f()\nsig g(int64)\\\n",
        "some.rows: two signatures: output, line 2\n  \
wanted: sig g(int64) (no LF)\n  came:   sig g(int64)\n",
    ),
    (
        "",
        "some.rows: two signatures: output, line 1\n  wanted: (no line)\n  came:   sig f()\n",
    ),
];

#[test]
fn tells_where_an_output_differs(rt: HostRuntime) {
    for (output, told) in OUTPUTS.iter() {
        assert!(rt;
            output_is_told(rt.alloc(), output, told) == Ok(true),
            "{told}, of {output}"
        );
    }
}

// Whether this is told of the row that wants this output.
fn output_is_told(alloc: Global, output: &str, told: &str) -> Result<bool, NoMemory> {
    let text = format!(in alloc; "{SIGNATURES}{output}")?;
    if told.is_empty() {
        is_reported(alloc, text.as_str(), Verdict::Holds, "1 rows hold\n", told)
    } else {
        is_reported(
            alloc,
            text.as_str(),
            Verdict::Differs,
            "0 rows hold\n",
            told,
        )
    }
}

// Whether an archive of this text, named some.rows, comes to this, so many rows hold, and this is told of the others.
fn is_reported(
    alloc: Global,
    text: &str,
    verdict: Verdict,
    holding: &str,
    told: &str,
) -> Result<bool, NoMemory> {
    let files = files_of(alloc, &[("some.rows", text)])?;
    are_reported(alloc, files.as_slice(), verdict, holding, told)
}

fn are_reported(
    alloc: Global,
    files: &[ArchiveFile],
    verdict: Verdict,
    holding: &str,
    told: &str,
) -> Result<bool, NoMemory> {
    let mut sink = MemSink::new(alloc, 100, 4096, &[])?;
    let mut errs = MemSink::new(alloc, 4096, 4096, &[])?;
    let came = judge_archives(alloc, files, &mut sink, &mut errs);
    Ok(came == verdict && sink.held() == holding.as_bytes() && errs.held() == told.as_bytes())
}

// Files of these names that have these texts.
fn files_of(alloc: Global, archives: &[(&str, &str)]) -> Result<Vec<ArchiveFile>, NoMemory> {
    let mut files = Vec::new(alloc);
    for (name, text) in archives {
        files.push(file_of(alloc, name, text)?)?;
    }
    Ok(files)
}

fn file_of(alloc: Global, name: &str, text: &str) -> Result<ArchiveFile, NoMemory> {
    let name = String::from_str(alloc, name)?;
    let bytes = Vec::from_slice(alloc, text.as_bytes())?;
    Ok(ArchiveFile {
        name,
        text: Some(Sequence::from_vec(bytes)),
    })
}

// Rows of which the second and the last hold.
const OTHER_PARTS: &str = "what stands here is a comment\n\
=== a status\n\
words: gossa run\n\
status: 1\n\
input:\n\
output: x\n\
errors:\n\
=== whatever comes\n\
words: gossa stop\n\
status: *\n\
input: x\n\
output: *\n\
errors: *\n\
=== errors before what is left\n\
words: gossa\n\
status: 2\n\
input: x\n\
output:\n\
errors: usage\n\
left:\n\
=== what is left\n\
words: gossa\n\
status: 2\n\
input: x\n\
output:\n\
errors: *\n\
left: y\n\
=== a write fails\n\
\n\
# within its second call\n\
words: gossa compile\n\
status: 0\n\
pieces: 1 4 1\n\
fail-write: 2\n\
input: sig f()\n\
output: sig \\\n\
errors: gossa: write failed\n\
=== a write fails, and is wanted\n\
words: gossa compile\n\
status: 4\n\
pieces: 1 4 1\n\
fail-write: 2\n\
input: sig f()\n\
output: sig \\\n\
errors: gossa: write failed\n\
left:\n";

const OTHER_PARTS_TOLD: &str = "some.rows: a status: status\n  wanted: 1\n  came:   0\n\
some.rows: errors before what is left: errors, line 1\n  wanted: usage\n  \
came:   usage: gossa compile [-regs=N] | run | step | demo SEED SIZE\n\
some.rows: what is left: left, line 1\n  wanted: y\n  came:   x\n\
some.rows: a write fails: status\n  wanted: 0\n  came:   4\n";

#[test]
fn tells_the_first_part_that_differs(rt: HostRuntime) {
    let (holding, told) = ("2 rows hold\n", OTHER_PARTS_TOLD);
    assert!(rt; is_reported(rt.alloc(), OTHER_PARTS, Verdict::Differs, holding, told) == Ok(true));
}

// Rows with pipes, of which the first and the last hold: the second program isn't called where the first one's status
// isn't 0.
const PIPES: &str = "=== listed twice\n\
words: gossa compile | gossa compile\n\
status: 0\n\
input: sig  f()\n\
output: sig f()\n\
errors:\n\
=== a run of signatures shows nothing\n\
words: gossa compile | gossa run\n\
status: 0\n\
input: sig f()\n\
output: sig f()\n\
errors:\n\
=== the first is refused\n\
words: gossa compile | gossa run\n\
status: 0\n\
input: sig f\n\
output:\n\
errors:\n\
=== the first is refused, and that is wanted\n\
words: gossa run | gossa stop\n\
status: 1\n\
input: sig f\n\
output:\n\
errors: gossa: line 1: bad line\n";

const PIPES_TOLD: &str =
    "some.rows: a run of signatures shows nothing: output, line 1\n  wanted: sig f()\n  came:   (no line)\n\
some.rows: the first is refused: status\n  wanted: 0\n  came:   1\n";

#[test]
fn tells_what_pipes_come_to(rt: HostRuntime) {
    let (holding, told) = ("2 rows hold\n", PIPES_TOLD);
    assert!(rt; is_reported(rt.alloc(), PIPES, Verdict::Differs, holding, told) == Ok(true));
}

// A file that has no row, one with a row that fails and one that holds, one with an unknown key, and one that can't be
// read.
const FILES: [(&str, &str); 3] = [
    ("none.rows", "no row\n"),
    ("pipes.rows", PIPES),
    ("key.rows", "=== a\nwords: gossa\nstate: 0\n"),
];

const FILES_TOLD: &str = "none.rows: line 1: no rows\n\
pipes.rows: a run of signatures shows nothing: output, line 1\n  wanted: sig f()\n  came:   (no line)\n\
pipes.rows: the first is refused: status\n  wanted: 0\n  came:   1\n\
key.rows: line 3: unknown key\n\
away.rows: can't be read\n";

#[test]
fn judges_all_files(rt: HostRuntime) {
    assert!(rt; all_are_judged(rt.alloc()) == Ok(true));
    assert!(rt; Verdict::Unfit.number() == 2);
    assert!(rt; Verdict::Differs.number() == 1 && Verdict::Holds.number() == 0);
}

fn all_are_judged(alloc: Global) -> Result<bool, NoMemory> {
    let files = all_files(alloc)?;
    are_reported(
        alloc,
        files.as_slice(),
        Verdict::Unfit,
        "2 rows hold\n",
        FILES_TOLD,
    )
}

fn all_files(alloc: Global) -> Result<Vec<ArchiveFile>, NoMemory> {
    let mut files = files_of(alloc, &FILES)?;
    let name = String::from_str(alloc, "away.rows")?;
    files.push(ArchiveFile { name, text: None })?;
    Ok(files)
}

#[test]
fn rows_are_played_and_judged(rt: HostRuntime) {
    assert!(rt; pipes_hold(rt.alloc(), &[true, false, false, true]) == Ok(true));
}

// Whether of the rows with pipes exactly these hold.
fn pipes_hold(alloc: Global, want: &[bool]) -> Result<bool, ArchiveRefusal> {
    let rows = read_archive(alloc, PIPES.as_bytes())?;
    Ok(holding(alloc, rows.as_slice())?.as_slice() == want)
}

fn holding(alloc: Global, rows: &[Row]) -> Result<Vec<bool>, NoMemory> {
    let mut holding = Vec::new(alloc);
    for row in rows {
        holding.push(row_holds(alloc, row)?)?;
    }
    Ok(holding)
}

fn row_holds(alloc: Global, row: &Row) -> Result<bool, NoMemory> {
    let came = play(alloc, row)?;
    Ok(judge(&row.wanted, &came).is_none())
}
