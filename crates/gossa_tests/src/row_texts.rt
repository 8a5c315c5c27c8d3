// Archives of rows: what their texts spell, and each fault with its line.

use rows::{ArchiveFault, ArchiveRefusal, Row, read_archive};
use std::alloc::Global;
use std::process::Abort;

// A row whose settings are all given, but for its input.
const SETTINGS: &str = "=== a\nwords: gossa run\nstatus: 0\noutput: *\nerrors: *\n";

// How a row spells its input, and the input.
const INPUTS: [(&str, &[u8]); 10] = [
    ("input:\n", b""),
    ("input: x\n", b"x\n"),
    ("input: x\\", b"x"),
    ("-- input --\n", b""),
    ("-- input --\na\n\nb", b"a\n\nb\n"),
    ("-- input --\na\\\nb\n", b"ab\n"),
    ("-- input --\na\\\\\nb\\\\\\\n", b"a\\\nb\\"),
    ("-- input --\n\\x2d- x --\n\\x3D== x\n", b"-- x --\n=== x\n"),
    ("-- input --\n\\x00\\xfF\\\n", b"\x00\xFF"),
    ("-- input --\na\n-- left --\nb\n", b"a\n"),
];

#[test]
fn texts_are_spelled(rt: HostRuntime) {
    check_inputs(&rt, &INPUTS);
}

const STRETCHES: [(&str, &[u8]); 4] = [
    ("-- input --\n\\repeat 3\nx\n\\end\ny\n", b"x\nx\nx\ny\n"),
    ("-- input --\n\\repeat 0\nx\n\\end\ny\n", b"y\n"),
    (
        "-- input --\na\\\n\\repeat 3\n\\(9) \\\n\\end\nb\n",
        b"a9 10 11 b\n",
    ),
    (
        "-- input --\n\\repeat 3\n\\(0 5)\\(7)\n\\end\n",
        b"07\n58\n109\n",
    ),
];

#[test]
fn stretches_are_repeated(rt: HostRuntime) {
    check_inputs(&rt, &STRETCHES);
}

// A row with each of these has its input.
fn check_inputs(rt: &(impl Abort + AllocGlobal), rows: &[(&str, &[u8])]) {
    for (spelled, input) in rows {
        assert!(rt;
            has_input(rt.alloc(), spelled, input) == Ok(true),
            "of {spelled}"
        );
    }
}

// Whether an archive of one row with this has this input.
fn has_input(alloc: Global, spelled: &str, input: &[u8]) -> Result<bool, ArchiveRefusal> {
    let text = format!(in alloc; "{SETTINGS}{spelled}")?;
    let rows = read_archive(alloc, text.as_bytes())?;
    Ok(is_input(rows.as_slice(), input))
}

fn is_input(rows: &[Row], input: &[u8]) -> bool {
    match rows {
        [row] => row.input.as_slice() == input,
        _ => false,
    }
}

// Texts, the line that is at fault in each, and its fault.
const NO_ROWS: [(&str, u64, ArchiveFault); 3] = [
    ("", 1, ArchiveFault::NoRows),
    ("a\nb\n", 1, ArchiveFault::NoRows),
    ("a\n=== \n", 2, ArchiveFault::NoName),
];

const NAME_TWICE: [(&str, u64, ArchiveFault); 1] = [(
    "input:\n=== b\nwords: gossa\nstatus: 0\ninput:\noutput:\nerrors:\n=== a\n",
    13,
    ArchiveFault::NameTwice,
)];

#[test]
fn archives_have_rows(rt: HostRuntime) {
    check_faults(&rt, "", &NO_ROWS, "");
    check_faults(&rt, SETTINGS, &NAME_TWICE, "");
}

const NO_SETTINGS: [(&str, u64, ArchiveFault); 11] = [
    ("=== a\nx\n", 2, ArchiveFault::NoSetting),
    ("=== a\n\n# x\nstate: 0\n", 4, ArchiveFault::UnknownKey),
    (
        "=== a\nwords: gossa\n-- words --\n",
        3,
        ArchiveFault::UnknownPart,
    ),
    (
        "=== a\nwords: gossa\nwords: gossa\n",
        3,
        ArchiveFault::GivenTwice,
    ),
    ("=== a\ninput:\n-- input --\n", 3, ArchiveFault::GivenTwice),
    (
        "=== a\n-- left --\n-- left --\n",
        3,
        ArchiveFault::GivenTwice,
    ),
    (
        "\n=== a\nstatus: 0\ninput:\noutput:\nerrors:\n",
        2,
        ArchiveFault::KeyMissing,
    ),
    (
        "\n=== a\nwords: gossa\ninput:\noutput:\nerrors:\n",
        2,
        ArchiveFault::KeyMissing,
    ),
    (
        "=== a\nwords: gossa\nstatus: 0\noutput:\nerrors:\n",
        1,
        ArchiveFault::PartMissing,
    ),
    (
        "=== a\nwords: gossa\nstatus: 0\ninput:\nerrors:\n",
        1,
        ArchiveFault::PartMissing,
    ),
    (
        "=== a\nwords: gossa\nstatus: 0\ninput:\noutput:\n",
        1,
        ArchiveFault::PartMissing,
    ),
];

#[test]
fn rows_have_settings(rt: HostRuntime) {
    check_faults(&rt, "", &NO_SETTINGS, "");
}

const NO_NUMBERS: [(&str, u64, ArchiveFault); 7] = [
    ("pieces: 1 1", 6, ArchiveFault::BadNumber),
    ("pieces: 1 0 1", 6, ArchiveFault::BadNumber),
    ("fail-read:", 6, ArchiveFault::BadNumber),
    ("fail-write: 0", 6, ArchiveFault::BadNumber),
    ("fail-tell: 1  2", 6, ArchiveFault::BadNumber),
    ("room: -1", 6, ArchiveFault::BadNumber),
    ("tell-room: x", 6, ArchiveFault::BadNumber),
];

const NO_STATUSES: [(&str, u64, ArchiveFault); 4] = [
    ("6", 3, ArchiveFault::BadNumber),
    ("-1", 3, ArchiveFault::BadNumber),
    ("01x", 3, ArchiveFault::BadNumber),
    ("", 3, ArchiveFault::BadNumber),
];

#[test]
fn settings_have_numbers(rt: HostRuntime) {
    check_faults(&rt, SETTINGS, &NO_NUMBERS, "\ninput:\n");
    let before = "=== a\nwords: gossa\nstatus: ";
    check_faults(&rt, before, &NO_STATUSES, "\ninput:\noutput:\nerrors:\n");
}

const NO_WORDS: [(&str, u64, ArchiveFault); 7] = [
    ("", 2, ArchiveFault::NoProgram),
    ("| gossa", 2, ArchiveFault::NoProgram),
    ("gossa |", 2, ArchiveFault::NoProgram),
    ("go run", 2, ArchiveFault::UnknownProgram),
    ("gossa | go", 2, ArchiveFault::UnknownProgram),
    ("gossa \\xff", 2, ArchiveFault::BadWord),
    ("gossa \\x", 2, ArchiveFault::BadEscape),
];

#[test]
fn words_name_a_program(rt: HostRuntime) {
    let behind = "\nstatus: 0\ninput:\noutput:\nerrors:\n";
    check_faults(&rt, "=== a\nwords: ", &NO_WORDS, behind);
}

const NO_TEXTS: [(&str, u64, ArchiveFault); 10] = [
    ("-- input --\nx\n\\y", 8, ArchiveFault::BadEscape),
    ("-- input --\nx\n\\x4", 8, ArchiveFault::BadEscape),
    ("-- input --\nx\n\\x4g", 8, ArchiveFault::BadEscape),
    ("-- input --\nx\n\\(1)", 8, ArchiveFault::BadEscape),
    ("-- input --\nx\n\\end", 8, ArchiveFault::BadEscape),
    ("-- input --\nx\n\\repeat 2\nx", 8, ArchiveFault::EndMissing),
    (
        "-- input --\nx\n\\repeat x\n\\end",
        8,
        ArchiveFault::BadNumber,
    ),
    (
        "-- input --\nx\n\\repeat 10000001\n\\end",
        8,
        ArchiveFault::BadNumber,
    ),
    (
        "-- input --\nx\n\\repeat 2\n\\(1 x)\n\\end",
        9,
        ArchiveFault::BadEscape,
    ),
    (
        "-- input --\nx\n\\repeat 2\n\\repeat 2\n\\end",
        9,
        ArchiveFault::BadEscape,
    ),
];

#[test]
fn texts_have_faults(rt: HostRuntime) {
    check_faults(&rt, SETTINGS, &NO_TEXTS, "\n");
}

// Each of these, between what stands before and behind it, has its fault.
fn check_faults(
    rt: &(impl Abort + AllocGlobal),
    before: &str,
    rows: &[(&str, u64, ArchiveFault)],
    behind: &str,
) {
    for (text, line, fault) in rows {
        let refusal = ArchiveRefusal::At {
            line: *line,
            fault: *fault,
        };
        assert!(rt;
            reads(rt.alloc(), before, text, behind) == Err(refusal),
            "of {text}"
        );
    }
}

fn reads(alloc: Global, before: &str, text: &str, behind: &str) -> Result<(), ArchiveRefusal> {
    let whole = format!(in alloc; "{before}{text}{behind}")?;
    read_archive(alloc, whole.as_bytes())?;
    Ok(())
}
