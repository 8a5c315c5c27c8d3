// Archives judged, one after the other, with the report.

ghost use Rattle.std.specs.Prelude.{◌≡◌};
ghost use Rattle.rows.specs.Report.{number_of};

use crate::archive::read_archive;
use crate::fault::ArchiveRefusal;
use crate::judging::judge;
use crate::playing::play;
use crate::report::{put_difference, put_fault, put_tally};
use crate::row::Row;
use gossa_base::{Bytes, Failed, NoMemory, Sink, write_all};
use std::alloc::Global;

/// A file that is to be an archive: its name, and its bytes, or none where it can't be read.
#[derive(Drop)]
pub struct ArchiveFile {
    pub name: String,
    pub text: Option<Bytes>,
}

/// How the judging of archives ends.
#[derive(Clone, Copy, Debug, PartialEq, Eq)]
pub enum Verdict {
    /// 0: all rows hold.
    Holds,
    /// 1: a row doesn't hold.
    Differs,
    /// 2: an archive isn't one or can't be read, the count couldn't be written, or there was no memory.
    Unfit,
}

impl Verdict {
    /// The number that the process ends with.
    pub fn number(self) -> u8
        ensures { result ≡ number_of self }
    {
        match self {
            Verdict::Holds => 0,
            Verdict::Differs => 1,
            Verdict::Unfit => 2,
        }
    }

    // The worse of two.
    fn or(self, other: Verdict) -> Verdict {
        match (self, other) {
            (Verdict::Unfit, _) | (_, Verdict::Unfit) => Verdict::Unfit,
            (Verdict::Differs, _) | (_, Verdict::Differs) => Verdict::Differs,
            _ => Verdict::Holds,
        }
    }
}

// What rows have come to so far: how many hold, and the worst.
#[derive(Clone, Copy)]
struct Tally {
    held: u64,
    verdict: Verdict,
}

/// Judges the rows of these files. How many of them hold is written to `sink`, and what is told of each other row, and
/// of each file that is no archive, to `errs`. All files are judged, whatever the others came to.
pub fn judge_archives<K: Sink, E: Sink>(
    alloc: Global,
    files: &[ArchiveFile],
    sink: &mut K,
    errs: &mut E,
) -> Verdict {
    let mut tally = Tally {
        held: 0,
        verdict: Verdict::Holds,
    };
    for file in files {
        tally = judge_file(alloc, file, errs, tally);
    }
    match write_tally(alloc, tally.held, sink) {
        Ok(()) => tally.verdict,
        Err(Unwritten) => Verdict::Unfit,
    }
}

// The count couldn't be written.
struct Unwritten;

impl From<NoMemory> for Unwritten {
    fn from(_error: NoMemory) -> Unwritten {
        Unwritten
    }
}

impl From<Failed> for Unwritten {
    fn from(_error: Failed) -> Unwritten {
        Unwritten
    }
}

// Writes how many rows hold.
fn write_tally<K: Sink>(alloc: Global, held: u64, sink: &mut K) -> Result<(), Unwritten> {
    let mut text = Vec::new(alloc);
    put_tally(&mut text, held)?;
    write_all(sink, text.as_slice())?;
    Ok(())
}

// Judges the rows of a file.
fn judge_file<E: Sink>(alloc: Global, file: &ArchiveFile, errs: &mut E, tally: Tally) -> Tally {
    let name = file.name.as_bytes();
    let Some(text) = &file.text else {
        return unfit(name, b"can't be read", errs, tally);
    };
    match read_archive(alloc, text.as_slice()) {
        Ok(rows) => judge_rows(alloc, name, rows.as_slice(), errs, tally),
        Err(ArchiveRefusal::At { line, fault }) => {
            let mut report = Vec::new(alloc);
            match put_fault(&mut report, name, line, fault) {
                Ok(()) => {
                    let _ = write_all(errs, report.as_slice());
                    Tally {
                        verdict: Verdict::Unfit,
                        ..tally
                    }
                }
                Err(NoMemory) => unfit(name, b"no memory", errs, tally),
            }
        }
        Err(ArchiveRefusal::NoMemory) => unfit(name, b"no memory", errs, tally),
    }
}

// Tells why a file isn't judged to its end.
fn unfit<E: Sink>(name: &[u8], why: &[u8], errs: &mut E, tally: Tally) -> Tally {
    let _ = write_all(errs, name);
    let _ = write_all(errs, b": ");
    let _ = write_all(errs, why);
    let _ = write_all(errs, b"\n");
    Tally {
        verdict: Verdict::Unfit,
        ..tally
    }
}

// Judges the rows of an archive.
fn judge_rows<E: Sink>(
    alloc: Global,
    name: &[u8],
    rows: &[Row],
    errs: &mut E,
    tally: Tally,
) -> Tally {
    let mut tally = tally;
    for row in rows {
        tally = match judge_row(alloc, name, row, errs) {
            Ok(verdict) => tally.with(verdict),
            Err(NoMemory) => return unfit(name, b"no memory", errs, tally),
        };
    }
    tally
}

impl Tally {
    // The tally with one more row, which came to this.
    fn with(self, verdict: Verdict) -> Tally {
        Tally {
            held: match verdict {
                Verdict::Holds => self.held.saturating_add(1),
                _ => self.held,
            },
            verdict: self.verdict.or(verdict),
        }
    }
}

// Judges a row, and tells where it first differs.
fn judge_row<E: Sink>(
    alloc: Global,
    file: &[u8],
    row: &Row,
    errs: &mut E,
) -> Result<Verdict, NoMemory> {
    let came = play(alloc, row)?;
    let Some(difference) = judge(&row.wanted, &came) else {
        return Ok(Verdict::Holds);
    };
    let mut report = Vec::new(alloc);
    put_difference(
        &mut report,
        file,
        row.name.as_slice(),
        &row.wanted,
        &came,
        difference,
    )?;
    let _ = write_all(errs, report.as_slice());
    Ok(Verdict::Differs)
}
