// What is told of rows and archives.

ghost use Rattle.std.specs.Prelude.{◌≡◌, ◌++◌, OnOk};
ghost use Rattle.rows.specs.Report.{tally_text};

use crate::fault::ArchiveFault;
use crate::judging::{Came, Difference, Wanted};
use gossa_base::{Bytes, NoMemory, put, put_number};
use memchr::memchr;

/// Appends what is told of a row that doesn't hold: the file, the row's name and the first part that differs, and then
/// two lines, what is wanted and what came.
pub fn put_difference(
    out: &mut Vec<u8>,
    file: &[u8],
    name: &[u8],
    wanted: &Wanted,
    came: &Came,
    difference: Difference,
) -> Result<(), NoMemory> {
    put_row(out, file, name)?;
    match difference {
        Difference::Status => put_statuses(out, wanted.status, came.status),
        Difference::Output(line) => put_lines(out, b"output", &wanted.output, &came.output, line),
        Difference::Errors(line) => put_lines(out, b"errors", &wanted.errors, &came.errors, line),
        Difference::Left(line) => put_lines(out, b"left", &wanted.left, &came.left, line),
    }
}

/// Appends what is told of an archive that isn't one.
pub fn put_fault(
    out: &mut Vec<u8>,
    file: &[u8],
    line: u64,
    fault: ArchiveFault,
) -> Result<(), NoMemory> {
    put(out, file)?;
    put(out, b": line ")?;
    put_number(out, line)?;
    put(out, b": ")?;
    put(out, fault.text().as_bytes())?;
    put(out, b"\n")
}

/// Appends how many rows hold.
pub fn put_tally(out: &mut Vec<u8>, held: u64) -> Result<(), NoMemory>
    ensures { OnOk result (out.new.items ≡ out.old.items ++ tally_text held) }
{
    put_number(out, held)?;
    put(out, b" rows hold\n")
}

// Appends the place of a row.
fn put_row(out: &mut Vec<u8>, file: &[u8], name: &[u8]) -> Result<(), NoMemory> {
    put(out, file)?;
    put(out, b": ")?;
    put(out, name)?;
    put(out, b": ")
}

// Appends that the statuses differ, and both.
fn put_statuses(out: &mut Vec<u8>, wanted: Option<u8>, came: u8) -> Result<(), NoMemory> {
    put(out, b"status\n  wanted: ")?;
    match wanted {
        Some(status) => put_number(out, u64::from(status))?,
        None => put(out, b"*")?,
    }
    put(out, b"\n  came:   ")?;
    put_number(out, u64::from(came))?;
    put(out, b"\n")
}

// Appends that a line of a part differs, and both lines.
fn put_lines(
    out: &mut Vec<u8>,
    part: &[u8],
    wanted: &Option<Bytes>,
    came: &Bytes,
    line: usize,
) -> Result<(), NoMemory> {
    put(out, part)?;
    put(out, b", line ")?;
    put_number(out, line as u64)?;
    put(out, b"\n  wanted: ")?;
    match wanted {
        Some(text) => put_line(out, text.as_slice(), line)?,
        None => put(out, b"*\n")?,
    }
    put(out, b"  came:   ")?;
    put_line(out, came.as_slice(), line)
}

// Appends the line of this number, from 1, or that there is none, with an LF behind it.
fn put_line(out: &mut Vec<u8>, text: &[u8], number: usize) -> Result<(), NoMemory> {
    let rest = behind_lines(text, number.saturating_sub(1));
    match memchr(b'\n', rest) {
        Some(end) => put(out, &rest[..end + 1]),
        None if rest.is_empty() => put(out, b"(no line)\n"),
        None => {
            put(out, rest)?;
            put(out, b" (no LF)\n")
        }
    }
}

// The text behind its first lines, so many of them.
fn behind_lines(text: &[u8], count: usize) -> &[u8] {
    let mut rest = text;
    for _ in 0..count {
        rest = behind_line(rest);
    }
    rest
}

// The text behind its first line.
fn behind_line(text: &[u8]) -> &[u8] {
    match memchr(b'\n', text) {
        Some(end) => &text[end + 1..],
        None => &[],
    }
}
