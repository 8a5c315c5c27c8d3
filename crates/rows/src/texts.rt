// Texts: lines with and without LF, and stretches that are repeated.

use crate::fault::{ArchiveFault, ArchiveRefusal};
use crate::lines::Line;
use crate::numbers::read_number;
use crate::spelling::{Spelled, Spelling};
use gossa_base::{Bytes, Sequence, put, put_number};
use std::alloc::Global;

// How often a stretch is repeated at the most.
const MOST_TURNS: u64 = 10_000_000;
// The most that a number within a repeated stretch begins at, or grows by. With so many turns it has 64 bits.
const MOST_START: u64 = 1_000_000_000_000;

// A piece of a stretch that is repeated.
#[derive(Drop)]
enum Piece {
    // the same bytes in each turn
    Bytes(Vec<u8>),
    // a number, which grows from turn to turn
    Number { next: u64, step: u64 },
}

// A stretch that is repeated, while its lines are read.
#[derive(Drop)]
struct Stretch<'a> {
    head: Line<'a>,
    turns: u64,
    pieces: Vec<Piece>,
}

// A text, as far as its lines were read.
#[derive(Drop)]
struct Text<'a> {
    alloc: Global,
    bytes: Vec<u8>,
    open: Option<Stretch<'a>>,
}

/// The text that these lines spell.
pub(crate) fn read_text(alloc: Global, lines: &[Line<'_>]) -> Result<Bytes, ArchiveRefusal> {
    let mut text = Text {
        alloc,
        bytes: Vec::new(alloc),
        open: None,
    };
    for line in lines {
        text.take(*line)?;
    }
    let Text { bytes, open, .. } = text;
    match open {
        None => Ok(Sequence::from_vec(bytes)),
        Some(stretch) => Err(stretch.head.refusal(ArchiveFault::EndMissing)),
    }
}

/// Appends the bytes that a spelling without numbers that grow stands for.
pub(crate) fn put_spelled(out: &mut Vec<u8>, line: Line<'_>) -> Result<(), ArchiveRefusal> {
    for spelled in Spelling::of(line.text) {
        match spelled {
            Spelled::Plain(bytes) => put(out, bytes)?,
            Spelled::Byte(byte) => out.push(byte)?,
            _ => return Err(line.refusal(ArchiveFault::BadEscape)),
        }
    }
    Ok(())
}

impl<'a> Text<'a> {
    // One more line.
    fn take(&mut self, line: Line<'a>) -> Result<(), ArchiveRefusal> {
        match self.open.take() {
            None => self.take_outside(line),
            Some(stretch) => self.take_inside(line, stretch),
        }
    }

    // A line outside of stretches that are repeated.
    fn take_outside(&mut self, line: Line<'a>) -> Result<(), ArchiveRefusal> {
        match line.text.strip_prefix(b"\\repeat ") {
            Some(count) => {
                self.open = Some(Stretch {
                    head: line,
                    turns: read_turns(line, count)?,
                    pieces: Vec::new(self.alloc),
                });
                Ok(())
            }
            None => put_line(&mut self.bytes, line),
        }
    }

    // A line of a stretch that is repeated, or its end.
    fn take_inside(&mut self, line: Line<'a>, stretch: Stretch<'a>) -> Result<(), ArchiveRefusal> {
        let mut stretch = stretch;
        if line.text == b"\\end".as_slice() {
            let turns = stretch.turns;
            return put_turns(&mut self.bytes, stretch.pieces.as_mut_slice(), turns);
        }
        add_line(&mut stretch.pieces, line)?;
        self.open = Some(stretch);
        Ok(())
    }
}

// How often the lines behind this one are repeated.
fn read_turns(line: Line<'_>, count: &[u8]) -> Result<u64, ArchiveRefusal> {
    match read_number(count) {
        Some(turns) if turns <= MOST_TURNS => Ok(turns),
        _ => Err(line.refusal(ArchiveFault::BadNumber)),
    }
}

// Appends what a line outside of a repeated stretch spells.
fn put_line(out: &mut Vec<u8>, line: Line<'_>) -> Result<(), ArchiveRefusal> {
    match open_end(line) {
        Some(open) => put_spelled(out, open),
        None => {
            put_spelled(out, line)?;
            out.push(b'\n')?;
            Ok(())
        }
    }
}

// The line without the backslash at its end, where that says that it has no LF.
fn open_end(line: Line<'_>) -> Option<Line<'_>> {
    let Some(text) = line.text.strip_suffix(b"\\") else {
        return None;
    };
    let escapes = text.iter().rev().take_while(|byte| **byte == b'\\').count();
    if escapes % 2 != 0 {
        return None;
    }
    let number = line.number;
    Some(Line { number, text })
}

// Appends so many turns.
fn put_turns(out: &mut Vec<u8>, pieces: &mut [Piece], turns: u64) -> Result<(), ArchiveRefusal> {
    for _ in 0..turns {
        put_turn(out, pieces)?;
    }
    Ok(())
}

// Appends one turn, and moves its numbers on.
fn put_turn(out: &mut Vec<u8>, pieces: &mut [Piece]) -> Result<(), ArchiveRefusal> {
    for piece in pieces.iter_mut() {
        match piece {
            Piece::Bytes(bytes) => put(out, bytes.as_slice())?,
            Piece::Number { next, step } => {
                put_number(out, *next)?;
                *next = next.saturating_add(*step);
            }
        }
    }
    Ok(())
}

// Adds what a line of a repeated stretch spells.
fn add_line(pieces: &mut Vec<Piece>, line: Line<'_>) -> Result<(), ArchiveRefusal> {
    match open_end(line) {
        Some(open) => add_spelled(pieces, open),
        None => {
            add_spelled(pieces, line)?;
            add_bytes(pieces, b"\n")
        }
    }
}

// Adds what this spelling stands for, numbers too.
fn add_spelled(pieces: &mut Vec<Piece>, line: Line<'_>) -> Result<(), ArchiveRefusal> {
    for spelled in Spelling::of(line.text) {
        match spelled {
            Spelled::Plain(bytes) => add_bytes(pieces, bytes)?,
            Spelled::Byte(byte) => add_bytes(pieces, &[byte])?,
            Spelled::Number { start, step } if start <= MOST_START && step <= MOST_START => {
                pieces.push(Piece::Number { next: start, step })?;
            }
            Spelled::Number { .. } => return Err(line.refusal(ArchiveFault::BadNumber)),
            Spelled::Bad => return Err(line.refusal(ArchiveFault::BadEscape)),
        }
    }
    Ok(())
}

// Adds these bytes, to the last piece where that is bytes.
fn add_bytes(pieces: &mut Vec<Piece>, bytes: &[u8]) -> Result<(), ArchiveRefusal> {
    if let Some(Piece::Bytes(last)) = pieces.last_mut() {
        put(last, bytes)?;
        return Ok(());
    }
    let piece = Vec::from_slice(*pieces.allocator(), bytes)?;
    pieces.push(Piece::Bytes(piece))?;
    Ok(())
}
