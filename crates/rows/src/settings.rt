// From what a row's lines give to the row.

use crate::draft::{Draft, Key, Setting};
use crate::fault::{ArchiveFault, ArchiveRefusal};
use crate::judging::Wanted;
use crate::numbers::{read_number, read_positive};
use crate::row::{Row, StreamPlan, Streams};
use crate::texts::read_text;
use crate::words::read_calls;
use gossa_base::{Bytes, Sequence};
use std::alloc::Global;

// The most bytes of one call of a stream, where a row doesn't say.
const PIECE: u64 = 4096;
// How many bytes the output has room for, where a row doesn't say.
const ROOM: usize = 1_048_576;
// How many bytes the error stream has room for, where a row doesn't say.
const TELL_ROOM: usize = 4096;
// The greatest status of a program.
const MOST_STATUS: u64 = 5;

/// The row that these lines give.
pub(crate) fn read_row(alloc: Global, draft: &Draft<'_>) -> Result<Row, ArchiveRefusal> {
    let calls = read_calls(alloc, draft.need(Key::Words, ArchiveFault::KeyMissing)?)?;
    let status = read_status(draft.need(Key::Status, ArchiveFault::KeyMissing)?)?;
    let input = draft.need(Key::Input, ArchiveFault::PartMissing)?;
    let output = draft.need(Key::Output, ArchiveFault::PartMissing)?;
    let errors = draft.need(Key::Errors, ArchiveFault::PartMissing)?;
    Ok(Row {
        name: Sequence::from_vec(Vec::from_slice(alloc, draft.name())?),
        calls,
        input: read_text(alloc, input.lines.as_slice())?,
        streams: read_streams(alloc, draft)?,
        wanted: Wanted {
            status,
            output: read_wanted(alloc, output)?,
            errors: read_wanted(alloc, errors)?,
            left: match draft.find(Key::Left) {
                Some(left) => read_wanted(alloc, left)?,
                None => None,
            },
        },
    })
}

// The status that is wanted.
fn read_status(setting: &Setting<'_>) -> Result<Option<u8>, ArchiveRefusal> {
    if setting.is_any() {
        return Ok(None);
    }
    match read_number(setting.value()) {
        Some(status) if status <= MOST_STATUS => Ok(Some(status as u8)),
        _ => Err(setting.refusal(ArchiveFault::BadNumber)),
    }
}

// The text that is wanted.
fn read_wanted(alloc: Global, setting: &Setting<'_>) -> Result<Option<Bytes>, ArchiveRefusal> {
    if setting.is_any() {
        Ok(None)
    } else {
        Ok(Some(read_text(alloc, setting.lines.as_slice())?))
    }
}

// How the streams of a row move.
fn read_streams(alloc: Global, draft: &Draft<'_>) -> Result<Streams, ArchiveRefusal> {
    let [source, sink, errs] = read_pieces(alloc, draft)?;
    Ok(Streams {
        source: read_plan(alloc, source, draft.find(Key::FailRead))?,
        sink: read_plan(alloc, sink, draft.find(Key::FailWrite))?,
        room: read_room(draft.find(Key::Room), ROOM)?,
        errs: read_plan(alloc, errs, draft.find(Key::FailTell))?,
        tell_room: read_room(draft.find(Key::TellRoom), TELL_ROOM)?,
    })
}

// The most bytes of one call of the source, the output and the error stream.
fn read_pieces(alloc: Global, draft: &Draft<'_>) -> Result<[u64; 3], ArchiveRefusal> {
    let Some(setting) = draft.find(Key::Pieces) else {
        return Ok([PIECE, PIECE, PIECE]);
    };
    let pieces = read_list(alloc, setting)?;
    match pieces.as_slice() {
        [source, sink, errs] => Ok([*source, *sink, *errs]),
        _ => Err(setting.refusal(ArchiveFault::BadNumber)),
    }
}

// How a stream moves, with the setting of its failing calls.
fn read_plan(
    alloc: Global,
    piece: u64,
    failing: Option<&Setting<'_>>,
) -> Result<StreamPlan, ArchiveRefusal> {
    let fail_at = match failing {
        Some(setting) => read_list(alloc, setting)?,
        None => Vec::new(alloc),
    };
    Ok(StreamPlan {
        piece: (piece as usize).max(1),
        fail_at,
    })
}

// The numbers from 1 up that a setting lists: at least one.
fn read_list(alloc: Global, setting: &Setting<'_>) -> Result<Vec<u64>, ArchiveRefusal> {
    let mut numbers = Vec::new(alloc);
    for digits in setting.value().split(|byte| *byte == b' ') {
        match read_positive(digits) {
            Some(number) => numbers.push(number)?,
            None => return Err(setting.refusal(ArchiveFault::BadNumber)),
        }
    }
    Ok(numbers)
}

// How many bytes a stream has room for.
fn read_room(setting: Option<&Setting<'_>>, unsaid: usize) -> Result<usize, ArchiveRefusal> {
    let Some(setting) = setting else {
        return Ok(unsaid);
    };
    match read_number(setting.value()) {
        Some(room) => Ok(room as usize),
        None => Err(setting.refusal(ArchiveFault::BadNumber)),
    }
}
