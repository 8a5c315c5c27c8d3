// A row played: its calls over streams in memory.

use crate::judging::Came;
use crate::row::{Call, Program, Row, StreamPlan, Streams};
use gossa_base::{Bytes, Failed, MemSink, MemSource, NoMemory, Sequence, Sink, Source, put};
use gossa_core::gossa;
use std::alloc::Global;

// How many bytes are taken at once of what a source has left.
const CHUNK: usize = 4096;

/// What the calls of a row come to: that of the last one, or of the first one whose status isn't 0.
pub fn play(alloc: Global, row: &Row) -> Result<Came, NoMemory> {
    let mut came = Came {
        status: 0,
        output: row.input.clone()?,
        errors: Sequence::new(alloc),
        left: Sequence::new(alloc),
    };
    for call in row.calls.iter() {
        came = play_call(alloc, call, came.output.as_slice(), &row.streams)?;
        if came.status != 0 {
            return Ok(came);
        }
    }
    Ok(came)
}

// What a call over this input comes to.
fn play_call(
    alloc: Global,
    call: &Call,
    input: &[u8],
    streams: &Streams,
) -> Result<Came, NoMemory> {
    let mut source = source_over(alloc, input, &streams.source)?;
    let mut sink = sink_of(alloc, streams.room, &streams.sink)?;
    let mut errs = sink_of(alloc, streams.tell_room, &streams.errs)?;
    let status = call_program(alloc, call, &mut source, &mut sink, &mut errs);
    Ok(Came {
        status,
        output: copied(alloc, sink.held())?,
        errors: copied(alloc, errs.held())?,
        left: drained(alloc, &mut source)?,
    })
}

// Calls the program, and answers the number of its status.
fn call_program(
    alloc: Global,
    call: &Call,
    source: &mut MemSource,
    sink: &mut MemSink,
    errs: &mut MemSink,
) -> u8 {
    match call.program {
        Program::Gossa => gossa(alloc, call.words.as_slice(), source, sink, errs).number(),
    }
}

// A source over this input that moves so.
fn source_over(alloc: Global, input: &[u8], plan: &StreamPlan) -> Result<MemSource, NoMemory> {
    MemSource::new(alloc, input, plan.piece, plan.fail_at.as_slice())
}

// A sink with so much room that moves so.
fn sink_of(alloc: Global, room: usize, plan: &StreamPlan) -> Result<MemSink, NoMemory> {
    MemSink::new(alloc, room, plan.piece, plan.fail_at.as_slice())
}

// These bytes, in a list of their own.
fn copied(alloc: Global, bytes: &[u8]) -> Result<Bytes, NoMemory> {
    Ok(Sequence::from_vec(Vec::from_slice(alloc, bytes)?))
}

// All that the source has left. A call that fails takes nothing, so it is made again.
fn drained(alloc: Global, source: &mut MemSource) -> Result<Bytes, NoMemory> {
    let mut bytes = Vec::new(alloc);
    let mut buffer = [0u8; CHUNK];
    for _ in 0..u64::MAX {
        match source.read(&mut buffer) {
            Ok(0) => break,
            Ok(n) => put(&mut bytes, &buffer[..n])?,
            Err(Failed) => {}
        }
    }
    Ok(Sequence::from_vec(bytes))
}
