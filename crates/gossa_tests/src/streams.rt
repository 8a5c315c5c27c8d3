// The outside in pieces: whole reads and writes over sources and sinks in memory, and over the standard streams of a
// process.

ghost use Rattle.std.specs.Prelude.{◌≤◌};

use gossa_base::{
    Failed, MemSink, MemSource, NoMemory, ReadRefusal, Sink, Source, StdSink, StdSource, read_all,
    write_all,
};
use std::alloc::Global;
use std::test::Fail;

// Texts, the most bytes of one read, the limit, and whether all is read or why not.
const READINGS: [(&[u8], usize, usize, Result<bool, ReadRefusal>); 9] = [
    (b"abcdef", 1, 6, Ok(true)),
    (b"abcdef", 4, 6, Ok(true)),
    (b"abcdef", 9, 7, Ok(true)),
    (b"abcdef", 4, usize::MAX, Ok(true)),
    (b"abcdef", 1, 5, Err(ReadRefusal::TooLong)),
    (b"abcdef", 4, 5, Err(ReadRefusal::TooLong)),
    (b"abcdef", 9, 0, Err(ReadRefusal::TooLong)),
    (b"", 4, 0, Ok(true)),
    (b"", 4, 6, Ok(true)),
];

#[test]
fn reads_all_up_to_the_limit(rt: HostRuntime) {
    for (text, piece, limit, want) in READINGS.iter() {
        assert!(rt; *piece >= 1);
        let read = reads(rt.alloc(), text, *piece, *limit);
        assert!(rt; read == Ok(*want), "piece {piece}, limit {limit}");
    }
}

// Whether a source in memory is read as its text, or why it isn't read.
fn reads(
    alloc: Global,
    text: &[u8],
    piece: usize,
    limit: usize,
) -> Result<Result<bool, ReadRefusal>, NoMemory>
    requires { 1 ≤ piece }
{
    let mut source = MemSource::new(alloc, text, piece, &[])?;
    Ok(is_read(alloc, &mut source, limit, text))
}

// Whether what is left of a source is this.
fn is_read<S: Source>(
    alloc: Global,
    source: &mut S,
    limit: usize,
    want: &[u8],
) -> Result<bool, ReadRefusal> {
    Ok(read_all(alloc, source, limit)?.as_slice() == want)
}

#[test]
fn tells_a_fault_while_reading(rt: HostRuntime) -> Result<(), Fail> {
    let mut source = MemSource::new(rt.alloc(), b"abcdef", 4, &[2])?;
    assert!(rt; is_read(rt.alloc(), &mut source, 6, b"") == Err(ReadRefusal::ReadFault));
    // the failed call took nothing
    assert!(rt; is_read(rt.alloc(), &mut source, 6, b"ef") == Ok(true));
    Ok(())
}

// A text that is written, how that is answered, and what the sink then holds.
type Write = (&'static [u8], Result<(), Failed>, &'static [u8]);

#[test]
fn writes_all_or_a_prefix(rt: HostRuntime) {
    assert!(rt; are_written(rt.alloc(), 10, &[], &WHOLE) == Ok(true));
    assert!(rt; are_written(rt.alloc(), 10, &[3], &FAILING) == Ok(true));
    assert!(rt; are_written(rt.alloc(), 3, &[], &SMALL) == Ok(true));
}

const WHOLE: [Write; 3] = [
    (b"abcdef", Ok(()), b"abcdef"),
    (b"", Ok(()), b"abcdef"),
    (b"ghij", Ok(()), b"abcdefghij"),
];

const FAILING: [Write; 1] = [(b"abcdef", Err(Failed), b"abcd")];

const SMALL: [Write; 1] = [(b"abcde", Err(Failed), b"abc")];

// Whether a sink with room for so many bytes, which takes two at a call and fails at these, is written to so.
fn are_written(
    alloc: Global,
    room: usize,
    fail_at: &[u64],
    writes: &[Write],
) -> Result<bool, NoMemory> {
    let mut sink = MemSink::new(alloc, room, 2, fail_at)?;
    for (text, answer, held) in writes {
        if write_all(&mut sink, text) != *answer || sink.held() != *held {
            return Ok(false);
        }
    }
    Ok(true)
}

// Reads of at most so many bytes, one behind the other: how each is answered, and what its buffer then has.
const READS: [(usize, Result<usize, Failed>, &[u8]); 6] = [
    (3, Err(Failed), b"---"),
    (3, Ok(2), b"ab-"),
    (1, Ok(1), b"cb-"),
    (3, Err(Failed), b"cb-"),
    (3, Ok(2), b"de-"),
    (3, Ok(0), b"de-"),
];

#[test]
fn a_source_fails_at_its_listed_calls(rt: HostRuntime) -> Result<(), Fail> {
    let mut source = MemSource::new(rt.alloc(), b"abcde", 2, &[4, 1])?;
    let mut buffer = [b'-'; 3];
    for (room, answer, held) in READS.iter() {
        assert!(rt; *room <= 3);
        assert!(rt; source.read(&mut buffer[..*room]) == *answer);
        assert!(rt; buffer.as_slice() == *held);
    }
    Ok(())
}

// Writes, one behind the other: how each is answered, and what the sink then holds.
const SINK_WRITES: [(&[u8], Result<usize, Failed>, &[u8]); 5] = [
    (b"abcde", Ok(3), b"abc"),
    (b"de", Err(Failed), b"abc"),
    (b"d", Ok(1), b"abcd"),
    (b"ef", Ok(1), b"abcde"),
    (b"f", Err(Failed), b"abcde"),
];

#[test]
fn a_sink_fails_at_its_listed_calls(rt: HostRuntime) -> Result<(), Fail> {
    let mut sink = MemSink::new(rt.alloc(), 5, 3, &[2])?;
    for (text, answer, held) in SINK_WRITES.iter() {
        assert!(rt; sink.write(text) == *answer);
        assert!(rt; sink.held() == *held);
    }
    Ok(())
}

#[test]
fn the_standard_streams_answer(rt: HostRuntime) {
    // a test's own input is empty
    let mut source = StdSource::new(rt.stdin());
    assert!(rt; source.read(&mut [0; 4]) == Ok(0));
    assert!(rt; is_read(rt.alloc(), &mut source, 0, b"") == Ok(true));
    let mut out = StdSink::new(rt.stdout());
    assert!(rt; write_all(&mut out, b"a whole line\n") == Ok(()));
    let mut errors = StdSink::new(rt.stderr());
    assert!(rt; write_all(&mut errors, b"a whole line\n") == Ok(()));
}
