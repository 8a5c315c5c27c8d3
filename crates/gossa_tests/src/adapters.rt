// The adapters over standard streams, over a reader and a writer that fail at their first call alone: a fault is
// answered, and the call isn't made again, a long piece is no fault, and neither is the end.

ghost use Rattle.std.specs.Prelude.{◌≡◌, IfOk};

use gossa_base::{Failed, Sink, Source, StdSink, StdSource};
use std::io;
use std::io::{ErrorKind, Read, Write};

// Fails at its first call; each later one fills the whole buffer, or takes the whole piece.
#[derive(Drop)]
struct FailsOnce {
    failed: bool,
}

impl FailsOnce {
    fn moved(&mut self, count: usize) -> io::Result<usize>
        ensures bound { IfOk result (λ n. n ≡ count) }
    {
        if self.failed {
            Ok(count)
        } else {
            self.failed = true;
            Err(io::Error::from(ErrorKind::Interrupted))
        }
    }
}

impl Read for FailsOnce {
    fn read(&mut self, buf: &mut [u8]) -> io::Result<usize> {
        self.moved(buf.len())
    }
}

impl Write for FailsOnce {
    fn write(&mut self, buf: &[u8]) -> io::Result<usize> {
        self.moved(buf.len())
    }

    fn flush(&mut self) -> io::Result<()> {
        Ok(())
    }
}

// How many bytes are asked for or handed over, one call behind the other, and how each is answered.
const CALLS: [(usize, Result<usize, Failed>); 3] = [
    (10_000, Err(Failed)),
    (10_000, Ok(10_000)),
    (1, Ok(1)),
];

#[test]
fn a_source_answers_what_its_reader_gives(rt: HostRuntime) {
    let mut buffer = [0u8; 10_000];
    let mut source = StdSource::new(FailsOnce { failed: false });
    for (count, answer) in CALLS.iter() {
        assert!(rt; *count <= 10_000);
        assert!(rt; source.read(&mut buffer[..*count]) == *answer);
    }
}

#[test]
fn a_source_answers_the_end(rt: HostRuntime) {
    let mut buffer = [0u8; 10_000];
    let mut source = StdSource::new(b"ab".as_slice());
    for left in [2, 0, 0].iter() {
        assert!(rt; source.read(&mut buffer) == Ok(*left));
    }
}

#[test]
fn a_sink_answers_what_its_writer_takes(rt: HostRuntime) {
    let piece = [7u8; 10_000];
    let mut sink = StdSink::new(FailsOnce { failed: false });
    for (count, answer) in CALLS.iter() {
        assert!(rt; *count <= 10_000);
        assert!(rt; sink.write(&piece[..*count]) == *answer);
    }
}
