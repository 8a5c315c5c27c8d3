// Whole texts, read and written piece by piece.

ghost use Rattle.std.specs.Prelude.{◌≡◌, ◌≢◌, ◌≤◌, OnOk, OnErr, IfOk};
ghost use Rattle.std.specs.Io.KnownBytes.{Appends};
ghost use Rattle.gossa_base.specs.Faults.{Faulted};
ghost use Rattle.gossa_base.specs.Whole.{ReadsWhole, ReadsWithin, ReadsPast, AppendsPrefix};

use crate::memory::NoMemory;
use crate::outside::{Failed, Sink, Source};
use crate::sequence::{Bytes, Sequence};
use std::alloc::Global;

/// Why a whole read gave no bytes.
#[derive(Clone, Copy, Debug, PartialEq, Eq)]
pub enum ReadRefusal {
    /// The source met a fault.
    ReadFault,
    /// There are more bytes than the limit.
    TooLong,
    /// There was no memory for the bytes.
    NoMemory,
}

// How many bytes one read may give.
const CHUNK: usize = 4096;

/// Reads all that the source has left, up to its end: at most `limit` bytes. A fault that the source meets ends it, so
/// that with any other answer the count of faults stayed.
pub fn read_all<S: Source>(
    alloc: Global,
    source: &mut S,
    limit: usize,
) -> Result<Bytes, ReadRefusal>
    ensures ok { IfOk result (ReadsWhole limit (S.left source.old) (S.left source.new)) }
    ensures fault { result ≡ Err ReadRefusal.ReadFault → Faulted (S.faults source.old) (S.faults source.new) }
    ensures too_long { result ≡ Err ReadRefusal.TooLong → ReadsPast limit (S.left source.old) (S.left source.new) }
    ensures within { result ≡ Err ReadRefusal.ReadFault → ReadsWithin limit (S.left source.old) (S.left source.new) }
    ensures memory { result ≡ Err ReadRefusal.NoMemory → ReadsWithin limit (S.left source.old) (S.left source.new) }
    ensures calm { result ≢ Err ReadRefusal.ReadFault → S.faults source.new ≡ S.faults source.old }
    ensures count { S.faults source.old ≤ S.faults source.new }
{
    let mut held = Vec::new(alloc);
    let mut buffer = [0u8; CHUNK];
    'pieces: loop {
        let room = limit - held.len();
        let wanted = room.min(CHUNK - 1) + 1;
        let n = match source.read(&mut buffer[..wanted]) {
            Ok(n) => n,
            Err(Failed) => return Err(ReadRefusal::ReadFault),
        };
        if n == 0 {
            return Ok(Sequence::from_vec(held));
        }
        if n > room {
            return Err(ReadRefusal::TooLong);
        }
        if held.extend_from_slice(&buffer[..n]).is_err() {
            return Err(ReadRefusal::NoMemory);
        }
    }
}

/// Writes all of `text`. Where it fails, a prefix of the text was written; where it doesn't, the count of faults
/// stayed.
pub fn write_all<K: Sink>(sink: &mut K, text: &[u8]) -> Result<(), Failed>
    ensures ok { OnOk result (Appends (K.held sink.old) (K.held sink.new) text.now) }
    ensures fault { OnErr result (Faulted (K.faults sink.old) (K.faults sink.new)) }
    ensures prefix { OnErr result (AppendsPrefix (K.held sink.old) (K.held sink.new) text.now) }
    ensures calm { OnOk result (K.faults sink.new ≡ K.faults sink.old) }
    ensures count { K.faults sink.old ≤ K.faults sink.new }
{
    let mut written = 0;
    'pieces: while written < text.len() {
        written += sink.write(&text[written..])?;
    }
    Ok(())
}
