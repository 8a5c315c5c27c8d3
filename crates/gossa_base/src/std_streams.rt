// The standard streams. These few lines, and what the system does below them, are the edge: no clause says which
// bytes a real stream gives or takes.

ghost use Rattle.std.specs.Prelude.{◌≡◌, ◌<◌, ◌≤◌, length, IfOk, OnOk, OnErr};
ghost use Rattle.std.specs.Io.{ReadsAtMost};
ghost use Rattle.std.specs.Io.KnownBytes.{ReadConsumes, WriteAppends};
ghost use Rattle.gossa_base.specs.Faults.{Faulted, faults_after};
ghost use Rattle.gossa_base.specs.StdStreams.{read_answer, write_answer};

use crate::outside::{Failed, Sink, Source};
use std::io;
use std::io::{Read, Write};

// What a read answers, by what the reader gave: its count of bytes, whatever that is, and an error as a fault.
fn read_answer(given: io::Result<usize>) -> Result<usize, Failed>
    ensures { result ≡ read_answer given }
{
    match given {
        Ok(n) => Ok(n),
        Err(_) => Err(Failed),
    }
}

// What a write answers, by what the writer gave: its count of bytes, and as a fault an error, or that it took no byte.
fn write_answer(given: io::Result<usize>) -> Result<usize, Failed>
    ensures { result ≡ write_answer given }
{
    match given {
        Ok(n) if n > 0 => Ok(n),
        _ => Err(Failed),
    }
}

// The count of faults behind a call that answered this.
fn faults_after(faults: u64, answer: &Result<usize, Failed>) -> u64
    ensures { result ≡ faults_after faults answer.now }
{
    match answer {
        Ok(_) => faults,
        Err(Failed) => faults.saturating_add(1),
    }
}

/// Standard input, or any other reader. It tells the bytes that its reader tells, of which a real stream tells
/// none, and counts one fault at each error of the system; the count stays at its last number.
#[derive(Drop)]
pub struct StdSource<R: Read> {
    reader: R,
    faults: u64,
}

impl<R: Read> StdSource<R> {
    /// The stream behind this reader, with no fault so far.
    pub fn new(reader: R) -> StdSource<R>
        ensures left { ⟦<StdSource<R> as Source>⟧.left result ≡ R.remaining reader }
        ensures faults { ⟦<StdSource<R> as Source>⟧.faults result ≡ 0 }
    {
        StdSource { reader, faults: 0 }
    }
}

impl<R: Read> Source for StdSource<R> {
    ghost left = { λ s. R.remaining s.reader };

    ghost faults = { λ s. s.faults };

    fn read(&mut self, buf: &mut [u8]) -> Result<usize, Failed>
        requires { 0 < length buf.old }
        ensures bound { ReadsAtMost result buf.new }
        ensures bytes { ReadConsumes (R.remaining self.old.reader) (R.remaining self.new.reader) result buf.new }
        ensures failed { OnErr result (Faulted self.old.faults self.new.faults) }
        ensures count { self.old.faults ≤ self.new.faults }
        ensures calm { OnOk result (self.new.faults ≡ self.old.faults) }
        ensures counted { self.new.faults ≡ faults_after self.old.faults result }
    {
        let answer = read_answer(self.reader.read(buf));
        self.faults = faults_after(self.faults, &answer);
        answer
    }
}

/// Standard output, standard error, or any other writer. It tells the bytes that its writer tells, of which a real
/// stream tells none, and counts one fault at each error of the system, and where the system took no byte.
#[derive(Drop)]
pub struct StdSink<W: Write> {
    writer: W,
    faults: u64,
}

impl<W: Write> StdSink<W> {
    /// The stream behind this writer, with no fault so far.
    pub fn new(writer: W) -> StdSink<W>
        ensures held { ⟦<StdSink<W> as Sink>⟧.held result ≡ W.contents writer }
        ensures faults { ⟦<StdSink<W> as Sink>⟧.faults result ≡ 0 }
    {
        StdSink { writer, faults: 0 }
    }
}

impl<W: Write> Sink for StdSink<W> {
    ghost held = { λ s. W.contents s.writer };

    ghost faults = { λ s. s.faults };

    fn write(&mut self, piece: &[u8]) -> Result<usize, Failed>
        requires { 0 < length piece.now }
        ensures some { IfOk result (λ n. 0 < n) }
        ensures bound { IfOk result (λ n. n ≤ length piece.now) }
        ensures bytes { WriteAppends (W.contents self.old.writer) (W.contents self.new.writer) result piece.now }
        ensures failed { OnErr result (Faulted self.old.faults self.new.faults) }
        ensures count { self.old.faults ≤ self.new.faults }
        ensures calm { OnOk result (self.new.faults ≡ self.old.faults) }
        ensures counted { self.new.faults ≡ faults_after self.old.faults result }
    {
        let answer = write_answer(self.writer.write(piece));
        self.faults = faults_after(self.faults, &answer);
        answer
    }
}
