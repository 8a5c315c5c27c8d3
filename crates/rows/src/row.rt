// A row: what is called, on what, and what is wanted.

ghost use Rattle.std.specs.Prelude.{◌≤◌};

use crate::judging::Wanted;
use gossa_base::Bytes;

/// The programs that a row may call.
#[derive(Clone, Copy, Debug, PartialEq, Eq)]
pub enum Program {
    Gossa,
}

/// A call of a program, with the words behind its name.
#[derive(Drop)]
pub struct Call {
    pub program: Program,
    pub words: Vec<String>,
}

/// How a stream moves: the most bytes of one call, and which of its calls fail, by their numbers from 1.
#[derive(Drop)]
pub struct StreamPlan {
    pub piece: usize,
    pub fail_at: Vec<u64>,
    ghost some: { 1 ≤ piece },
}

/// The streams of each call, with the bytes that the output and the error stream have room for.
#[derive(Drop)]
pub struct Streams {
    pub source: StreamPlan,
    pub sink: StreamPlan,
    pub room: usize,
    pub errs: StreamPlan,
    pub tell_room: usize,
}

/// A row of an archive.
#[derive(Drop)]
pub struct Row {
    pub name: Bytes,
    /// At least one call. Each but the first has the output of the one before it as its input.
    pub calls: Vec<Call>,
    pub input: Bytes,
    pub streams: Streams,
    pub wanted: Wanted,
}
