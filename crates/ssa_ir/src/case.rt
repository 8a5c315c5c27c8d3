// The cases that a unit runs on, and what a run shows.

use gossa_base::{Bytes, Name, Sequence};

/// A list of words.
pub type Words = Sequence<u64>;

/// A list of words that goes on with `fill` for ever.
#[derive(Clone, Drop)]
pub struct Junk {
    pub words: Words,
    pub fill: u64,
}

/// Bytes from an address upward, modulo 2 to the 64.
#[derive(Clone, Drop)]
pub struct Piece {
    pub addr: u64,
    pub bytes: Bytes,
}

/// A list of pieces of memory; later ones lie over earlier ones.
pub type Pieces = Sequence<Piece>;

/// The addresses of symbols, by name.
pub type SymWords = Sequence<(Name, u64)>;

/// What a callee answers: its result words, the memory that it wrote, what it left in all that holds no result
/// (registers, flags and outgoing words), and the word that stands in each pointer slot outside the call's map.
#[derive(Clone, Drop)]
pub struct Reply {
    pub words: Words,
    pub writes: Pieces,
    pub junk: Junk,
    pub clobber: u64,
}

/// A list of replies, one for each call.
pub type Replies = Sequence<Reply>;

/// One input of a function, by its number in the unit: how many turns it may take, its parameter words, the
/// symbols' addresses, the memory, what stands in all else, and the replies to its calls.
#[derive(Clone, Drop)]
pub struct Case {
    pub func: u32,
    pub bound: u32,
    pub args: Words,
    pub syms: SymWords,
    pub mem: Pieces,
    pub junk: Junk,
    pub replies: Replies,
}

/// A list of cases.
pub type Cases = Sequence<Case>;

/// Bytes of memory that changed, by ascending address.
pub type Changed = Sequence<(u64, u8)>;

/// A call that a run showed: the callee, the arguments at their widths, and the memory that had changed.
#[derive(Clone, Drop)]
pub struct CallShown {
    pub callee: Name,
    pub args: Words,
    pub changed: Changed,
}

/// A list of shown calls.
pub type CallsShown = Sequence<CallShown>;

/// How a run ends.
#[derive(Clone, Drop)]
pub enum End {
    /// With these results, at their widths, and this changed memory.
    Returned(Words, Changed),
    /// At a nil check of 0.
    Trapped(Changed),
    /// At an exit.
    Exited(Changed),
    /// At a call without a reply left.
    NoReply,
    /// At the bound.
    Going,
    /// In code that goes on nowhere, or at an op of the machine, a branch or a listing's call whose meaning isn't
    /// defined yet.
    Stuck,
}

/// All that a run shows: its calls, and then its end.
#[derive(Clone, Drop)]
pub struct Shown {
    pub calls: CallsShown,
    pub end: End,
}
