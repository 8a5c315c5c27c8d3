// What a line of a case spells.

use gossa_base::Name;
use ssa_ir::{Piece, Words};
use ssa_lines::Spelled;

/// The first line of a case: the name of its function, and the bound of its run, as a word.
#[derive(Drop)]
pub struct CaseHead {
    pub name: Name,
    pub bound: u64,
}

/// The address of a symbol.
#[derive(Drop)]
pub struct SymLine {
    pub name: Name,
    pub address: u64,
}

/// The form of a line among cases, by its words alone.
#[derive(Drop)]
pub enum CaseForm {
    /// Without words, or a comment.
    Blank,
    /// `case NAME BOUND`, the beginning of a case.
    Head(Spelled<CaseHead>),
    /// `args W W`: the parameters' words, of which the first [`MAX_WORDS`] are kept.
    Args(Spelled<Words>),
    /// `sym NAME W`: the address of a symbol.
    Sym(Spelled<SymLine>),
    /// `mem ADDR HEX`: bytes of memory.
    Mem(Spelled<Piece>),
    /// `junk W W`: words that stand in all else.
    Junk(Spelled<Words>),
    /// `fill W`: what the junk goes on with.
    Fill(Spelled<u64>),
    /// `reply W W`: the beginning of a reply, and its result words, of which the first [`MAX_WORDS`] are kept.
    Reply(Spelled<Words>),
    /// `write ADDR HEX`: bytes that the callee wrote.
    Write(Spelled<Piece>),
    /// `rjunk W W`: words that the callee left in all else.
    ReplyJunk(Spelled<Words>),
    /// `rfill W`: what the reply's junk goes on with.
    ReplyFill(Spelled<u64>),
    /// `clobber W`: the word in each pointer slot outside the call's map.
    Clobber(Spelled<u64>),
    /// None of these.
    Bad,
}
