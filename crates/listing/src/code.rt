// Functions of lines, and units of them.

use crate::line::Line;
use gossa_base::{Name, Sequence};
use ssa_ir::{Sig, Sigs};
use std::marker::Model;

/// A list of lines.
pub type Lines = Sequence<Line>;

/// A list of names.
pub type Names = Sequence<Name>;

/// A function's code: its signature, the number of registers that it may use, the symbols that its lines name,
/// the lines, and how many outgoing words and argument words it has.
///
/// The lines name registers that the machine has, symbols of the list, outgoing and argument words that are there,
/// and blocks that have a label; a move goes from a register or to one.
#[derive(Drop)]
pub struct Code {
    pub sig: Sig,
    pub regs: u32,
    pub syms: Names,
    pub lines: Lines,
    pub out: u32,
    pub arg_words: u32,
}

impl Model for Code {
    ghost use Rattle.listing.specs.CodeFacts.{CodeParts, IsCode};

    ghost Value = { CodeParts };

    ghost view = { λ c.
        record { sig = c.sig; regs = c.regs; syms = c.syms; lines = c.lines; out = c.out; arg_words = c.arg_words } };

    ghost invariant = { λ c. IsCode
        (record { sig = c.sig; regs = c.regs; syms = c.syms; lines = c.lines; out = c.out; arg_words = c.arg_words }) };
}

/// One bit for each word.
pub type Bits = Sequence<bool>;

/// Which argument words and which pointer words of the frame are live pointers at a call.
#[derive(Drop)]
pub struct Map {
    pub args: Bits,
    pub locals: Bits,
}

/// A list of maps.
pub type Maps = Sequence<Map>;

/// A function's listing: its code, how many pointer words and scalar words its frame has, and its maps.
#[derive(Drop)]
pub struct Listing {
    pub code: Code,
    pub ptr: u32,
    pub scalar: u32,
    pub maps: Maps,
}

/// A list of functions' listings.
pub type ListingList = Sequence<Listing>;

/// A unit's listings: the signatures of what it calls outside, and its functions in order.
#[derive(Drop)]
pub struct Listings {
    pub sigs: Sigs,
    pub funcs: ListingList,
}
