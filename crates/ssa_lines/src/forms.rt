// What a line spells.

use crate::numbers::Integer;
use gossa_base::{Name, ValueId};
use ssa_ir::{BlockIds, Kind, Scalar, Sig, Value};

/// What stands in brackets.
#[derive(Clone, Copy, Debug, PartialEq, Eq)]
pub enum Bracket {
    Number(Integer),
    Truth(bool),
}

/// What a value has besides its type and arguments, as its op's row has it.
#[derive(Drop)]
pub struct Aux {
    pub number: Integer,
    pub sym: Option<Name>,
    pub elem: Option<Scalar>,
}

/// What a line of some form spells.
#[derive(Drop)]
pub enum Spelled<T> {
    /// This.
    Fits(T),
    /// Nothing, since a number of it is outside its range.
    TooLarge,
}

/// The first line of a block: its number, and those of its predecessors.
#[derive(Drop)]
pub struct BlockLine {
    pub n: u32,
    pub preds: BlockIds,
}

/// The last line of a block.
#[derive(Drop)]
pub struct ControlLine {
    pub kind: Kind,
    pub control: Option<ValueId>,
    pub succs: BlockIds,
}

/// What a line with the shape of a value's spells.
#[derive(Drop)]
pub enum ValueLine {
    Known(Value),
    /// Nothing, since no generic op has the name that stands there.
    UnknownOp,
    /// Nothing, since a number of it is outside its range.
    TooLarge,
}

/// The form of a line, by its words alone.
#[derive(Drop)]
pub enum Form {
    /// Without words, or a comment.
    Blank,
    /// One whose first word is `case`.
    Case,
    /// The signature of a function that is called.
    Sig(Sig),
    /// The beginning of a function.
    Func(Sig),
    /// The beginning of a block.
    Block(Spelled<BlockLine>),
    /// A value.
    Value(ValueLine),
    /// The end of a block.
    Control(Spelled<ControlLine>),
    /// None of these.
    Bad,
}
