// The lines of code.

use gossa_base::{BlockId, Sequence, ValueId};
use ssa_ir::{CondCode, Op};

/// Where a word stands, or what it is.
#[derive(Clone, Copy, Debug, PartialEq, Eq)]
pub enum Place {
    /// A register, R0 to R17 or R19 to R27.
    Reg(u32),
    /// An outgoing word, from 0: where a callee finds an argument or leaves a result.
    Out(u32),
    /// An argument word, from 0, in the caller's frame.
    Arg(u32),
    /// A word of the frame, from 0: first the pointer words, then the scalar words.
    Frame(u32),
    /// The home of a value, before homes are given words of the frame.
    Home(ValueId),
    /// A constant.
    Const(i64),
    /// The address of a symbol, by its number in the code's table.
    Addr(u32),
}

/// Which value a line serves.
#[derive(Clone, Copy, Debug, PartialEq, Eq)]
pub enum Note {
    /// No note.
    Bare,
    /// Computes the value, or is its store, call, nil check or comparison.
    Value(ValueId),
    /// Stores the value in its home.
    Spill(ValueId),
    /// Loads the value, or makes a constant or address anew.
    Load(ValueId),
    /// Belongs to the moves of an edge.
    Edge,
    /// Belongs to the moves of a call's arguments.
    Args,
    /// Belongs to the moves of a function's results.
    Results,
}

/// The registers of a computing line: the result's, and those of the first and second argument.
#[derive(Clone, Copy, Debug, PartialEq, Eq)]
pub struct Operands {
    pub dst: Option<u32>,
    pub a: Option<u32>,
    pub b: Option<u32>,
}

/// Which registers hold which values where a block begins, by ascending register.
pub type RegState = Sequence<(u32, ValueId)>;

/// One line of code.
#[derive(Drop)]
pub enum Line {
    /// A block's beginning.
    Label(BlockId, RegState),
    /// A computing line with the op's number.
    Op(Op, i64, Operands, Note),
    /// A word goes to the first place from the second.
    Move(Place, Place, Note),
    /// Traps where the register is 0.
    Nil(u32, Note),
    /// Goes to the block where the condition holds.
    Branch(CondCode, BlockId),
    /// Goes to the block where bit 0 of the register is 1, or, with `false`, 0.
    BitBranch(bool, u32, BlockId),
    /// Goes to the block.
    Jump(BlockId),
    /// Calls a symbol, by its number, with a map, by its number.
    Call(u32, u32, Note),
    /// Returns the words of the result places.
    Ret,
    /// Ends the program.
    Exit,
}
