// Values, blocks and functions.

use crate::args::Args;
use crate::case::Cases;
use crate::op::{CondCode, Op};
use crate::types::{Scalar, Sig, Sigs, Ty};
use gossa_base::{BlockId, Name, Sequence, ValueId};

/// One value of a function.
#[derive(Clone, Drop)]
pub struct Value {
    pub id: ValueId,
    pub op: Op,
    pub ty: Ty,
    /// The number of an op that has one, as a constant or a parameter's number, else 0.
    pub aux: i64,
    /// The name of an op that has one, as a callee.
    pub sym: Option<Name>,
    /// The type that a store writes.
    pub elem: Option<Scalar>,
    pub args: Args,
}

/// A list of values.
pub type Values = Sequence<Value>;

/// How a block ends.
#[derive(Clone, Copy, Debug, PartialEq, Eq)]
pub enum Kind {
    /// Goes to its one successor.
    Plain,
    /// Goes to the first successor where its control is true, else to the second.
    If,
    /// Returns its control, a MakeResult.
    Ret,
    /// Ends the program, as behind a call that doesn't return; its control is a memory.
    Exit,
    /// Goes to the first successor where the condition holds of its control, a comparison, else to the second.
    Cond(CondCode),
    /// Goes to the first successor where bit 0 of its control is 1, else to the second.
    Bit,
}

/// A list of blocks' names.
pub type BlockIds = Sequence<BlockId>;

/// A stretch of values that run one after the other, and how it ends.
#[derive(Clone, Drop)]
pub struct Block {
    pub id: BlockId,
    pub preds: BlockIds,
    pub values: Values,
    pub kind: Kind,
    pub control: Option<ValueId>,
    pub succs: BlockIds,
}

/// A list of blocks.
pub type Blocks = Sequence<Block>;

/// A function: its signature and its blocks, the entry first.
#[derive(Clone, Drop)]
pub struct Func {
    pub sig: Sig,
    pub blocks: Blocks,
}

/// A list of functions.
pub type Funcs = Sequence<Func>;

/// A unit: the signatures of what it calls outside, its functions, and the cases that they run on.
#[derive(Clone, Drop)]
pub struct SsaUnit {
    pub sigs: Sigs,
    pub funcs: Funcs,
    pub cases: Cases,
}
