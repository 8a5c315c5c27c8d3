// Kinds of op that runs, orders and checks tell apart, and the memory that a value takes.

ghost use Rattle.std.specs.Prelude.{◌≡◌, ◌||◌};
ghost use Rattle.ssa_ir.specs.FirstOrder as order;
ghost use Rattle.ssa_ir.specs.OpKinds as spec;

use crate::func::Value;
use crate::op::{Op, op_row};
use gossa_base::ValueId;

impl Op {
    /// Whether a value of this op takes its argument by the edge of its block.
    pub fn is_phi(self) -> bool
        ensures { result ≡ spec.is_phi self }
    {
        matches!(self, Op::Phi)
    }

    /// Whether it is a parameter of the function.
    pub fn is_arg(self) -> bool
        ensures { result ≡ spec.is_arg self }
    {
        matches!(self, Op::Arg)
    }

    /// Whether it is the memory at the entry.
    pub fn is_init(self) -> bool
        ensures { result ≡ spec.is_init self }
    {
        matches!(self, Op::InitMem)
    }

    /// Whether it calls.
    pub fn is_call(self) -> bool
        ensures { result ≡ spec.is_call self }
    {
        matches!(self, Op::StaticLECall | Op::Arm64CALLstatic)
    }

    /// Whether it selects a result of a call.
    pub fn is_select(self) -> bool
        ensures { result ≡ spec.is_follower self }
    {
        matches!(self, Op::SelectN)
    }

    /// Whether it gathers the results of the function.
    pub fn is_result(self) -> bool
        ensures { result ≡ spec.is_result self }
    {
        matches!(self, Op::MakeResult)
    }

    /// Whether it reads a memory and makes none: a load or a nil check.
    pub fn reads_memory(self) -> bool
        ensures { result ≡ spec.reads_memory self }
    {
        op_row(self).reads_mem
    }

    /// Whether it makes a memory, or calls.
    pub fn changes_memory(self) -> bool
        ensures { result ≡ spec.changes_memory self }
    {
        op_row(self).makes_mem || self.is_call()
    }

    // Whether it reads or changes a memory.
    fn takes_memory(self) -> bool
        ensures { result ≡ (spec.reads_memory self || spec.changes_memory self) }
    {
        self.reads_memory() || self.changes_memory()
    }
}

impl Value {
    /// The memory that a value reads or changes: its last argument. A select, a Phi and a MakeResult take none in this
    /// sense.
    pub fn memory_taken(&self) -> Option<ValueId>
        ensures { result ≡ order.memory_taken self.now.op self.now.args }
    {
        if self.op.takes_memory() {
            return self.args.as_slice().last().copied();
        }
        None
    }
}

/// Whether two memories are there and the same.
pub fn same_memory(a: Option<ValueId>, b: Option<ValueId>) -> bool
    ensures { result ≡ order.same_memory a b }
{
    match (a, b) {
        (Some(first), Some(second)) => first.0 == second.0,
        _ => false,
    }
}
