// What each op is to a run.

ghost use Rattle.std.specs.Prelude.{◌≡◌};
ghost use Rattle.ssa_ir.specs.Roles as spec;

use crate::op::Op;
use crate::op_facts::facts_of;

/// What an op is to a run: every run, of functions and of listings, goes by an op's role.
#[derive(Clone, Copy, Debug, PartialEq, Eq)]
pub enum Role {
    /// It computes a word of its operands.
    Computes,
    /// It computes flags of its operands, which are its word.
    Compares,
    /// It takes a parameter.
    TakesParameter,
    /// It takes the address of a symbol.
    TakesAddress,
    /// It takes bytes from the memory.
    Loads,
    /// It writes bytes to the memory.
    Stores,
    /// It traps where its pointer is 0, and else gives the pointer.
    ChecksNil,
    /// It is shown with its arguments, and takes the next reply, its selects' words among it.
    Calls,
    /// It does nothing in its place: it names a memory or results, has its word since the block was entered, or since
    /// its call.
    Rests,
}

/// The role of an op.
pub fn role_of(op: Op) -> Role
    ensures { result ≡ spec.role op }
{
    facts_of(op).role
}
