// The checks, the places of a function, and why a unit is refused.

ghost use Rattle.std.specs.Prelude.{◌≡◌};
ghost use Rattle.ssa_check.specs.CheckNames.{name_of};
ghost use Rattle.ssa_check.specs.Failing.{number_of};

use gossa_base::{BlockId, ValueId};

/// What every function of a unit must meet, in the order in which it is asked.
#[derive(Clone, Copy, Debug, PartialEq, Eq)]
pub enum Check {
    /// There is a block, and the first has no predecessors.
    Entry,
    /// Each edge stands as often with its target as with its source.
    Edges,
    /// A Phi has one argument for each predecessor, and none stands in the entry.
    PhiArity,
    /// Each other op has its number of arguments.
    Arity,
    /// Arguments and results have the classes of their op.
    Types,
    /// There is one InitMem, and each Arg has the number and the class of a parameter, which no other Arg has; all
    /// stand in the entry.
    ArgOrInit,
    /// Calls and their selects are those of the callee's signature.
    Callee,
    /// The memory of each block is one chain, which goes on with the memory that all paths to it pass.
    Memory,
    /// No values of a block but phis wait for each other.
    Cycle,
    /// On each path to a use the definition was passed.
    Undefined,
    /// Each block ends by what its kind takes.
    Control,
}

impl Check {
    /// The number of this check: those of lower numbers are asked before it.
    pub fn number(self) -> u32
        ensures { result ≡ number_of self }
    {
        match self {
            Check::Entry => 1,
            Check::Edges => 2,
            Check::PhiArity => 3,
            Check::Arity => 4,
            Check::Types => 5,
            Check::ArgOrInit => 6,
            Check::Callee => 7,
            Check::Memory => 8,
            Check::Cycle => 9,
            Check::Undefined => 10,
            Check::Control => 11,
        }
    }

    /// The name of this check, in ASCII letters.
    pub fn name(self) -> &'static [u8]
        ensures { result.now ≡ name_of self }
    {
        match self {
            Check::Entry => b"Entry",
            Check::Edges => b"Edges",
            Check::PhiArity => b"PhiArity",
            Check::Arity => b"Arity",
            Check::Types => b"Types",
            Check::ArgOrInit => b"ArgOrInit",
            Check::Callee => b"Callee",
            Check::Memory => b"Memory",
            Check::Cycle => b"Cycle",
            Check::Undefined => b"Undefined",
            Check::Control => b"Control",
        }
    }
}

/// A place in a function: the function itself, a value, or a block. Places are ordered so: the function, then its
/// values by number, then its blocks by number.
#[derive(Clone, Copy, Debug, PartialEq, Eq)]
pub enum At {
    Func,
    Value(ValueId),
    Block(BlockId),
}

/// The first fault of a unit: the first function that has one, by its number from 0, its first check that fails, and
/// the least place at which it does.
#[derive(Clone, Copy, Debug, PartialEq, Eq)]
pub struct Fault {
    pub func: u32,
    pub check: Check,
    pub at: At,
}

/// Why a unit isn't accepted.
#[derive(Clone, Copy, Debug, PartialEq, Eq)]
pub enum CheckRefusal {
    /// This is its first fault.
    Failed(Fault),
    /// There was no memory for the checks.
    NoMemory,
}
