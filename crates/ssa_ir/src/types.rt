// The types of values, and the signatures of functions.

use gossa_base::{Name, Sequence};

/// A type of one word.
#[derive(Clone, Copy, Debug, PartialEq, Eq)]
pub enum Scalar {
    I8,
    I16,
    I32,
    I64,
    U8,
    U16,
    U32,
    U64,
    Uintptr,
    /// A byte of which bit 0 decides.
    Bool,
    /// Any pointer.
    Ptr,
}

/// A list of types of one word.
pub type Scalars = Sequence<Scalar>;

/// The type of a value.
#[derive(Clone, Drop)]
pub enum Ty {
    /// One word.
    One(Scalar),
    /// The state of memory.
    Mem,
    /// These words, and then a memory: what a call or a MakeResult makes.
    Tuple(Scalars),
    /// The flags of a comparison.
    Flags,
    /// Nothing, as of a lowered nil check.
    Void,
}

/// A function's name, and the types of its parameters and results.
#[derive(Clone, Drop)]
pub struct Sig {
    pub name: Name,
    pub params: Scalars,
    pub results: Scalars,
}

/// A list of signatures.
pub type Sigs = Sequence<Sig>;
