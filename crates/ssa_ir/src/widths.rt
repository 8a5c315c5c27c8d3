// The widths of ops and of types, in bits and in bytes.

ghost use Rattle.std.specs.Prelude.{◌≡◌, ◌≤◌};
ghost use Rattle.ssa_ir.specs.Widths as spec;

use crate::op::{Width, WidthPair};
use crate::types::{Scalar, Ty};

impl Width {
    /// How many bits.
    pub fn bits(self) -> u32
        ensures exact { result ≡ spec.bits self }
        ensures some { 8 ≤ result }
        ensures most { result ≤ 64 }
    {
        match self {
            Width::W8 => 8,
            Width::W16 => 16,
            Width::W32 => 32,
            Width::W64 => 64,
        }
    }

    /// How many bytes.
    pub fn bytes(self) -> u32
        ensures exact { result ≡ spec.bytes self }
        ensures some { 1 ≤ result }
        ensures few { result ≤ 8 }
    {
        self.bits() / 8
    }
}

impl WidthPair {
    /// The smaller one.
    pub fn narrow(self) -> Width
        ensures { result ≡ spec.narrow_of self }
    {
        match self {
            WidthPair::W8W16 | WidthPair::W8W32 | WidthPair::W8W64 => Width::W8,
            WidthPair::W16W32 | WidthPair::W16W64 => Width::W16,
            WidthPair::W32W64 => Width::W32,
        }
    }

    /// The greater one.
    pub fn wide(self) -> Width
        ensures { result ≡ spec.wide_of self }
    {
        match self {
            WidthPair::W8W16 => Width::W16,
            WidthPair::W8W32 | WidthPair::W16W32 => Width::W32,
            WidthPair::W8W64 | WidthPair::W16W64 | WidthPair::W32W64 => Width::W64,
        }
    }
}

impl Scalar {
    /// How many bits: a bool is a byte, and a pointer a word.
    pub fn bits(self) -> u32
        ensures exact { result ≡ spec.scalar_bits self }
        ensures some { 8 ≤ result }
        ensures most { result ≤ 64 }
    {
        match self {
            Scalar::I8 | Scalar::U8 | Scalar::Bool => 8,
            Scalar::I16 | Scalar::U16 => 16,
            Scalar::I32 | Scalar::U32 => 32,
            Scalar::I64 | Scalar::U64 | Scalar::Uintptr | Scalar::Ptr => 64,
        }
    }

    /// How many bytes in memory.
    pub fn bytes(self) -> u32
        ensures exact { result ≡ spec.scalar_bytes self }
        ensures some { 1 ≤ result }
        ensures few { result ≤ 8 }
    {
        self.bits() / 8
    }
}

impl Ty {
    /// How many bytes a value of one word has in memory; the others have none.
    pub fn bytes(&self) -> u32
        ensures exact { result ≡ spec.type_bytes self.now }
        ensures few { result ≤ 8 }
    {
        match self {
            Ty::One(scalar) => scalar.bytes(),
            Ty::Mem | Ty::Tuple(_) | Ty::Flags | Ty::Void => 0,
        }
    }
}
