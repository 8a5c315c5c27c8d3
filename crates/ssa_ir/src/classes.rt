// The classes of types: what checks ask, and by which a memory is known.

ghost use Rattle.std.specs.Prelude.{◌≡◌};
ghost use Rattle.ssa_ir.specs.Classes as spec;

use crate::func::Value;
use crate::op::Width;
use crate::types::{Scalar, Ty};

/// What an op tells types apart by: signed and unsigned words of one width are one class.
#[derive(Clone, Copy, Debug, PartialEq, Eq)]
pub enum Class {
    /// An integer of a width.
    Int(Width),
    Bool,
    Pointer,
    Memory,
    Tuple,
    /// Flags, or nothing: no text can give these to a value.
    Neither,
}

/// The class of a type of one word.
pub fn class_of_scalar(scalar: Scalar) -> Class
    ensures { result ≡ spec.class_of_scalar scalar }
{
    match scalar {
        Scalar::I8 | Scalar::U8 => Class::Int(Width::W8),
        Scalar::I16 | Scalar::U16 => Class::Int(Width::W16),
        Scalar::I32 | Scalar::U32 => Class::Int(Width::W32),
        Scalar::I64 | Scalar::U64 | Scalar::Uintptr => Class::Int(Width::W64),
        Scalar::Bool => Class::Bool,
        Scalar::Ptr => Class::Pointer,
    }
}

/// The class of a type.
pub fn class_of(ty: &Ty) -> Class
    ensures { result ≡ spec.class_of ty.now }
{
    match ty {
        Ty::One(scalar) => class_of_scalar(*scalar),
        Ty::Mem => Class::Memory,
        Ty::Tuple(_) => Class::Tuple,
        Ty::Flags | Ty::Void => Class::Neither,
    }
}

/// Whether values of a class are one word: an integer, a bool or a pointer.
pub fn is_scalar(class: Class) -> bool
    ensures { result ≡ spec.is_scalar class }
{
    match class {
        Class::Int(_) | Class::Bool | Class::Pointer => true,
        Class::Memory | Class::Tuple | Class::Neither => false,
    }
}

/// Whether two classes are one.
pub fn same_class(a: Class, b: Class) -> bool
    ensures { result ≡ spec.same_class a b }
{
    a == b
}

impl Value {
    /// Whether a value is a memory, by its type.
    pub fn is_memory(&self) -> bool
        ensures { result ≡ spec.is_memory self.now }
    {
        same_class(class_of(&self.ty), Class::Memory)
    }
}
