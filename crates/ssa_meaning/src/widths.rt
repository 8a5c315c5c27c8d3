// Words kept at the widths of their types.

ghost use Rattle.std.specs.Prelude.{◌≡◌, false};
ghost use Rattle.gossa_base.specs.Words as words;
ghost use Rattle.ssa_ir.specs.Access as access;
ghost use Rattle.ssa_ir.specs.Widths as spec;

use gossa_base::low;
use ssa_ir::{Scalar, Ty};

/// A word at the width of a scalar.
pub(crate) fn at_width(scalar: Scalar, word: u64) -> u64
    ensures { result ≡ words.low (spec.scalar_bits scalar) word }
{
    low(scalar.bits(), word)
}

/// A word that comes from outside, kept at the width of its type; what is no word keeps 0.
pub(crate) fn kept(ty: &Ty, word: u64) -> u64
    ensures { result ≡ spec.kept false ty.now word }
{
    match ty {
        Ty::One(scalar) => at_width(*scalar, word),
        Ty::Mem | Ty::Tuple(_) | Ty::Flags | Ty::Void => 0,
    }
}

/// How many bytes the type has that a store writes.
pub(crate) fn element_bytes(elem: Option<Scalar>) -> u32
    ensures { result ≡ access.element_bytes elem }
{
    match elem {
        Some(scalar) => scalar.bytes(),
        None => 0,
    }
}
