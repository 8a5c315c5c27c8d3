// Sums and products, modulo 2 to the width, and the signed value of a word at a width.

ghost use Rattle.std.specs.Prelude.{◌≡◌, ◌≤◌};
ghost use Rattle.gossa_base.specs.Words.{signed_at};
ghost use Rattle.ssa_ir.specs.Arithmetic as spec;

use gossa_base::{low, sext};

// The low k bits, 1 to 64, as a signed number.
pub(crate) fn signed(k: u32, a: u64) -> i64
    requires at_least_one { 1 ≤ k }
    requires at_most_all { k ≤ 64 }
    ensures { result ≡ signed_at k a }
{
    sext(k, a).cast_signed()
}

pub(crate) fn sum(k: u32, a: u64, b: u64) -> u64
    requires at_least_one { 1 ≤ k }
    requires at_most_all { k ≤ 64 }
    ensures { result ≡ spec.sum_at k a b }
{
    low(k, a.wrapping_add(b))
}

pub(crate) fn difference(k: u32, a: u64, b: u64) -> u64
    requires at_least_one { 1 ≤ k }
    requires at_most_all { k ≤ 64 }
    ensures { result ≡ spec.difference_at k a b }
{
    low(k, a.wrapping_sub(b))
}

pub(crate) fn product(k: u32, a: u64, b: u64) -> u64
    requires at_least_one { 1 ≤ k }
    requires at_most_all { k ≤ 64 }
    ensures { result ≡ spec.product_at k a b }
{
    low(k, a.wrapping_mul(b))
}

pub(crate) fn negative(k: u32, a: u64) -> u64
    requires at_least_one { 1 ≤ k }
    requires at_most_all { k ≤ 64 }
    ensures { result ≡ spec.negative_at k a }
{
    low(k, 0u64.wrapping_sub(a))
}
