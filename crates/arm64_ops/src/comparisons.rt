// Comparisons of two words at a width, and their flags.

ghost use Rattle.std.specs.Prelude.{◌≡◌, ◌≤◌};
ghost use Rattle.ssa_ir.specs.Arithmetic as spec;
ghost use Rattle.ssa_ir.specs.Conditions.{packed, flags_of_difference, flags_of_test};

use crate::arithmetic::{difference, signed};
use crate::bits::and;
use gossa_base::low;

pub(crate) fn is_equal(k: u32, a: u64, b: u64) -> bool
    requires at_least_one { 1 ≤ k }
    requires at_most_all { k ≤ 64 }
    ensures { result ≡ spec.is_equal k a b }
{
    low(k, a) == low(k, b)
}

pub(crate) fn is_less(k: u32, a: u64, b: u64) -> bool
    requires at_least_one { 1 ≤ k }
    requires at_most_all { k ≤ 64 }
    ensures { result ≡ spec.is_less k a b }
{
    signed(k, a) < signed(k, b)
}

pub(crate) fn is_at_most(k: u32, a: u64, b: u64) -> bool
    requires at_least_one { 1 ≤ k }
    requires at_most_all { k ≤ 64 }
    ensures { result ≡ spec.is_at_most k a b }
{
    signed(k, a) <= signed(k, b)
}

pub(crate) fn is_below(k: u32, a: u64, b: u64) -> bool
    requires at_least_one { 1 ≤ k }
    requires at_most_all { k ≤ 64 }
    ensures { result ≡ spec.is_below k a b }
{
    low(k, a) < low(k, b)
}

pub(crate) fn is_below_or_same(k: u32, a: u64, b: u64) -> bool
    requires at_least_one { 1 ≤ k }
    requires at_most_all { k ≤ 64 }
    ensures { result ≡ spec.is_below_or_same k a b }
{
    low(k, a) <= low(k, b)
}

pub(crate) fn one_where(test: bool) -> u64
    ensures { result ≡ spec.one_where test }
{
    u64::from(test)
}

// The flags of a - b: N 8, Z 4, C 2, V 1.
pub(crate) fn difference_flags(k: u32, a: u64, b: u64) -> u64
    requires at_least_one { 1 ≤ k }
    requires at_most_all { k ≤ 64 }
    ensures { result ≡ packed (flags_of_difference k a b) }
{
    let result = difference(k, a, b);
    let n = signed(k, result) < 0;
    let overflows = is_less(k, a, b) != n;
    8 * one_where(n)
        + 4 * one_where(result == 0)
        + 2 * one_where(low(k, b) <= low(k, a))
        + one_where(overflows)
}

// The flags of the bits that both have: C and V are clear.
pub(crate) fn test_flags(k: u32, a: u64, b: u64) -> u64
    requires at_least_one { 1 ≤ k }
    requires at_most_all { k ≤ 64 }
    ensures { result ≡ packed (flags_of_test k a b) }
{
    let both = and(k, a, b);
    8 * one_where(signed(k, both) < 0) + 4 * one_where(both == 0)
}
