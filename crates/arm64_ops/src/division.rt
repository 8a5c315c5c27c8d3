// Quotients toward 0, and their remainders.

ghost use Rattle.std.specs.Prelude.{◌≡◌, ◌≤◌};
ghost use Rattle.ssa_ir.specs.Arithmetic as spec;

use crate::arithmetic::signed;
use gossa_base::low;

// By 0 it is 0.
pub(crate) fn quotient(k: u32, a: u64, b: u64) -> u64
    requires at_least_one { 1 ≤ k }
    requires at_most_all { k ≤ 64 }
    ensures { result ≡ spec.quotient_at k a b }
{
    if low(k, b) == 0 {
        return 0;
    }
    low(k, signed(k, a).wrapping_div(signed(k, b)).cast_unsigned())
}

// By 0 it is 0.
pub(crate) fn unsigned_quotient(k: u32, a: u64, b: u64) -> u64
    requires at_least_one { 1 ≤ k }
    requires at_most_all { k ≤ 64 }
    ensures { result ≡ spec.unsigned_quotient_at k a b }
{
    let by = low(k, b);
    if by == 0 { 0 } else { low(k, a) / by }
}

// By 0 it is the dividend.
pub(crate) fn remainder(k: u32, a: u64, b: u64) -> u64
    requires at_least_one { 1 ≤ k }
    requires at_most_all { k ≤ 64 }
    ensures { result ≡ spec.remainder_at k a b }
{
    if low(k, b) == 0 {
        return low(k, a);
    }
    low(k, signed(k, a).wrapping_rem(signed(k, b)).cast_unsigned())
}

// By 0 it is the dividend.
pub(crate) fn unsigned_remainder(k: u32, a: u64, b: u64) -> u64
    requires at_least_one { 1 ≤ k }
    requires at_most_all { k ≤ 64 }
    ensures { result ≡ spec.unsigned_remainder_at k a b }
{
    let value = low(k, a);
    let by = low(k, b);
    if by == 0 { value } else { value % by }
}
