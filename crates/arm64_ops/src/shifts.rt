// Shifts by a count that is a whole word: by 64 or more all bits are shifted out.

ghost use Rattle.std.specs.Prelude.{◌≡◌, ◌≤◌};
ghost use Rattle.ssa_ir.specs.Arithmetic as spec;

use crate::arithmetic::signed;
use gossa_base::low;

pub(crate) fn shift_left(k: u32, a: u64, count: u64) -> u64
    requires at_least_one { 1 ≤ k }
    requires at_most_all { k ≤ 64 }
    ensures { result ≡ spec.shift_left_at k a count }
{
    if count < 64 { low(k, a << count) } else { 0 }
}

// Zeros come in.
pub(crate) fn shift_right(k: u32, a: u64, count: u64) -> u64
    requires at_least_one { 1 ≤ k }
    requires at_most_all { k ≤ 64 }
    ensures { result ≡ spec.shift_right_at k a count }
{
    if count < 64 { low(k, a) >> count } else { 0 }
}

// Copies of the sign come in: a shift by 63 leaves nothing else of a word.
pub(crate) fn signed_shift_right(k: u32, a: u64, count: u64) -> u64
    requires at_least_one { 1 ≤ k }
    requires at_most_all { k ≤ 64 }
    ensures { result ≡ spec.signed_shift_right_at k a count }
{
    low(k, (signed(k, a) >> count.min(63)).cast_unsigned())
}
