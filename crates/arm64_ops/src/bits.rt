// Bit by bit.

ghost use Rattle.std.specs.Prelude.{◌≡◌, ◌≤◌};
ghost use Rattle.ssa_ir.specs.Arithmetic as spec;

use gossa_base::{low, sext};

pub(crate) fn and(k: u32, a: u64, b: u64) -> u64
    requires at_least_one { 1 ≤ k }
    requires at_most_all { k ≤ 64 }
    ensures { result ≡ spec.and_at k a b }
{
    low(k, a) & low(k, b)
}

pub(crate) fn or(k: u32, a: u64, b: u64) -> u64
    requires at_least_one { 1 ≤ k }
    requires at_most_all { k ≤ 64 }
    ensures { result ≡ spec.or_at k a b }
{
    low(k, a) | low(k, b)
}

pub(crate) fn xor(k: u32, a: u64, b: u64) -> u64
    requires at_least_one { 1 ≤ k }
    requires at_most_all { k ≤ 64 }
    ensures { result ≡ spec.xor_at k a b }
{
    low(k, a) ^ low(k, b)
}

// All bits inverted.
pub(crate) fn inverted(k: u32, a: u64) -> u64
    requires at_least_one { 1 ≤ k }
    requires at_most_all { k ≤ 64 }
    ensures { result ≡ spec.inverted_at k a }
{
    (u64::MAX >> (64 - k)) - low(k, a)
}

// The signed value of k bits, at a width of n.
pub(crate) fn sign_extended(k: u32, n: u32, a: u64) -> u64
    requires at_least_one { 1 ≤ k }
    requires at_most_all { k ≤ 64 }
    requires wide_at_least_one { 1 ≤ n }
    requires wide_at_most_all { n ≤ 64 }
    ensures { result ≡ spec.sign_extended k n a }
{
    low(n, sext(k, a))
}

// The word that bit 0 of a bool chooses, whole.
pub(crate) fn chosen(a: u64, b: u64, bool: u64) -> u64
    ensures { result ≡ spec.chosen a b bool }
{
    if bool % 2 == 1 { a } else { b }
}
