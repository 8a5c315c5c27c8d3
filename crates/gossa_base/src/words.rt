// The low bits of words.

ghost use Rattle.std.specs.Prelude.{◌≡◌, ◌≤◌};
ghost use Rattle.gossa_base.specs.Words as spec;

/// The word modulo 2 to the k: its low k bits, 1 to 64.
pub fn low(k: u32, w: u64) -> u64
    requires at_least_one { 1 ≤ k }
    requires at_most_all { k ≤ 64 }
    ensures { result ≡ spec.low k w }
{
    w & u64::MAX >> (64 - k)
}

/// The word whose low k bits, 1 to 64, are those of `w`, and whose other bits are copies of bit k - 1.
pub fn sext(k: u32, w: u64) -> u64
    requires at_least_one { 1 ≤ k }
    requires at_most_all { k ≤ 64 }
    ensures { result ≡ spec.sext k w }
{
    let value = low(k, w);
    if k == 64 || value < 1 << (k - 1) {
        return value;
    }
    value.wrapping_sub(1 << k)
}
