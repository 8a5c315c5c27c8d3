// The conditions on the flags N, Z, C and V.

ghost use Rattle.std.specs.Prelude.{◌≡◌, ◌<◌};
ghost use Rattle.ssa_ir.specs.Conditions as spec;

use ssa_ir::CondCode;

// Whether the flags have a bit: N is bit 3, Z bit 2, C bit 1, V bit 0.
fn is_set(flags: u8, i: u32) -> bool
    requires one_of_eight { i < 8 }
    ensures { result ≡ spec.has_bit i flags }
{
    flags >> i & 1 == 1
}

/// Whether a condition holds of flags, by the table of conditions in the A64 manual. The flags are the low four bits: N
/// 8, Z 4, C 2, V 1. Upper bits play no part.
///
/// | Condition | holds where |
/// | --- | --- |
/// | EQ, NE | Z; not Z |
/// | LT, GE | N differs from V; it doesn't |
/// | LE, GT | Z or LT; neither |
/// | LO, HS | not C; C |
/// | LS, HI | Z or not C; neither |
pub fn holds(c: CondCode, flags: u8) -> bool
    ensures { result ≡ spec.holds c flags }
{
    let n = is_set(flags, 3);
    let z = is_set(flags, 2);
    let c_flag = is_set(flags, 1);
    let v = is_set(flags, 0);
    match c {
        CondCode::EQ => z,
        CondCode::NE => !z,
        CondCode::LT => n != v,
        CondCode::GE => n == v,
        CondCode::LE => z || n != v,
        CondCode::GT => !z && n == v,
        CondCode::LO => !c_flag,
        CondCode::HS => c_flag,
        CondCode::LS => z || !c_flag,
        CondCode::HI => !z && c_flag,
    }
}

/// The condition that holds exactly where this one doesn't.
pub fn inverse(c: CondCode) -> CondCode
    ensures { result ≡ spec.inverse c }
{
    match c {
        CondCode::EQ => CondCode::NE,
        CondCode::NE => CondCode::EQ,
        CondCode::LT => CondCode::GE,
        CondCode::GE => CondCode::LT,
        CondCode::LE => CondCode::GT,
        CondCode::GT => CondCode::LE,
        CondCode::LO => CondCode::HS,
        CondCode::HS => CondCode::LO,
        CondCode::LS => CondCode::HI,
        CondCode::HI => CondCode::LS,
    }
}

// The condition of a number, its place from 0.
pub(crate) fn condition_at(place: i64) -> Option<CondCode>
    ensures { result ≡ spec.condition_at place }
{
    match place {
        0 => Some(CondCode::EQ),
        1 => Some(CondCode::NE),
        2 => Some(CondCode::LT),
        3 => Some(CondCode::LE),
        4 => Some(CondCode::GT),
        5 => Some(CondCode::GE),
        6 => Some(CondCode::LO),
        7 => Some(CondCode::LS),
        8 => Some(CondCode::HI),
        9 => Some(CondCode::HS),
        _ => None,
    }
}

// Of two words the first where the condition holds, whole.
pub(crate) fn selected(c: Option<CondCode>, a: u64, b: u64, flags: u8) -> u64
    ensures { result ≡ spec.selected c a b flags }
{
    match c {
        Some(c) => { if holds(c, flags) { a } else { b } }
        None => 0,
    }
}
