// What each op computes.

ghost use Rattle.std.specs.Prelude.{◌≡◌};
ghost use Rattle.gossa_base.specs.Words.{word_of};
ghost use Rattle.ssa_ir.specs.Evaluation as spec;

use crate::arithmetic::{difference, negative, product, sum};
use crate::bits::{and, chosen, inverted, or, sign_extended, xor};
use crate::comparisons::{
    difference_flags, is_at_most, is_below, is_below_or_same, is_equal, is_less, one_where,
    test_flags,
};
use crate::conditions::{condition_at, holds, selected};
use crate::division::{quotient, remainder, unsigned_quotient, unsigned_remainder};
use crate::shifts::{shift_left, shift_right, signed_shift_right};
use gossa_base::{low, sext};
use ssa_ir::{CondCode, Op};

// The word of a number, modulo 2 to the 64.
fn word(number: i64) -> u64
    ensures { result ≡ word_of number }
{
    number.cast_unsigned()
}

/// The word of a pure op, by the number in its brackets, its first, second and third operand and the flags; operands
/// that the op lacks play no part. A generic op reads each operand at the width of its class, whatever the upper bits,
/// and answers at its width; `Copy` and `CondSelect` answer the chosen word whole. An op of the machine answers all 64
/// bits. `CMP`, `CMPW`, `CMPconst`, `CMPWconst` and `TSTWconst` answer flags: N 8, Z 4, C 2, V 1. What reads flags has
/// them in `flags`, and not among its operands. A `CSEL` has its condition in `aux`, as its place in [`CondCode`] from
/// 0, and chooses 0 where that is none.
///
/// Loads, stores, nil checks, calls, phis, parameters and memories are not pure, and an address comes from the case:
/// the answer for these is 0.
pub fn eval(op: Op, aux: i64, a: u64, b: u64, c: u64, flags: u8) -> u64
    ensures { result ≡ spec.eval op aux a b c flags }
{
    let number = word(aux);
    match op {
        Op::Add(w) => sum(w.bits(), a, b),
        Op::Sub(w) => difference(w.bits(), a, b),
        Op::Mul(w) => product(w.bits(), a, b),
        Op::And(w) => and(w.bits(), a, b),
        Op::Or(w) => or(w.bits(), a, b),
        Op::Xor(w) => xor(w.bits(), a, b),
        Op::Neg(w) => negative(w.bits(), a),
        Op::Com(w) => inverted(w.bits(), a),
        Op::Div(w) => quotient(w.bits(), a, b),
        Op::DivU(w) => unsigned_quotient(w.bits(), a, b),
        Op::Mod(w) => remainder(w.bits(), a, b),
        Op::ModU(w) => unsigned_remainder(w.bits(), a, b),
        Op::Lsh(w) => shift_left(w.bits(), a, b),
        Op::Rsh(w) => signed_shift_right(w.bits(), a, b),
        Op::RshU(w) => shift_right(w.bits(), a, b),
        Op::Eq(w) => one_where(is_equal(w.bits(), a, b)),
        Op::Neq(w) => one_where(!is_equal(w.bits(), a, b)),
        Op::Less(w) => one_where(is_less(w.bits(), a, b)),
        Op::Leq(w) => one_where(is_at_most(w.bits(), a, b)),
        Op::LessU(w) => one_where(is_below(w.bits(), a, b)),
        Op::LeqU(w) => one_where(is_below_or_same(w.bits(), a, b)),
        Op::EqB => xor(8, xor(8, a, b), 1),
        Op::NeqB => xor(8, a, b),
        Op::AndB => and(8, a, b),
        Op::OrB => or(8, a, b),
        Op::Not => xor(8, a, 1),
        Op::EqPtr => one_where(is_equal(64, a, b)),
        Op::NeqPtr => one_where(!is_equal(64, a, b)),
        Op::IsNonNil => one_where(!is_equal(64, a, 0)),
        Op::IsInBounds => one_where(is_below(64, a, b)),
        Op::IsSliceInBounds => one_where(is_below_or_same(64, a, b)),
        Op::SignExt(p) => sign_extended(p.narrow().bits(), p.wide().bits(), a),
        Op::ZeroExt(p) | Op::Trunc(p) => low(p.narrow().bits(), a),
        Op::AddPtr => sum(64, a, b),
        Op::OffPtr => sum(64, a, number),
        Op::CondSelect => chosen(a, b, c),
        Op::Const(w) => low(w.bits(), number),
        Op::ConstBool => one_where(number != 0),
        Op::ConstNil | Op::SB => 0,
        Op::Copy => a,
        Op::Arm64MOVDconst => number,
        Op::Arm64ADD => sum(64, a, b),
        Op::Arm64SUB => difference(64, a, b),
        Op::Arm64AND => and(64, a, b),
        Op::Arm64OR => or(64, a, b),
        Op::Arm64XOR => xor(64, a, b),
        Op::Arm64MUL => product(64, a, b),
        Op::Arm64MULW => product(32, a, b),
        Op::Arm64ADDconst => sum(64, a, number),
        Op::Arm64SUBconst => difference(64, a, number),
        Op::Arm64ANDconst => and(64, a, number),
        Op::Arm64ORconst => or(64, a, number),
        Op::Arm64XORconst => xor(64, a, number),
        Op::Arm64NEG => negative(64, a),
        Op::Arm64MVN => inverted(64, a),
        Op::Arm64DIV => quotient(64, a, b),
        Op::Arm64DIVW => quotient(32, a, b),
        Op::Arm64UDIV => unsigned_quotient(64, a, b),
        Op::Arm64UDIVW => unsigned_quotient(32, a, b),
        Op::Arm64MOD => remainder(64, a, b),
        Op::Arm64MODW => remainder(32, a, b),
        Op::Arm64UMOD => unsigned_remainder(64, a, b),
        Op::Arm64UMODW => unsigned_remainder(32, a, b),
        Op::Arm64SLL => shift_left(64, a, b % 64),
        Op::Arm64SRL => shift_right(64, a, b % 64),
        Op::Arm64SRA => signed_shift_right(64, a, b % 64),
        Op::Arm64SLLconst => shift_left(64, a, number),
        Op::Arm64SRLconst => shift_right(64, a, number),
        Op::Arm64SRAconst => signed_shift_right(64, a, number),
        Op::Arm64MOVBreg => sext(8, a),
        Op::Arm64MOVHreg => sext(16, a),
        Op::Arm64MOVWreg => sext(32, a),
        Op::Arm64MOVBUreg => low(8, a),
        Op::Arm64MOVHUreg => low(16, a),
        Op::Arm64MOVWUreg => low(32, a),
        Op::Arm64CMP => difference_flags(64, a, b),
        Op::Arm64CMPW => difference_flags(32, a, b),
        Op::Arm64CMPconst => difference_flags(64, a, number),
        Op::Arm64CMPWconst => difference_flags(32, a, number),
        Op::Arm64TSTWconst => test_flags(32, a, number),
        Op::Arm64Equal => one_where(holds(CondCode::EQ, flags)),
        Op::Arm64NotEqual => one_where(holds(CondCode::NE, flags)),
        Op::Arm64LessThan => one_where(holds(CondCode::LT, flags)),
        Op::Arm64LessEqual => one_where(holds(CondCode::LE, flags)),
        Op::Arm64GreaterThan => one_where(holds(CondCode::GT, flags)),
        Op::Arm64GreaterEqual => one_where(holds(CondCode::GE, flags)),
        Op::Arm64LessThanU => one_where(holds(CondCode::LO, flags)),
        Op::Arm64LessEqualU => one_where(holds(CondCode::LS, flags)),
        Op::Arm64GreaterThanU => one_where(holds(CondCode::HI, flags)),
        Op::Arm64GreaterEqualU => one_where(holds(CondCode::HS, flags)),
        Op::Arm64CSEL => selected(condition_at(aux), a, b, flags),
        Op::Load
        | Op::Store
        | Op::NilCheck
        | Op::Addr
        | Op::Phi
        | Op::Arg
        | Op::InitMem
        | Op::StaticLECall
        | Op::SelectN
        | Op::MakeResult
        | Op::Arm64MOVDaddr
        | Op::Arm64MOVBload
        | Op::Arm64MOVHload
        | Op::Arm64MOVWload
        | Op::Arm64MOVBUload
        | Op::Arm64MOVHUload
        | Op::Arm64MOVWUload
        | Op::Arm64MOVDload
        | Op::Arm64MOVBstore
        | Op::Arm64MOVHstore
        | Op::Arm64MOVWstore
        | Op::Arm64MOVDstore
        | Op::Arm64LoweredNilCheck
        | Op::Arm64CALLstatic => 0,
    }
}
