// One checksum of each op over corner values. They are worked out by tools/op_checksums, which has the meanings of the
// ops once more, in another language.

use arm64_ops::eval;
use ssa_ir::Op;
use std::process::Abort;

pub(crate) const CORNERS: [u64; 16] = [
    0,
    1,
    63,
    64,
    0x7f,
    0x80,
    0xff,
    0x8000,
    0xffff,
    0x7fff_ffff,
    0x8000_0000,
    0xffff_ffff,
    0x1234_5678_8000_0003,
    0x7fff_ffff_ffff_ffff,
    0x8000_0000_0000_0000,
    0xffff_ffff_ffff_ffff,
];

const ZERO: [u64; 1] = [0];

pub(crate) const SHIFTS: [u64; 6] = [0, 1, 31, 32, 62, 63];

pub(crate) const PLACES: [u64; 10] = [0, 1, 2, 3, 4, 5, 6, 7, 8, 9];

pub(crate) const FLAGS: [u8; 16] = [0, 1, 2, 3, 4, 5, 6, 7, 8, 9, 10, 11, 12, 13, 14, 15];

const NO_FLAGS: [u8; 1] = [0];

// What an op is tried on: its numbers, its operands and the flags. The answers are taken in order, the last list the
// fastest.
#[derive(Clone, Copy)]
pub(crate) struct Over<'a> {
    pub numbers: &'a [u64],
    pub firsts: &'a [u64],
    pub seconds: &'a [u64],
    pub thirds: &'a [u64],
    pub flags: &'a [u8],
}

// Nothing but zeros.
pub(crate) fn zeros() -> Over<'static> {
    Over {
        numbers: &ZERO,
        firsts: &ZERO,
        seconds: &ZERO,
        thirds: &ZERO,
        flags: &NO_FLAGS,
    }
}

pub(crate) fn two_words() -> Over<'static> {
    Over {
        firsts: &CORNERS,
        seconds: &CORNERS,
        ..zeros()
    }
}

pub(crate) fn one_word() -> Over<'static> {
    Over {
        firsts: &CORNERS,
        ..zeros()
    }
}

// Each op has its checksum over these.
pub(crate) fn check_ops(rt: &impl Abort, over: Over<'_>, rows: &[(Op, u64)]) {
    for (op, want) in rows {
        assert!(rt; checksum(*op, over) == *want, "for {}", op.name());
    }
}

fn checksum(op: Op, over: Over<'_>) -> u64 {
    let mut sum = 0;
    for number in over.numbers {
        sum = over_firsts(sum, op, number.cast_signed(), over);
    }
    sum
}

fn over_firsts(before: u64, op: Op, aux: i64, over: Over<'_>) -> u64 {
    let mut sum = before;
    for a in over.firsts {
        sum = over_seconds(sum, op, aux, *a, over);
    }
    sum
}

fn over_seconds(before: u64, op: Op, aux: i64, a: u64, over: Over<'_>) -> u64 {
    let mut sum = before;
    for b in over.seconds {
        sum = over_thirds(sum, op, aux, a, *b, over);
    }
    sum
}

fn over_thirds(before: u64, op: Op, aux: i64, a: u64, b: u64, over: Over<'_>) -> u64 {
    let mut sum = before;
    for c in over.thirds {
        sum = over_flags(sum, op, aux, a, b, *c, over.flags);
    }
    sum
}

fn over_flags(before: u64, op: Op, aux: i64, a: u64, b: u64, c: u64, flags: &[u8]) -> u64 {
    let mut sum = before;
    for f in flags {
        sum = sum
            .wrapping_mul(1_099_511_628_211)
            .wrapping_add(eval(op, aux, a, b, c, *f));
    }
    sum
}
