// What the ops of the machine and those of one word compute: worked rows, and a checksum of each (`checksums.rt`).

use crate::checksums::{CORNERS, FLAGS, Over, SHIFTS, check_ops, one_word, two_words, zeros};
use arm64_ops::{eval, holds, inverse};
use ssa_ir::{CondCode, Op, Width, WidthPair};

const LEAST: u64 = 0x8000_0000_0000_0000;

const ONES: u64 = 0xffff_ffff_ffff_ffff;

// An op, its number, two words, and the answer.
const WORKED_ROWS: [(Op, i64, u64, u64, u64); 12] = [
    (Op::Div(Width::W8), 0, 0x80, 0xff, 0x80),
    (Op::Mod(Width::W8), 0, 0x80, 0xff, 0),
    (Op::Mod(Width::W64), 0, 5, 0, 5),
    (Op::Div(Width::W64), 0, 5, 0, 0),
    (Op::Rsh(Width::W64), 0, LEAST, 63, ONES),
    (Op::Rsh(Width::W64), 0, LEAST, 64, ONES),
    (Op::Rsh(Width::W64), 0, LEAST, LEAST, ONES),
    (Op::Lsh(Width::W64), 0, 1, 64, 0),
    (Op::Arm64SLL, 0, 1, 64, 1),
    (Op::Arm64CMPconst, 64, 63, 0, 8),
    (Op::Arm64CMPconst, 64, 64, 0, 6),
    (Op::Arm64CMPconst, 64, LEAST, 0, 3),
];

#[test]
fn evaluates_worked_rows(rt: HostRuntime) {
    for (op, aux, a, b, want) in WORKED_ROWS.iter() {
        assert!(rt; eval(*op, *aux, *a, *b, 0, 0) == *want, "for {aux} {a} {b}");
    }
}

const CONDITIONS: [CondCode; 10] = [
    CondCode::EQ,
    CondCode::NE,
    CondCode::LT,
    CondCode::LE,
    CondCode::GT,
    CondCode::GE,
    CondCode::LO,
    CondCode::LS,
    CondCode::HI,
    CondCode::HS,
];

#[test]
fn conditions_hold_or_their_inverses(rt: HostRuntime) {
    for condition in CONDITIONS.iter() {
        assert!(rt; holds(*condition, 0) != holds(inverse(*condition), 0));
        assert!(rt; holds(*condition, 9) != holds(inverse(*condition), 9));
        assert!(rt; holds(*condition, 0xf6) == holds(*condition, 6));
    }
}

const OF_TWO: [(Op, u64); 20] = [
    (Op::Arm64ADD, 0xc82e1b6dbb9c2a20),
    (Op::Arm64SUB, 0x596f33211b985ce0),
    (Op::Arm64AND, 0x010aeb9292f4ac6e),
    (Op::Arm64OR, 0xc7232fdb28a77db2),
    (Op::Arm64XOR, 0xc618444895b2d144),
    (Op::Arm64MUL, 0x0a142c86eafd69d8),
    (Op::Arm64MULW, 0x96bec6daeafd69d8),
    (Op::Arm64DIV, 0x319c01d85a9f7b22),
    (Op::Arm64UDIV, 0x041d38396676793f),
    (Op::Arm64MOD, 0x7454ee6e00ed7f55),
    (Op::Arm64UMOD, 0xd423bda484dad62d),
    (Op::Arm64CMP, 0x781f5e59b3b684fc),
    (Op::Arm64DIVW, 0xc06feeb29429d241),
    (Op::Arm64UDIVW, 0xcc3fda13279a40db),
    (Op::Arm64MODW, 0xe2dc5e5d76a00d89),
    (Op::Arm64UMODW, 0x2b8e20a541e97bbf),
    (Op::Arm64CMPW, 0xb234460222d29d71),
    (Op::Arm64SLL, 0x70343955c31299a8),
    (Op::Arm64SRL, 0xa16307d8066ae559),
    (Op::Arm64SRA, 0xac6f9c526adff699),
];

#[test]
fn machine_ops_of_two(rt: HostRuntime) {
    check_ops(&rt, two_words(), &OF_TWO);
}

const OF_ONE_WORD: [(Op, u64); 37] = [
    (Op::Neg(Width::W8), 0x2c71f372ee6a0756),
    (Op::Com(Width::W8), 0xbfc8cac0d7c52036),
    (Op::Neg(Width::W16), 0x2987f3109d6ba856),
    (Op::Com(Width::W16), 0x4c5116ac79e54f36),
    (Op::Neg(Width::W32), 0x02847c3d1290a856),
    (Op::Com(Width::W32), 0x36ac70c106b94f36),
    (Op::Neg(Width::W64), 0x295db20d1290a856),
    (Op::Com(Width::W64), 0x2dcf28a306b94f36),
    (Op::SignExt(WidthPair::W8W16), 0x44f09d1c5b967baa),
    (Op::ZeroExt(WidthPair::W8W16), 0xd33215e0f3bca6aa),
    (Op::Trunc(WidthPair::W8W16), 0xd33215e0f3bca6aa),
    (Op::SignExt(WidthPair::W8W32), 0x8ab3405e0a6b7baa),
    (Op::ZeroExt(WidthPair::W8W32), 0xd33215e0f3bca6aa),
    (Op::Trunc(WidthPair::W8W32), 0xd33215e0f3bca6aa),
    (Op::SignExt(WidthPair::W8W64), 0xdcc9ef330a6b7baa),
    (Op::ZeroExt(WidthPair::W8W64), 0xd33215e0f3bca6aa),
    (Op::Trunc(WidthPair::W8W64), 0xd33215e0f3bca6aa),
    (Op::SignExt(WidthPair::W16W32), 0x29a94dc3507357aa),
    (Op::ZeroExt(WidthPair::W16W32), 0x418a6bc0d36357aa),
    (Op::Trunc(WidthPair::W16W32), 0x418a6bc0d36357aa),
    (Op::SignExt(WidthPair::W16W64), 0x88bbcad3507357aa),
    (Op::ZeroExt(WidthPair::W16W64), 0x418a6bc0d36357aa),
    (Op::Trunc(WidthPair::W16W64), 0x418a6bc0d36357aa),
    (Op::SignExt(WidthPair::W32W64), 0x012c562bed6f57aa),
    (Op::ZeroExt(WidthPair::W32W64), 0xd99c5ef4ed6f57aa),
    (Op::Trunc(WidthPair::W32W64), 0xd99c5ef4ed6f57aa),
    (Op::Not, 0x8e92a080140c6862),
    (Op::IsNonNil, 0xd9a94f3cdc20dce5),
    (Op::Copy, 0xd6a24df2ed6f57aa),
    (Op::Arm64NEG, 0x295db20d1290a856),
    (Op::Arm64MVN, 0x2dcf28a306b94f36),
    (Op::Arm64MOVBreg, 0xdcc9ef330a6b7baa),
    (Op::Arm64MOVBUreg, 0xd33215e0f3bca6aa),
    (Op::Arm64MOVHreg, 0x88bbcad3507357aa),
    (Op::Arm64MOVHUreg, 0x418a6bc0d36357aa),
    (Op::Arm64MOVWreg, 0x012c562bed6f57aa),
    (Op::Arm64MOVWUreg, 0xd99c5ef4ed6f57aa),
];

#[test]
fn ops_of_one_word(rt: HostRuntime) {
    check_ops(&rt, one_word(), &OF_ONE_WORD);
}

const WITH_A_NUMBER: [(Op, u64); 9] = [
    (Op::OffPtr, 0xc82e1b6dbb9c2a20),
    (Op::Arm64ADDconst, 0xc82e1b6dbb9c2a20),
    (Op::Arm64SUBconst, 0xa690ccdee467a320),
    (Op::Arm64ANDconst, 0x010aeb9292f4ac6e),
    (Op::Arm64ORconst, 0xc7232fdb28a77db2),
    (Op::Arm64XORconst, 0xc618444895b2d144),
    (Op::Arm64CMPconst, 0xbeff7baa89a690ac),
    (Op::Arm64CMPWconst, 0x7b4edd5206291719),
    (Op::Arm64TSTWconst, 0x9effa5d7aa7eb248),
];

#[test]
fn ops_with_a_number(rt: HostRuntime) {
    let over = Over {
        numbers: &CORNERS,
        firsts: &CORNERS,
        ..zeros()
    };
    check_ops(&rt, over, &WITH_A_NUMBER);
}

const SHIFTS_BY_A_NUMBER: [(Op, u64); 3] = [
    (Op::Arm64SLLconst, 0xa101809d43f5df7e),
    (Op::Arm64SRLconst, 0xae3bb519db725a6e),
    (Op::Arm64SRAconst, 0x050d1efbdbbd1c36),
];

#[test]
fn shifts_by_a_number(rt: HostRuntime) {
    let over = Over {
        numbers: &SHIFTS,
        firsts: &CORNERS,
        ..zeros()
    };
    check_ops(&rt, over, &SHIFTS_BY_A_NUMBER);
}

const CONSTANTS: [(Op, u64); 5] = [
    (Op::Const(Width::W8), 0xd33215e0f3bca6aa),
    (Op::Const(Width::W16), 0x418a6bc0d36357aa),
    (Op::Const(Width::W32), 0xd99c5ef4ed6f57aa),
    (Op::Const(Width::W64), 0xd6a24df2ed6f57aa),
    (Op::Arm64MOVDconst, 0xd6a24df2ed6f57aa),
];

#[test]
fn constants(rt: HostRuntime) {
    let over = Over {
        numbers: &CORNERS,
        ..zeros()
    };
    check_ops(&rt, over, &CONSTANTS);
}

const CONDITIONS_OF_FLAGS: [(Op, u64); 10] = [
    (Op::Arm64Equal, 0x0470816248ef8810),
    (Op::Arm64NotEqual, 0xf71e0807c2e7d110),
    (Op::Arm64LessThan, 0x08ffc73195c6ea10),
    (Op::Arm64LessEqual, 0xcd26e4874b8f0558),
    (Op::Arm64GreaterThan, 0x2e67a4e2c04853c8),
    (Op::Arm64GreaterEqual, 0xf28ec23876106f10),
    (Op::Arm64LessThanU, 0x174afeb5f18f62d0),
    (Op::Arm64LessEqualU, 0xc9b01c1c9119a4b8),
    (Op::Arm64GreaterThanU, 0x31de6d4d7abdb468),
    (Op::Arm64GreaterEqualU, 0xe4438ab41a47f650),
];

#[test]
fn conditions_of_flags(rt: HostRuntime) {
    let over = Over {
        flags: &FLAGS,
        ..zeros()
    };
    check_ops(&rt, over, &CONDITIONS_OF_FLAGS);
}

#[test]
fn constants_without_a_word(rt: HostRuntime) {
    let bools = Over {
        numbers: &[0, 1],
        ..zeros()
    };
    check_ops(&rt, bools, &[(Op::ConstBool, 0x0000000000000001)]);
    check_ops(
        &rt,
        zeros(),
        &[
            (Op::ConstNil, 0x0000000000000000),
            (Op::SB, 0x0000000000000000),
        ],
    );
}
