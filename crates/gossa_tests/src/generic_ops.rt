// What the generic ops compute of two words and more: a checksum of each (`checksums.rt`).

use crate::checksums::{CORNERS, FLAGS, Over, PLACES, check_ops, two_words};
use ssa_ir::{Op, Width};

const SUMS_PRODUCTS_AND_BITS: [(Op, u64); 25] = [
    (Op::Add(Width::W8), 0x073797bca9251120),
    (Op::Sub(Width::W8), 0x18191af432e36de0),
    (Op::Mul(Width::W8), 0x1e443de32980a1d8),
    (Op::And(Width::W8), 0x3518b4ada94a776e),
    (Op::Or(Width::W8), 0x8a419965298e42b2),
    (Op::Xor(Width::W8), 0x5528e4b78043cb44),
    (Op::Add(Width::W16), 0x2ea6af5605782a20),
    (Op::Sub(Width::W16), 0x8323c06998735ce0),
    (Op::Mul(Width::W16), 0x94a417fd9faf69d8),
    (Op::And(Width::W16), 0xb53e6f2d86c4ac6e),
    (Op::Or(Width::W16), 0xdf9fddeef0977db2),
    (Op::Xor(Width::W16), 0x2a616ec169d2d144),
    (Op::Add(Width::W32), 0x4d3c3d6ebb9c2a20),
    (Op::Sub(Width::W32), 0x18a39e6b1b985ce0),
    (Op::Mul(Width::W32), 0x96bec6daeafd69d8),
    (Op::And(Width::W32), 0x4ee402be92f4ac6e),
    (Op::Or(Width::W32), 0xfb69600f28a77db2),
    (Op::Xor(Width::W32), 0xac855d5095b2d144),
    (Op::Add(Width::W64), 0xc82e1b6dbb9c2a20),
    (Op::Sub(Width::W64), 0x596f33211b985ce0),
    (Op::Mul(Width::W64), 0x0a142c86eafd69d8),
    (Op::And(Width::W64), 0x010aeb9292f4ac6e),
    (Op::Or(Width::W64), 0xc7232fdb28a77db2),
    (Op::Xor(Width::W64), 0xc618444895b2d144),
    (Op::AddPtr, 0xc82e1b6dbb9c2a20),
];

#[test]
fn sums_products_and_bits_of_generic_ops(rt: HostRuntime) {
    check_ops(&rt, two_words(), &SUMS_PRODUCTS_AND_BITS);
}

const QUOTIENTS_AND_SHIFTS: [(Op, u64); 28] = [
    (Op::Div(Width::W8), 0xa4329dcef6bac22c),
    (Op::DivU(Width::W8), 0x1f481ce58be68410),
    (Op::Mod(Width::W8), 0x56473eb075c4bc87),
    (Op::ModU(Width::W8), 0x2f860ca671c900e7),
    (Op::Lsh(Width::W8), 0x50b8d1853884b88c),
    (Op::Rsh(Width::W8), 0x5f168b6626459091),
    (Op::RshU(Width::W8), 0x00036eeafddc8de5),
    (Op::Div(Width::W16), 0x591d0ca8d009d8df),
    (Op::DivU(Width::W16), 0x1b8acf3c905eddb7),
    (Op::Mod(Width::W16), 0xdfb50d9bfba31a65),
    (Op::ModU(Width::W16), 0x263ed926de3c91fe),
    (Op::Lsh(Width::W16), 0x33f52553eca2c68c),
    (Op::Rsh(Width::W16), 0x9e0df3c8eb8b961d),
    (Op::RshU(Width::W16), 0xc4c2a2402666a865),
    (Op::Div(Width::W32), 0xc06feeb29429d241),
    (Op::DivU(Width::W32), 0xcc3fda13279a40db),
    (Op::Mod(Width::W32), 0xe2dc5e5d76a00d89),
    (Op::ModU(Width::W32), 0x2b8e20a541e97bbf),
    (Op::Lsh(Width::W32), 0x32d5072af6c4c68c),
    (Op::Rsh(Width::W32), 0x6998c420ed1052a9),
    (Op::RshU(Width::W32), 0x8d8a088b7048a865),
    (Op::Div(Width::W64), 0x319c01d85a9f7b22),
    (Op::DivU(Width::W64), 0x041d38396676793f),
    (Op::Mod(Width::W64), 0x7454ee6e00ed7f55),
    (Op::ModU(Width::W64), 0xd423bda484dad62d),
    (Op::Lsh(Width::W64), 0xbaa0f625f6c4c68c),
    (Op::Rsh(Width::W64), 0xb1db616de02c7a4d),
    (Op::RshU(Width::W64), 0x83d81c8d88a3caab),
];

#[test]
fn quotients_and_shifts_of_generic_ops(rt: HostRuntime) {
    check_ops(&rt, two_words(), &QUOTIENTS_AND_SHIFTS);
}

const COMPARISONS: [(Op, u64); 24] = [
    (Op::Eq(Width::W8), 0xb92d9fa6176ce4a0),
    (Op::Neq(Width::W8), 0xea19fd4a55826d60),
    (Op::Less(Width::W8), 0xb877e6ad271aff91),
    (Op::Leq(Width::W8), 0x71a586533e87e431),
    (Op::LessU(Width::W8), 0x282ed56487e3bc61),
    (Op::LeqU(Width::W8), 0xe15c750a9f50a101),
    (Op::Eq(Width::W16), 0xb14bfe1c1366a37e),
    (Op::Neq(Width::W16), 0xf1fb9ed45988ae82),
    (Op::Less(Width::W16), 0xfc4cf2d901360f5b),
    (Op::Leq(Width::W16), 0xad98f0f5149cb2d9),
    (Op::LessU(Width::W16), 0x8c419d67d125af9b),
    (Op::LeqU(Width::W16), 0x3d8d9b83e48c5319),
    (Op::Eq(Width::W32), 0x07166e8fe220ed84),
    (Op::Neq(Width::W32), 0x9c312e608ace647c),
    (Op::Less(Width::W32), 0xec1f4eef221b0f3a),
    (Op::Leq(Width::W32), 0xf335bd7f043bfcbe),
    (Op::LessU(Width::W32), 0x462bf3d9d7acbc2a),
    (Op::LeqU(Width::W32), 0x4d426269b9cda9ae),
    (Op::Eq(Width::W64), 0x5cdec2eaa0ea5f20),
    (Op::Neq(Width::W64), 0x4668da05cc04f2e0),
    (Op::Less(Width::W64), 0xa97ad350727576c8),
    (Op::Leq(Width::W64), 0x0659963b135fd5e8),
    (Op::LessU(Width::W64), 0xbd598825038dafc8),
    (Op::LeqU(Width::W64), 0x1a384b0fa4780ee8),
];

#[test]
fn comparisons_of_generic_ops(rt: HostRuntime) {
    check_ops(&rt, two_words(), &COMPARISONS);
}

const BOOLS_POINTERS_AND_BOUNDS: [(Op, u64); 8] = [
    (Op::EqB, 0xb4c80ebf8fb08864),
    (Op::NeqB, 0x5528e4b78043cb44),
    (Op::AndB, 0x3518b4ada94a776e),
    (Op::OrB, 0x8a419965298e42b2),
    (Op::EqPtr, 0x5cdec2eaa0ea5f20),
    (Op::NeqPtr, 0x4668da05cc04f2e0),
    (Op::IsInBounds, 0xbd598825038dafc8),
    (Op::IsSliceInBounds, 0x1a384b0fa4780ee8),
];

#[test]
fn bools_pointers_and_bounds(rt: HostRuntime) {
    check_ops(&rt, two_words(), &BOOLS_POINTERS_AND_BOUNDS);
}

#[test]
fn selects(rt: HostRuntime) {
    let by_bool = Over {
        thirds: &CORNERS,
        ..two_words()
    };
    check_ops(&rt, by_bool, &[(Op::CondSelect, 0x7440edb267046800)]);
    let by_condition = Over {
        numbers: &PLACES,
        flags: &FLAGS,
        ..two_words()
    };
    check_ops(&rt, by_condition, &[(Op::Arm64CSEL, 0xcc891009d50bb000)]);
}
