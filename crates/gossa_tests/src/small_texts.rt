// The texts of what stands within a line: types, signatures, numbers, ids, and lists of them.

use crate::made::{prints, unit_of_text};
use gossa_base::{
    BlockId, NoMemory, ValueId, print_all, print_joined, print_led, put, put_hex, put_hex_bytes,
    put_number, put_signed,
};
use ssa_ir::{Scalar, Sig, print_sigs};
use ssa_text::TextRefusal;
use std::alloc::Global;

const TYPES: [(Scalar, &str); 11] = [
    (Scalar::I8, "int8"),
    (Scalar::I16, "int16"),
    (Scalar::I32, "int32"),
    (Scalar::I64, "int64"),
    (Scalar::U8, "uint8"),
    (Scalar::U16, "uint16"),
    (Scalar::U32, "uint32"),
    (Scalar::U64, "uint64"),
    (Scalar::Uintptr, "uintptr"),
    (Scalar::Bool, "bool"),
    (Scalar::Ptr, "*byte"),
];

#[test]
fn types_have_texts(rt: HostRuntime) {
    for (scalar, want) in TYPES.iter() {
        assert!(rt; prints(rt.alloc(), scalar, want) == Ok(true), "for {want}");
    }
}

#[test]
fn signatures_have_lines(rt: HostRuntime) {
    let text = "sig g(int, unsafe.Pointer) (int, bool)\nsig h()";
    let want = b"sig g(int64, *byte) (int64, bool)\nsig h()\n";
    assert!(rt; sigs_are_printed(rt.alloc(), text, want) == Ok(true));
}

// Whether the signatures of a text are printed so.
fn sigs_are_printed(alloc: Global, text: &str, want: &[u8]) -> Result<bool, TextRefusal> {
    let unit = unit_of_text(alloc, text)?;
    are_printed(alloc, unit.sigs.as_slice(), want)
}

fn are_printed(alloc: Global, sigs: &[Sig], want: &[u8]) -> Result<bool, TextRefusal> {
    let mut text = Vec::new(alloc);
    print_sigs(&mut text, sigs)?;
    Ok(text.as_slice() == want)
}

const WORDS: [(u64, &str); 3] = [
    (0, "0x0"),
    (0x7fab, "0x7fab"),
    (u64::MAX, "0xffffffffffffffff"),
];

#[test]
fn words_and_bytes_are_hexadecimal(rt: HostRuntime) {
    for (word, want) in WORDS.iter() {
        assert!(rt; has_hex(rt.alloc(), *word, want) == Ok(true), "for {want}");
    }
    assert!(rt; bytes_have_hex(rt.alloc(), &[0, 0x0a, 0xff], "000aff") == Ok(true));
}

fn has_hex(alloc: Global, word: u64, want: &str) -> Result<bool, NoMemory> {
    let mut text = Vec::new(alloc);
    put_hex(&mut text, word)?;
    Ok(text.as_slice() == want.as_bytes())
}

fn bytes_have_hex(alloc: Global, bytes: &[u8], want: &str) -> Result<bool, NoMemory> {
    let mut text = Vec::new(alloc);
    put_hex_bytes(&mut text, bytes)?;
    Ok(text.as_slice() == want.as_bytes())
}

#[test]
fn pieces_stand_behind_each_other(rt: HostRuntime) {
    let want = b"f 18446744073709551615-9223372036854775808 v1v22 v1 v22 v1, v22";
    assert!(rt; pieces_are(rt.alloc(), want) == Ok(true));
}

fn pieces_are(alloc: Global, want: &[u8]) -> Result<bool, NoMemory> {
    let mut text = Vec::new(alloc);
    put_numbers(&mut text)?;
    put_lists(&mut text, &[ValueId(1), ValueId(22)])?;
    Ok(text.as_slice() == want)
}

fn put_numbers(text: &mut Vec<u8>) -> Result<(), NoMemory> {
    put(text, b"f ")?;
    put_number(text, u64::MAX)?;
    put_signed(text, i64::MIN)?;
    put(text, b" ")
}

fn put_lists(text: &mut Vec<u8>, ids: &[ValueId]) -> Result<(), NoMemory> {
    print_all(text, ids)?;
    print_led(text, b" ", ids)?;
    put(text, b" ")?;
    print_joined(text, b", ", ids)
}

#[test]
fn blocks_have_texts(rt: HostRuntime) {
    assert!(rt; prints(rt.alloc(), &BlockId { split: false, n: 4 }, "b4") == Ok(true));
    assert!(rt; prints(rt.alloc(), &BlockId { split: true, n: 4 }, "e4") == Ok(true));
}
