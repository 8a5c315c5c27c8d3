// What values are made of: ids, names, lists, and words at their widths.

ghost use Rattle.std.specs.Prelude.{◌≤◌, length};

use gossa_base::{BlockId, Bytes, Name, NoMemory, Sequence, ValueId, low, sext};
use std::alloc::{AllocError, Global};
use std::test::Fail;

#[test]
fn names_are_their_bytes(rt: HostRuntime) -> Result<(), Fail> {
    let name = Name::from_slice(rt.alloc(), b"main")?;
    assert!(rt; name.as_slice() == b"main".as_slice());
    assert!(rt; is_copied(&name) == Ok(true));
    assert!(rt; is_named(rt.alloc(), &name, b"main") == Ok(true));
    assert!(rt; is_named(rt.alloc(), &name, b"maim") == Ok(false));
    Ok(())
}

// Whether a copy of a name is equal to it.
fn is_copied(name: &Name) -> Result<bool, NoMemory> {
    Ok(name.clone()? == *name)
}

// Whether a name is that of these 1 to 100 bytes.
fn is_named(alloc: Global, name: &Name, bytes: &[u8]) -> Result<bool, NoMemory>
    requires some { 1 ≤ length bytes.now }
    requires few { length bytes.now ≤ 100 }
{
    Ok(Name::from_slice(alloc, bytes)? == *name)
}

#[test]
fn sequences_grow_at_the_end(rt: HostRuntime) {
    let mut bytes: Bytes = Sequence::new(rt.alloc());
    assert!(rt; bytes.is_empty());
    assert!(rt; bytes.push(b'a') == Ok(()));
    assert!(rt; is_copied_before_it_grows(&mut bytes) == Ok(true));
    assert!(rt; bytes.len() == 2 && !bytes.is_empty());
    assert!(rt; bytes.as_slice() == b"ab".as_slice());
}

// Whether a copy of the one byte stays as it was.
fn is_copied_before_it_grows(bytes: &mut Bytes) -> Result<bool, NoMemory> {
    let copy = bytes.clone()?;
    bytes.push(b'b')?;
    Ok(copy.as_slice() == b"a".as_slice())
}

#[test]
fn ids_are_told_apart(rt: HostRuntime) {
    assert!(rt; ValueId(7) == ValueId(7) && ValueId(7) != ValueId(8));
    let block = BlockId { split: false, n: 7 };
    let split = BlockId { split: true, n: 7 };
    let next = BlockId { split: false, n: 8 };
    assert!(rt; block == block && block != split && block != next);
    assert!(rt; NoMemory::from(AllocError) == NoMemory);
}

// A width, a word, what is left of it at that width, and the same with its sign carried up.
const CUTS: [(u32, u64, u64, u64); 4] = [
    (8, 0x1ff, 0xff, u64::MAX),
    (8, 0x17f, 0x7f, 0x7f),
    (1, 3, 1, u64::MAX),
    (64, u64::MAX, u64::MAX, u64::MAX),
];

#[test]
fn words_are_cut_and_signs_go_up(rt: HostRuntime) {
    for (bits, word, cut, signed) in CUTS.iter() {
        assert!(rt; 1 <= *bits && *bits <= 64);
        assert!(rt;
            low(*bits, *word) == *cut && sext(*bits, *word) == *signed,
            "{bits} of {word}"
        );
    }
}
