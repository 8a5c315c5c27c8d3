// The text of units: each call that reads or prints it.

use crate::dumps::{CANONICAL, CANONICAL_CASES, CASES, MARKED};
use crate::made::{dump_with_cases, has_text, unit_of_text};
use gossa_base::NoMemory;
use ssa_ir::SsaUnit;
use ssa_text::{LimitKind, TextFault, TextRefusal, print_unit_cases, split_cases};
use std::alloc::Global;

#[test]
fn reads_the_marks_of_a_dump(rt: HostRuntime) {
    assert!(rt; is_read_as(rt.alloc(), MARKED, CANONICAL) == Ok(true));
}

// Whether a text spells a unit with this canonical text.
fn is_read_as(alloc: Global, text: &str, canonical: &str) -> Result<bool, TextRefusal> {
    let unit = unit_of_text(alloc, text)?;
    has_text(alloc, &unit, canonical)
}

#[test]
fn reads_cases_behind_functions(rt: HostRuntime) {
    assert!(rt; canonical_cases_come_back(rt.alloc()) == Ok(true));
}

// Whether the dump with its cases is read as its canonical text, and that as itself.
fn canonical_cases_come_back(alloc: Global) -> Result<bool, TextRefusal> {
    let text = dump_with_cases(alloc)?;
    let canonical = canonical_with_cases(alloc)?;
    Ok(
        is_read_as(alloc, text.as_str(), canonical.as_str())?
            && is_read_as(alloc, canonical.as_str(), canonical.as_str())?,
    )
}

fn canonical_with_cases(alloc: Global) -> Result<String, NoMemory> {
    Ok(format!(in alloc; "{CANONICAL}{CANONICAL_CASES}")?)
}

#[test]
fn prints_cases_alone(rt: HostRuntime) {
    assert!(rt; cases_stand_alone(rt.alloc()) == Ok(true));
}

// Whether the cases of the dump have their canonical text.
fn cases_stand_alone(alloc: Global) -> Result<bool, TextRefusal> {
    let text = dump_with_cases(alloc)?;
    let unit = unit_of_text(alloc, text.as_str())?;
    has_cases(alloc, &unit, CANONICAL_CASES)
}

fn has_cases(alloc: Global, unit: &SsaUnit, want: &str) -> Result<bool, TextRefusal> {
    let mut cases = Vec::new(alloc);
    print_unit_cases(&mut cases, unit.funcs.as_slice(), unit.cases.as_slice())?;
    Ok(cases.as_slice() == want.as_bytes())
}

// Texts, and their canonical texts.
const FREE_SPELLINGS: [(&str, &str); 10] = [
    ("", ""),
    ("\n\n  \t\n", ""),
    ("// sig f(\n", ""),
    (
        "  sig\tf(int,  byte)  (uint)",
        "sig f(int64, uint8) (uint64)\n",
    ),
    ("sig f() ()", "sig f()\n"),
    (
        "sig f(unsafe.Pointer) *[4]main.T\n",
        "sig f(*byte) (*byte)\n",
    ),
    (
        "func f()\nb07: -\nPlain -> b007 (x) (y)",
        "func f()\nb7:\nPlain -> b7\n",
    ),
    (
        "func f()\nb1:\nv01 = Const64 <int> [0xFfffffffffffffff]\nExit v1\n",
        "func f()\nb1:\nv1 = Const64 <int64> [-1]\nExit v1\n",
    ),
    (
        "func f()\nb1:\nv1 (a) = Arg <int> {} [-0] (b) c)\nExit v1\n",
        "func f()\nb1:\nv1 = Arg <int64> [0]\nExit v1\n",
    ),
    (
        "func f()\nb1:\nv1 = MakeResult <mem> v1\nRet v1\nfunc g()\nb1:\nv1 = Copy <mem> v1\nRet v1\n",
        "func f()\nb1:\nv1 = MakeResult <mem> v1\nRet v1\nfunc g()\nb1:\nv1 = Copy <mem> v1\nRet v1\n",
    ),
];

#[test]
fn reads_free_spellings(rt: HostRuntime) {
    for (text, canonical) in FREE_SPELLINGS.iter() {
        assert!(rt;
            is_read_as(rt.alloc(), text, canonical) == Ok(true),
            "for {text}"
        );
    }
}

// Texts, and their first faults.
const FAULTS: [(&str, TextFault); 3] = [
    (
        "func f()\nb1:\nPlain -> b2\ncase g 1\nargs x",
        TextFault::BadLine(5),
    ),
    (
        "func f()\nb1:\nPlain -> b2\ncase g 1",
        TextFault::UnknownRef(3),
    ),
    (
        "func f()\ncase f 1000001",
        TextFault::Limit(LimitKind::Bound, 2),
    ),
];

#[test]
fn tells_the_first_fault(rt: HostRuntime) {
    for (text, fault) in FAULTS.iter() {
        assert!(rt;
            unit_of_text(rt.alloc(), text).err() == Some(TextRefusal::Fault(*fault)),
            "for {text}"
        );
    }
}

// Texts, and where their first lines of cases begin: how many bytes and lines stand above, and the line's number.
const SPLITS: [(&str, (usize, u32)); 6] = [
    ("", (0, 1)),
    ("sig f()\n", (8, 2)),
    ("sig f()\n\n", (9, 3)),
    ("sig f()\ncase f 1\ncase f 2\n", (8, 2)),
    ("\n \tcase", (1, 2)),
    ("cases\n// case\ncase", (14, 3)),
];

#[test]
fn splits_at_the_first_case(rt: HostRuntime) {
    for (text, split) in SPLITS.iter() {
        assert!(rt; split_cases(text.as_bytes()) == *split, "for {text}");
    }
}
