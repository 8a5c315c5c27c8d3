// Lines by themselves: each call that reads one, or a part of one, and the tables of what was read.

ghost use Rattle.std.specs.Prelude.{◌≤◌, length};

use gossa_base::{Name, NoMemory, ValueId};
use ssa_ir::{Op, Scalar, Sig, Ty, Value};
use ssa_lines::{
    Form, Integer, NameSet, Number, NumberSet, Spelled, TextLines, ValueLine, Words, is_allowed,
    is_marked, is_name, is_same, read_form, read_integer, read_number, read_scalar, read_signature,
    read_type, read_value_line, without_first, without_last,
};
use std::alloc::Global;

// Texts, and how many lines each has.
const TEXTS: [(&str, usize); 6] = [
    ("", 0),
    ("a", 1),
    ("a\n", 1),
    ("\n", 1),
    ("a\n\nb", 3),
    ("a\n\n", 2),
];

#[test]
fn cuts_lines(rt: HostRuntime) {
    for (text, count) in TEXTS.iter() {
        assert!(rt; has_lines(text, *count), "for {text}");
    }
}

fn has_lines(text: &str, count: usize) -> bool {
    let mut lines = TextLines::of(text.as_bytes());
    for _ in 0..count {
        if lines.is_empty() || lines.next().is_none() {
            return false;
        }
    }
    lines.is_empty() && lines.next().is_none()
}

#[test]
fn cuts_words(rt: HostRuntime) {
    let mut words = Words::of(b"  v1 =\tAdd64 ");
    assert!(rt; words.opens(b'v'));
    for word in ["v1", "=", "Add64"].iter() {
        assert!(rt; !words.is_empty());
        assert!(rt; words.next() == Some(word.as_bytes()));
    }
    assert!(rt; words.is_empty());
    assert!(rt; words.next() == None);
}

#[test]
fn knows_words(rt: HostRuntime) {
    assert!(rt; is_same(b"sig", b"sig") && !is_same(b"sig", b"sigs"));
    assert!(rt; without_first(b'<', b"<mem>") == Some(b"mem>".as_slice()));
    assert!(rt; without_first(b'[', b"<mem>") == None);
    assert!(rt; without_last(b'>', b"<mem>") == Some(b"<mem".as_slice()));
    assert!(rt; without_last(b'>', b"") == None);
    assert!(rt; is_marked(b"(+6)") && !is_marked(b"(+6"));
    assert!(rt; is_name(b"main.sum") && !is_name(b"1f"));
}

#[test]
fn knows_bytes(rt: HostRuntime) {
    assert!(rt; is_allowed("b2: ← b1\t→ ~".as_bytes()));
    assert!(rt; !is_allowed("↑".as_bytes()) && !is_allowed(b"\xE2\x86"));
    assert!(rt; !is_allowed(b"a\r") && !is_allowed(b"\x7F"));
}

const INTEGERS: [(&str, Option<Integer>); 5] = [
    ("007", Some(Integer::Word(7))),
    ("-1", Some(Integer::Word(u64::MAX))),
    ("0xfF", Some(Integer::Word(255))),
    ("18446744073709551616", Some(Integer::TooLarge)),
    ("-0x5", None),
];

#[test]
fn reads_integers(rt: HostRuntime) {
    for (word, want) in INTEGERS.iter() {
        assert!(rt; read_integer(word.as_bytes()) == *want, "for {word}");
    }
}

const NUMBERS: [(&str, Option<Number>); 5] = [
    ("v007", Some(Number::Fits(7))),
    ("v1000000", Some(Number::Fits(1_000_000))),
    ("v1000001", Some(Number::TooLarge)),
    ("v0", Some(Number::TooLarge)),
    ("b1", None),
];

#[test]
fn reads_numbers(rt: HostRuntime) {
    for (word, want) in NUMBERS.iter() {
        assert!(rt; read_number(b'v', word.as_bytes()) == *want, "for {word}");
    }
}

const SCALARS: [(&str, Option<Scalar>); 4] = [
    ("int", Some(Scalar::I64)),
    ("byte", Some(Scalar::U8)),
    ("*[3]main.T", Some(Scalar::Ptr)),
    ("mem", None),
];

#[test]
fn reads_types(rt: HostRuntime) {
    for (word, want) in SCALARS.iter() {
        assert!(rt; read_scalar(word.as_bytes()) == *want, "for {word}");
    }
    assert!(rt; type_read(rt.alloc(), false, b"mem") == Ok("mem"));
    assert!(rt; type_read(rt.alloc(), true, b"int,bool,mem") == Ok("int64,bool,mem"));
    assert!(rt; type_read(rt.alloc(), false, b"int65") == Ok("none"));
}

fn type_read(alloc: Global, tuple: bool, word: &[u8]) -> Result<&'static str, NoMemory> {
    Ok(name_of_type(&read_type(alloc, tuple, word)?))
}

fn name_of_type(ty: &Option<Ty>) -> &'static str {
    match ty {
        None => "none",
        Some(Ty::Mem) => "mem",
        Some(Ty::Tuple(results)) if results.as_slice() == [Scalar::I64, Scalar::Bool].as_slice() =>
            { "int64,bool,mem" }
        _ => "another",
    }
}

#[test]
fn reads_signatures(rt: HostRuntime) {
    let mut words = Words::of(b"main.sum(*int64, int) int");
    assert!(rt; sum_is_read(rt.alloc(), &mut words) == Ok(true));
}

fn sum_is_read(alloc: Global, words: &mut Words) -> Result<bool, NoMemory> {
    match read_signature(alloc, words)? {
        Some(sig) => Ok(is_sum(&sig)),
        None => Ok(false),
    }
}

fn is_sum(sig: &Sig) -> bool {
    sig.name.as_slice() == b"main.sum".as_slice()
        && sig.params.as_slice() == [Scalar::Ptr, Scalar::I64].as_slice()
        && sig.results.as_slice() == [Scalar::I64].as_slice()
}

const VALUE_LINES: [(&str, &str); 2] = [
    ("v3 (3) = Arg <int> {b} [1] (b[int])", "v3 = Arg [1]"),
    ("v2 = Hmul64 <int64> v1 v1", "unknown op"),
];

#[test]
fn reads_lines_of_values(rt: HostRuntime) {
    for (line, want) in VALUE_LINES.iter() {
        let mut words = Words::of(line.as_bytes());
        assert!(rt;
            value_read(rt.alloc(), &mut words) == Ok(*want),
            "for {line}"
        );
    }
}

fn value_read(alloc: Global, words: &mut Words) -> Result<&'static str, NoMemory> {
    match &read_value_line(alloc, words)? {
        Some(ValueLine::Known(value)) if is_third(value) => Ok("v3 = Arg [1]"),
        Some(ValueLine::UnknownOp) => Ok("unknown op"),
        _ => Ok("another"),
    }
}

fn is_third(value: &Value) -> bool {
    value.id == ValueId(3) && matches!(value.op, Op::Arg) && value.aux == 1
}

const FORMS: [(&str, &str); 10] = [
    ("  // v1 = InitMem <mem>", "blank"),
    ("case f 1", "case"),
    ("sig g()", "sig"),
    ("func f(int64, int64) (int64, bool)", "func"),
    ("b2: ← b1 b4", "block"),
    ("If v9 -> b3 b5 (likely) (5)", "control"),
    ("v2 (3) = Arg <*int64> [0] (p[*int64])", "value"),
    ("v2 = Hmul64 <int64> v1 v1", "unknown op"),
    ("b0:", "too large"),
    ("v11 = Lsh64x64 <int> [3] v7 v20", "bad"),
];

#[test]
fn knows_forms(rt: HostRuntime) {
    for (line, want) in FORMS.iter() {
        assert!(rt; form_read(rt.alloc(), line) == Ok(*want), "for {line}");
    }
}

fn form_read(alloc: Global, line: &str) -> Result<&'static str, NoMemory> {
    Ok(name_of(&read_form(alloc, line.as_bytes())?))
}

fn name_of(form: &Form) -> &'static str {
    match form {
        Form::Blank => "blank",
        Form::Case => "case",
        Form::Sig(_) => "sig",
        Form::Func(_) => "func",
        Form::Block(Spelled::Fits(_)) => "block",
        Form::Value(ValueLine::Known(_)) => "value",
        Form::Value(ValueLine::UnknownOp) => "unknown op",
        Form::Control(Spelled::Fits(_)) => "control",
        Form::Block(Spelled::TooLarge)
        | Form::Value(ValueLine::TooLarge)
        | Form::Control(Spelled::TooLarge) => "too large",
        Form::Bad => "bad",
    }
}

#[test]
fn numbers_are_looked_up(rt: HostRuntime) {
    let mut numbers = NumberSet::new(rt.alloc());
    assert!(rt; !numbers.contains(1));
    assert!(rt; note_numbers(&mut numbers) == Ok(()));
    assert!(rt; note_numbers(&mut numbers) == Ok(()));
    assert!(rt; numbers.len() == 100 && numbers.contains(1));
    assert!(rt; numbers.contains(990_001) && !numbers.contains(2));
    numbers.clear();
    assert!(rt; numbers.len() == 0 && !numbers.contains(1));
    assert!(rt; note_number(&mut numbers, 1) == Ok(()));
    assert!(rt; numbers.contains(1));
}

// Puts a hundred numbers in, each where it isn't there.
fn note_numbers(numbers: &mut NumberSet) -> Result<(), NoMemory> {
    for n in 0..100u32 {
        note_number(numbers, n * 10_000 + 1)?;
    }
    Ok(())
}

// Puts the number in where it isn't there.
fn note_number(numbers: &mut NumberSet, number: u32) -> Result<(), NoMemory> {
    if !numbers.contains(number) {
        numbers.insert(number)?;
    }
    Ok(())
}

// Names that are put into a table, and whether each was there before.
const NAMES: [(&[u8], bool); 5] = [
    (b"f", false),
    (b"g", false),
    (b"fg", false),
    (b"f", true),
    (b"gf", false),
];

#[test]
fn names_are_looked_up(rt: HostRuntime) {
    let mut names = NameSet::new(rt.alloc());
    for (name, before) in NAMES.iter() {
        assert!(rt; !name.is_empty() && name.len() <= 100);
        assert!(rt; note_name(rt.alloc(), &mut names, name) == Ok(*before));
    }
    assert!(rt; names.len() == 4);
    assert!(rt; note_name(rt.alloc(), &mut names, b"gf") == Ok(true));
    assert!(rt; note_name(rt.alloc(), &mut names, b"h") == Ok(false));
}

// Puts a name of 1 to 100 bytes in where it isn't there: whether it was.
fn note_name(alloc: Global, names: &mut NameSet, name: &[u8]) -> Result<bool, NoMemory>
    requires some { 1 ≤ length name.now }
    requires few { length name.now ≤ 100 }
{
    let name = Name::from_slice(alloc, name)?;
    let before = names.contains(&name);
    if !before {
        names.insert(name)?;
    }
    Ok(before)
}
