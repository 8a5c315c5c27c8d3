// The text of cases: each call that reads or prints it.

ghost use Rattle.std.specs.Prelude.{◌≡◌, ◌≤◌, length, IfOk};

use crate::made::{one, sig};
use case_text::{CaseForm, print_case, print_cases, read_case_form, read_case_part, read_cases};
use gossa_base::{Name, NoMemory};
use ssa_ir::{Case, Sigs};
use ssa_lines::{LimitKind, Spelled, TextFault, TextRefusal};
use std::alloc::Global;

// Lines, and what each spells: its kind, and its number or how many words it keeps.
const LINES: [(&str, (&str, u64)); 5] = [
    ("case f.g 007", ("case f.g", 7)),
    (" \t", ("blank", 0)),
    ("clobber 0xdead", ("clobber", 0xdead)),
    ("fill 18446744073709551616", ("too large", 0)),
    ("fill 18446744073709551616 2", ("bad", 0)),
];

#[test]
fn knows_lines(rt: HostRuntime) {
    for (line, spelled) in LINES.iter() {
        assert!(rt;
            spells(rt.alloc(), line.as_bytes()) == Ok(*spelled),
            "for {line}"
        );
    }
}

// Keywords, how many words stand behind each, and how many of them are kept.
const WORDS: [(&str, usize, u64); 15] = [
    ("args", 0, 0),
    ("args", 1, 1),
    ("args", 64, 64),
    ("args", 65, 64),
    ("args", 100, 64),
    ("reply", 0, 0),
    ("reply", 1, 1),
    ("reply", 64, 64),
    ("reply", 65, 64),
    ("reply", 100, 64),
    ("junk", 0, 0),
    ("junk", 1, 1),
    ("junk", 64, 64),
    ("junk", 65, 65),
    ("junk", 100, 100),
];

#[test]
fn keeps_64_words(rt: HostRuntime) {
    for (keyword, count, kept) in WORDS.iter() {
        let spelled = spells_words(rt.alloc(), keyword, *count);
        assert!(rt;
            spelled == Ok((*keyword, *kept)),
            "for {keyword} and {count} words"
        );
    }
}

// What a line of a keyword and so many words spells.
fn spells_words(
    alloc: Global,
    keyword: &str,
    count: usize,
) -> Result<(&'static str, u64), NoMemory> {
    let line = line_of(alloc, keyword, count)?;
    spells(alloc, line.as_slice())
}

fn line_of(alloc: Global, keyword: &str, count: usize) -> Result<Vec<u8>, NoMemory> {
    let mut line = Vec::from_slice(alloc, keyword.as_bytes())?;
    for _again in 0..count {
        line.extend_from_slice(b" 9")?;
    }
    Ok(line)
}

fn spells(alloc: Global, line: &[u8]) -> Result<(&'static str, u64), NoMemory> {
    Ok(spelled(&read_case_form(alloc, line)?))
}

fn spelled(form: &CaseForm) -> (&'static str, u64) {
    match form {
        CaseForm::Blank => ("blank", 0),
        CaseForm::Head(Spelled::Fits(head)) if head.name.as_slice() == b"f.g".as_slice() => {
            ("case f.g", head.bound)
        }
        CaseForm::Args(Spelled::Fits(words)) => ("args", words.len() as u64),
        CaseForm::Reply(Spelled::Fits(words)) => ("reply", words.len() as u64),
        CaseForm::Junk(Spelled::Fits(words)) => ("junk", words.len() as u64),
        CaseForm::Clobber(Spelled::Fits(word)) => ("clobber", *word),
        CaseForm::Fill(Spelled::TooLarge) => ("too large", 0),
        CaseForm::Bad => ("bad", 0),
        _ => ("another", 0),
    }
}

const CASE_OF_G: &str = "case g 16\nmem 0x10 0fa0\n";

#[test]
fn reads_and_prints_cases(rt: HostRuntime) {
    assert!(rt; case_is_printed(rt.alloc()) == Ok(true));
}

// Whether a case of g is printed by itself, and among cases.
fn case_is_printed(alloc: Global) -> Result<bool, TextRefusal> {
    let sigs = two_sigs(alloc)?;
    let text = b" case\tg  0x10 \nargs\nmem 16 0fA0";
    let cases = read_cases(alloc, text, 1, &sigs)?;
    let printed = print_cases(alloc, &cases, &sigs)?;
    match cases.as_slice() {
        [case] => Ok(printed.as_slice() == CASE_OF_G.as_bytes() && is_case_of_g(alloc, case)?),
        _ => Ok(false),
    }
}

fn is_case_of_g(alloc: Global, case: &Case) -> Result<bool, NoMemory> {
    let mut text = Vec::new(alloc);
    print_case(&mut text, b"g", case)?;
    Ok(case.func == 1 && text.as_slice() == CASE_OF_G.as_bytes())
}

// Texts of cases, and the first fault of each, where the first line has the number 7.
const FAULTS: [(&str, TextFault); 3] = [
    ("case f 1\nargs\nargs", TextFault::Duplicate(9)),
    ("case h 1000001", TextFault::Limit(LimitKind::Bound, 7)),
    ("case f 1\ncase h 1\ncase i 1", TextFault::UnknownRef(8)),
];

#[test]
fn counts_lines_from_the_first(rt: HostRuntime) {
    for (text, fault) in FAULTS.iter() {
        assert!(rt; text.len() <= 1000);
        assert!(rt;
            reads_cases(rt.alloc(), text.as_bytes()) == Err(TextRefusal::Fault(*fault)),
            "for {text}"
        );
    }
}

// Reads cases of f and g.
fn reads_cases(alloc: Global, text: &[u8]) -> Result<(), TextRefusal>
    requires { length text.now ≤ 1000 }
{
    let sigs = two_sigs(alloc)?;
    read_cases(alloc, text, 7, &sigs)?;
    Ok(())
}

#[test]
fn tells_the_first_unknown_function(rt: HostRuntime) {
    let two = b"case f 1\ncase f 2";
    assert!(rt; reads_part(rt.alloc(), two) == Ok((2, None)));
    let three = b"case f 1\ncase h 1\ncase i 1";
    assert!(rt; reads_part(rt.alloc(), three) == Ok((3, Some(8))));
}

// How many cases of f a text has, and the first line that names another function.
fn reads_part(alloc: Global, text: &[u8]) -> Result<(usize, Option<u32>), TextRefusal>
    requires { length text.now ≤ 1000 }
{
    let names = one(alloc, Name::from_slice(alloc, b"f")?)?;
    let part = read_case_part(alloc, text, 7, names.as_slice())?;
    Ok((part.cases.len(), part.unknown))
}

// Two functions without parameters, f and g.
fn two_sigs(alloc: Global) -> Result<Sigs, NoMemory>
    ensures { IfOk result (λ sigs. length sigs ≡ 2) }
{
    let mut sigs = one(alloc, sig(alloc, b"f", &[])?)?;
    sigs.push(sig(alloc, b"g", &[])?)?;
    Ok(sigs)
}
