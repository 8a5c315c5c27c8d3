// Checks of units, and runs of those that meet them: each call once at its types.

use crate::dumps::{CANONICAL, MARKED};
use crate::made::{dump_with_cases, has_text, unit_of_text};
use gossa_base::ValueId;
use ssa_check::{At, Check, CheckRefusal, Checked, Fault, check};
use ssa_ir::{End, Shown, SsaUnit};
use ssa_meaning::run_case;
use ssa_text::TextRefusal;
use std::alloc::Global;

// The second function uses a value that stands in no block above it.
const LATE: &str = "func f()\n\
b1:\n\
v1 = InitMem <mem>\n\
Exit v1\n\
func g()\n\
b1:\n\
v1 = InitMem <mem>\n\
v2 = NilCheck <*byte> v3 v1\n\
Plain -> b2\n\
b2: <- b1\n\
v3 = ConstNil <*byte>\n\
Exit v1\n";

const LATE_FAULT: Fault = Fault {
    func: 1,
    check: Check::Undefined,
    at: At::Value(ValueId(2)),
};

#[test]
fn gives_back_what_meets_all_checks(rt: HostRuntime) {
    assert!(rt; is_judged(rt.alloc(), MARKED, None, CANONICAL) == Ok(true));
}

#[test]
fn gives_back_what_fails_a_check(rt: HostRuntime) {
    let refusal = CheckRefusal::Failed(LATE_FAULT);
    assert!(rt; is_judged(rt.alloc(), LATE, Some(refusal), LATE) == Ok(true));
}

// Whether the unit of a text is refused so, or not at all, and given back with this canonical text.
fn is_judged(
    alloc: Global,
    text: &str,
    want: Option<CheckRefusal>,
    canonical: &str,
) -> Result<bool, TextRefusal> {
    let (refusal, unit) = given_back(alloc, text)?;
    Ok(refusal == want && has_text(alloc, &unit, canonical)?)
}

// Why a text's unit is refused, if it is, and what is given back.
fn given_back(alloc: Global, text: &str) -> Result<(Option<CheckRefusal>, SsaUnit), TextRefusal> {
    match check(alloc, unit_of_text(alloc, text)?) {
        Ok(checked) => Ok((None, checked.into_unit())),
        Err((refusal, unit)) => Ok((Some(refusal), unit)),
    }
}

// Each check, its number and its name.
const CHECKS: [(Check, u32, &str); 11] = [
    (Check::Entry, 1, "Entry"),
    (Check::Edges, 2, "Edges"),
    (Check::PhiArity, 3, "PhiArity"),
    (Check::Arity, 4, "Arity"),
    (Check::Types, 5, "Types"),
    (Check::ArgOrInit, 6, "ArgOrInit"),
    (Check::Callee, 7, "Callee"),
    (Check::Memory, 8, "Memory"),
    (Check::Cycle, 9, "Cycle"),
    (Check::Undefined, 10, "Undefined"),
    (Check::Control, 11, "Control"),
];

#[test]
fn checks_have_numbers_and_names(rt: HostRuntime) {
    for (check, number, name) in CHECKS.iter() {
        assert!(rt;
            check.number() == *number && check.name() == name.as_bytes(),
            "for {name}"
        );
    }
}

// What a case shows: how many calls, how it ends, and the first word that it returns, 0 where there is none.
type CaseEnd = (usize, &'static str, u64);

#[test]
fn a_case_shows_its_calls_and_its_end(rt: HostRuntime) {
    assert!(rt; shown_case(rt.alloc(), 0) == Ok((0, "returned", 7)));
    assert!(rt; shown_case(rt.alloc(), 2) == Ok((1, "exited", 0)));
}

// What the dump's case of this number shows.
fn shown_case(alloc: Global, number: usize) -> Result<CaseEnd, TextRefusal> {
    let text = dump_with_cases(alloc)?;
    match check(alloc, unit_of_text(alloc, text.as_str())?) {
        Ok(checked) => case_end(alloc, &checked, number),
        Err(_) => Ok((0, "refused", 0)),
    }
}

// What a case of a unit of one function shows.
fn case_end(alloc: Global, checked: &Checked, number: usize) -> Result<CaseEnd, TextRefusal> {
    let unit = checked.unit();
    match unit.cases.as_slice().get(number) {
        Some(case) if unit.funcs.len() == 1 && case.func == 0 => {
            Ok(end_of(&run_case(alloc, unit, case)?))
        }
        _ => Ok((0, "no case", 0)),
    }
}

fn end_of(shown: &Shown) -> CaseEnd {
    let calls = shown.calls.len();
    match &shown.end {
        End::Returned(words, _) => match words.as_slice() {
            [] => (calls, "no word", 0),
            [word, ..] => (calls, "returned", *word),
        },
        End::Exited(_) => (calls, "exited", 0),
        _ => (calls, "another", 0),
    }
}
