// Reading the text of a unit.

ghost use Rattle.std.specs.Prelude.{◌≡◌, ◌==◌, ◌||◌, ◌<◌, ◌≤◌, ◌^◌, length, false, Ok, IfOk};
ghost use Rattle.ssa_ir.specs.WellFormed.{WellFormed};
ghost use Rattle.ssa_lines.specs.Lines.{lines_of};
ghost use Rattle.ssa_text.specs.Reading as spec;
ghost use Rattle.case_text.specs.CaseReading.{no_cases, case_part, read_from as read_cases_from};
ghost use Rattle.ssa_text.specs.CaseSplit.{case_line, from_case, through_case};
ghost use Rattle.ssa_text.specs.Reading.{nothing, read_from, has_open_block};
ghost use Rattle.ssa_text.specs.UnitReading as unit;
ghost use Rattle.ssa_lines.specs.ReadsAs.{ReadsAs};

use crate::reader::Reader;
use crate::split::{is_case_line, split_cases};
use case_text::{CasePart, read_case_part};
use ssa_ir::SsaUnit;
use ssa_ir::limits::MAX_LINE_BYTES;
use ssa_lines::{Form, LimitKind, TextFault, TextLines, TextRefusal, is_allowed, read_form};
use std::alloc::Global;

/// The unit that a text spells, or its first fault.
///
/// The lines are looked at in order, and of what is wrong with one the first of these is told: a line that is too long,
/// a bad byte, a line of no form or out of place, an unknown op, a number out of range, a number, a name or a line
/// given twice that stands once, a limit. Only where no line has any of these, the first line that names a value, a
/// block or a function that isn't there.
///
/// # Errors
/// The first fault, with its line from 1, or want of memory.
pub fn read_unit(alloc: Global, text: &[u8]) -> Result<SsaUnit, TextRefusal>
    requires few { length text.now ≤ 2 ^ 30 }
    ensures exact { ReadsAs result (unit.read_unit text.now) }
    ensures well_formed { IfOk result WellFormed }
{
    let reader = read_lines(alloc, text)?;
    let cases = read_cases_behind(alloc, text, &reader)?;
    reader.finish(cases)
}

// The cases of a text, of the functions that were read in front of them.
fn read_cases_behind(alloc: Global, text: &[u8], reader: &Reader) -> Result<CasePart, TextRefusal>
    requires few { length text.now ≤ 2 ^ 30 }
    requires few_names { length (unit.function_names reader.now) < 2 ^ 32 }
    ensures { ReadsAs result (case_part
        (read_cases_from (unit.function_names reader.now) no_cases (case_line text.now)
        (from_case (lines_of text.now)))) }
{
    let (offset, first_line) = split_cases(text);
    let names = reader.function_names(alloc)?;
    read_case_part(alloc, &text[offset..], first_line, names.as_slice())
}

// What the lines of a text through the first one of a case say, one after the other.
fn read_lines(alloc: Global, text: &[u8]) -> Result<Reader, TextRefusal>
    requires few { length text.now ≤ 2 ^ 30 }
    ensures exact { ReadsAs result (read_from nothing 1 (through_case (lines_of text.now))) }
    ensures whole { IfOk result (λ r. has_open_block r.func ≡ false) }
    ensures few_names { IfOk result (λ r. length (unit.function_names r) < 2 ^ 32) }
{
    let mut lines = TextLines::of(text);
    let mut reader = Reader::new(alloc);
    let mut number = 1;
    while let Some(line) = lines.next() {
        let in_cases = is_case_line(line);
        let last = is_last(in_cases, &lines);
        reader = read_line(alloc, reader, number, last, line)?;
        if in_cases {
            return Ok(reader);
        }
        number += 1;
    }
    Ok(reader)
}

// Whether no line behind this one is a unit's: it begins a case, or none is left.
fn is_last(in_cases: bool, lines: &TextLines) -> bool
    ensures { result ≡ (in_cases || (length lines.now == 0)) }
{
    in_cases || lines.is_empty()
}

// What is read behind one more line, the last one or not.
fn read_line(
    alloc: Global,
    reader: Reader,
    number: u32,
    last: bool,
    line: &[u8],
) -> Result<Reader, TextRefusal>
    ensures { ReadsAs result (spec.read_line reader number last line.now) }
{
    let form = checked_form(alloc, &reader, number, last, line)?;
    Ok(reader.take(alloc, number, form)?)
}

// The form of a line behind what was read, the last line or not.
fn checked_form(
    alloc: Global,
    reader: &Reader,
    number: u32,
    last: bool,
    line: &[u8],
) -> Result<Form, TextRefusal>
    ensures { ReadsAs result (spec.checked_form reader.now number last line.now) }
{
    if MAX_LINE_BYTES < line.len() {
        return Err(TextRefusal::from(TextFault::Limit(LimitKind::LineBytes, number)));
    }
    if !is_allowed(line) {
        return Err(TextRefusal::from(TextFault::BadByte(number)));
    }
    let form = read_form(alloc, line)?;
    match reader.fault(number, last, &form) {
        Some(fault) => Err(TextRefusal::from(fault)),
        None => Ok(form),
    }
}
