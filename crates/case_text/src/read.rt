// Reading the text of cases.

ghost use Rattle.std.specs.Prelude.{◌≡◌, ◌<◌, ◌≤◌, ◌+◌, ◌^◌, length, map, IfOk};
ghost use Rattle.ssa_lines.specs.Lines.{lines_of};
ghost use Rattle.ssa_lines.specs.ReadsAs.{ReadsAs};
ghost use Rattle.case_text.specs.CaseReading as spec;
ghost use Rattle.case_text.specs.CaseReading.{no_cases, read_from, case_part};

use crate::forms::CaseForm;
use crate::read_forms::read_case_form;
use crate::reader::CaseReader;
use gossa_base::{Name, NoMemory, Sequence};
use ssa_ir::limits::MAX_LINE_BYTES;
use ssa_ir::{Cases, Sig, Sigs};
use ssa_lines::{LimitKind, TextFault, TextLines, TextRefusal, is_allowed};
use std::alloc::Global;

/// The cases of a text, and the first line that names a function that isn't there, if one does.
#[derive(Drop)]
pub struct CasePart {
    pub cases: Cases,
    pub unknown: Option<u32>,
}

/// The cases that a text spells, of the functions with these signatures, with lines numbered from `first_line`.
///
/// The lines are looked at in order, and of what is wrong with one the first of these is told: a line that is too long,
/// a bad byte, a line of no form or out of place, an integer out of range, what a case or a reply gives twice, a limit.
/// Only where no line has any of these, the first line that names a function that isn't there.
///
/// # Errors
/// `Limit`, `BadByte`, `BadLine`, `NumberTooLarge`, `Duplicate` and `UnknownRef`, each with its line, and `NoMemory`;
/// never `UnknownOp`.
pub fn read_cases(
    alloc: Global,
    text: &[u8],
    first_line: u32,
    funcs: &Sigs,
) -> Result<Cases, TextRefusal>
    requires few { length text.now ≤ 2 ^ 30 }
    requires first { first_line ≤ 2 ^ 30 + 1 }
    requires few_funcs { length funcs.now < 2 ^ 32 }
    ensures exact { ReadsAs result (spec.read_cases (map (λ s. s.name) funcs.now) first_line text.now) }
{
    let names = names_of(alloc, funcs.as_slice())?;
    let part = read_case_part(alloc, text, first_line, names.as_slice())?;
    match part.unknown {
        Some(line) => Err(TextRefusal::from(TextFault::UnknownRef(line))),
        None => Ok(part.cases),
    }
}

// The names of functions.
fn names_of(alloc: Global, funcs: &[Sig]) -> Result<Sequence<Name>, NoMemory>
    ensures { IfOk result (λ names. names ≡ map (λ s. s.name) funcs.now) }
{
    let mut names = Sequence::new(alloc);
    for func in funcs {
        names.push(same_name(&func.name)?)?;
    }
    Ok(names)
}

// A name of its own that is the same.
fn same_name(name: &Name) -> Result<Name, NoMemory>
    ensures { IfOk result (λ copy. copy ≡ name.now) }
{
    Ok(name.clone()?)
}

/// The cases that a text spells, of functions of these names, whether all that it names are there or not.
///
/// A case whose function isn't there stands for function 0.
///
/// # Errors
/// As [`read_cases`], but for `UnknownRef`.
pub fn read_case_part(
    alloc: Global,
    text: &[u8],
    first_line: u32,
    names: &[Name],
) -> Result<CasePart, TextRefusal>
    requires few { length text.now ≤ 2 ^ 30 }
    requires first { first_line ≤ 2 ^ 30 + 1 }
    requires few_names { length names.now < 2 ^ 32 }
    ensures exact { ReadsAs result (case_part (read_from names.now no_cases first_line (lines_of text.now))) }
{
    let reader = read_lines(alloc, text, first_line, names)?;
    Ok(reader.finish()?)
}

// What all lines of a text say, one after the other.
fn read_lines(
    alloc: Global,
    text: &[u8],
    first_line: u32,
    names: &[Name],
) -> Result<CaseReader, TextRefusal>
    requires few { length text.now ≤ 2 ^ 30 }
    requires first { first_line ≤ 2 ^ 30 + 1 }
    requires few_names { length names.now < 2 ^ 32 }
    ensures { ReadsAs result (read_from names.now no_cases first_line (lines_of text.now)) }
{
    let mut lines = TextLines::of(text);
    let mut reader = CaseReader::new(alloc);
    let mut number = first_line;
    while let Some(line) = lines.next() {
        reader = read_line(alloc, reader, names, number, line)?;
        number += 1;
    }
    Ok(reader)
}

// What is read behind one more line.
fn read_line(
    alloc: Global,
    reader: CaseReader,
    names: &[Name],
    number: u32,
    line: &[u8],
) -> Result<CaseReader, TextRefusal>
    requires { length names.now < 2 ^ 32 }
    ensures { ReadsAs result (spec.read_line names.now reader number line.now) }
{
    let form = checked_form(alloc, &reader, number, line)?;
    Ok(reader.take(alloc, names, number, form)?)
}

// The form of a line behind what was read.
fn checked_form(
    alloc: Global,
    reader: &CaseReader,
    number: u32,
    line: &[u8],
) -> Result<CaseForm, TextRefusal>
    ensures { ReadsAs result (spec.checked_form reader.now number line.now) }
{
    if MAX_LINE_BYTES < line.len() {
        return Err(TextRefusal::from(TextFault::Limit(LimitKind::LineBytes, number)));
    }
    if !is_allowed(line) {
        return Err(TextRefusal::from(TextFault::BadByte(number)));
    }
    let form = read_case_form(alloc, line)?;
    match reader.fault(number, &form) {
        Some(fault) => Err(TextRefusal::from(fault)),
        None => Ok(form),
    }
}
