// The top call: from words and bytes to bytes and a status.

ghost use Rattle.std.specs.Prelude.{◌≡◌, ◌≤◌, length, map, Ok, IfOk, IfErr};
ghost use Rattle.std.specs.String.{string_bytes};
ghost use Rattle.std.specs.List.{All};
ghost use Rattle.ssa_ir.specs.WellFormed.{WellFormed};
ghost use Rattle.ssa_text.specs.UnitReading as spelling;
ghost use Rattle.ssa_check.specs.Failing.{Accepted, FirstFault};
ghost use Rattle.sum_compile.specs.Narrow.{Narrow};
ghost use Rattle.gossa_core.specs.declared.words.Command.{Command as IrCommand};
ghost use Rattle.gossa_core.specs.declared.words.Command.TheVariants as command;
ghost use Rattle.gossa_core.specs.Answer.{Answers, IsComplete};
ghost use Rattle.gossa_core.specs.Causes.{CommandCause, Cause};
ghost use Rattle.gossa_core.specs.Compiled.{output_of};
ghost use Rattle.gossa_core.specs.Outputs.{Makes};
ghost use Rattle.ssa_ir.specs.declared.limits.TheConstants.{MAX_INPUT_BYTES};
ghost use Rattle.gossa_core.specs.Unmade.{Unchecked, Unmade};
ghost use Rattle.gossa_core.specs.Words.{command_of, HasRegisters};
ghost use Rattle.gossa_core.specs.Worlds.{world, errors};

use crate::names::same_name;
use crate::run::show_cases;
use crate::status::{Outcome, Status};
use crate::telling::tell;
use crate::words::{Command, read_words};
use gossa_base::{Bytes, Failed, NoMemory, Sequence, Sink, Source, put, read_all, write_all};
use listing::{Listings, print_listing};
use ssa_check::{CheckRefusal, Checked, Fault, check};
use ssa_ir::SsaUnit;
use ssa_ir::limits::MAX_INPUT_BYTES;
use ssa_text::{print_unit_cases, read_unit};
use std::alloc::Global;
use sum_compile::{all_narrow, allocate_all};

/// Does what the words say: reads `source`, writes to `sink`, and one line to `errs` where that went wrong.
///
/// The words are looked at first, then the input is read to its end, then the unit that it spells is checked, then it
/// is judged and compiled, or its cases are run, and then all output is written. So nothing is in `sink` unless the
/// answer is `Done` or `WriteFault`. A fault ends it: `source` met none unless the answer is `ReadFault`, and `sink`
/// none unless it is `WriteFault`.
pub fn gossa<S: Source, K: Sink, E: Sink>(
    alloc: Global,
    words: &[String],
    source: &mut S,
    sink: &mut K,
    errs: &mut E,
) -> Status
    ensures answers { Answers (map string_bytes words.now)
        (world (S.left source.old) (S.faults source.old) (K.held sink.old) (K.faults sink.old))
        (world (S.left source.new) (S.faults source.new) (K.held sink.new) (K.faults sink.new))
        (errors (E.held errs.old) (E.faults errs.old)) (errors (E.held errs.new) (E.faults errs.new))
        result }
    ensures complete { IsComplete (map string_bytes words.now)
        (world (S.left source.old) (S.faults source.old) (K.held sink.old) (K.faults sink.old))
        (world (S.left source.new) (S.faults source.new) (K.held sink.new) (K.faults sink.new))
        result }
{
    let outcome = answer(alloc, words, source, sink);
    tell(errs, &outcome);
    outcome.status()
}

// Does what the words say, and answers how it went.
fn answer<S: Source, K: Sink>(
    alloc: Global,
    words: &[String],
    source: &mut S,
    sink: &mut K,
) -> Outcome
    ensures { Cause (command_of (map string_bytes words.now))
        (world (S.left source.old) (S.faults source.old) (K.held sink.old) (K.faults sink.old))
        (world (S.left source.new) (S.faults source.new) (K.held sink.new) (K.faults sink.new))
        result }
{
    match read_words(words) {
        None => Outcome::Usage,
        Some(command) => obey(alloc, command, source, sink),
    }
}

// Reads a unit, and writes what the command makes of it.
fn obey<S: Source, K: Sink>(
    alloc: Global,
    command: Command,
    source: &mut S,
    sink: &mut K,
) -> Outcome
    requires { HasRegisters command }
    ensures { CommandCause command
        (world (S.left source.old) (S.faults source.old) (K.held sink.old) (K.faults sink.old))
        (world (S.left source.new) (S.faults source.new) (K.held sink.new) (K.faults sink.new))
        result }
{
    let text = match read_all(alloc, source, MAX_INPUT_BYTES) {
        Ok(text) => text,
        Err(refusal) => return Outcome::from(refusal),
    };
    match make_output(alloc, command, text.as_slice()) {
        Ok(output) => match write_all(sink, output.as_slice()) {
            Ok(()) => Outcome::Done,
            Err(Failed) => Outcome::WriteFault,
        },
        Err(outcome) => outcome,
    }
}

// What the command makes of a text, or how the program ends without any output.
fn make_output(alloc: Global, command: Command, text: &[u8]) -> Result<Bytes, Outcome>
    requires few { length text.now ≤ MAX_INPUT_BYTES }
    requires registers { HasRegisters command }
    ensures made { IfOk result (λ output. Makes command text.now output) }
    ensures unmade { IfErr result (λ outcome. Unmade command text.now outcome) }
{
    match command {
        Command::Compile { regs } => compile_text(alloc, text, regs),
        Command::Run => run_text(alloc, text),
    }
}

// The listings of the unit that this text spells, or how the program ends without any.
fn compile_text(alloc: Global, text: &[u8], regs: u32) -> Result<Bytes, Outcome>
    requires few { length text.now ≤ MAX_INPUT_BYTES }
    requires many { 16 ≤ regs }
    requires most { regs ≤ 24 }
    ensures made { IfOk result (λ output. Makes (command.Compile regs) text.now output) }
    ensures unmade { IfErr result (λ outcome. Unmade (command.Compile regs) text.now outcome) }
{
    let checked = read_checked(alloc, text)?;
    let unit = checked.into_unit();
    if !all_narrow(unit.funcs.as_slice()) {
        return Err(Outcome::NotBuilt);
    }
    match list_unit(alloc, unit, regs) {
        Ok(output) => Ok(output),
        Err(NoMemory) => Err(Outcome::NoMemory),
    }
}

// What the cases of the unit that this text spells show, or how the program ends without that.
fn run_text(alloc: Global, text: &[u8]) -> Result<Bytes, Outcome>
    requires few { length text.now ≤ MAX_INPUT_BYTES }
    ensures made { IfOk result (λ output. Makes command.Run text.now output) }
    ensures unmade { IfErr result (λ outcome. Unmade command.Run text.now outcome) }
{
    let accepted = read_checked(alloc, text)?;
    match show_cases(alloc, &accepted) {
        Ok(output) => Ok(output),
        Err(NoMemory) => Err(Outcome::NoMemory),
    }
}

// The unit that this text spells and that all checks accept, or how the program ends without one.
fn read_checked(alloc: Global, text: &[u8]) -> Result<Checked, Outcome>
    requires few { length text.now ≤ MAX_INPUT_BYTES }
    ensures spelled { IfOk result (λ checked. spelling.read_unit text.now ≡ Ok checked) }
    ensures accepted { IfOk result Accepted }
    ensures unmade { (c : IrCommand) → IfErr result (λ outcome. Unmade c text.now outcome) }
{
    let unit = read_text(alloc, text)?;
    check_unit(alloc, unit)
}

// The unit that this text spells, or how the program ends without one.
fn read_text(alloc: Global, text: &[u8]) -> Result<SsaUnit, Outcome>
    requires few { length text.now ≤ MAX_INPUT_BYTES }
    ensures spelled { IfOk result (λ unit. spelling.read_unit text.now ≡ Ok unit) }
    ensures well_formed { IfOk result WellFormed }
    ensures unmade { (c : IrCommand) → IfErr result (λ outcome. Unmade c text.now outcome) }
{
    match read_unit(alloc, text) {
        Ok(unit) => Ok(unit),
        Err(refusal) => Err(Outcome::from(refusal)),
    }
}

// Asks the checks of a unit: it is accepted, or this is how the program ends.
fn check_unit(alloc: Global, unit: SsaUnit) -> Result<Checked, Outcome>
    requires { WellFormed unit }
    ensures checked { IfOk result (λ checked. checked ≡ unit) }
    ensures accepted { IfOk result Accepted }
    ensures unchecked { IfErr result (λ outcome. Unchecked unit outcome) }
{
    match check(alloc, unit) {
        Ok(checked) => Ok(checked),
        Err((CheckRefusal::Failed(fault), unit)) => Err(name_fault(&unit, fault)),
        Err((CheckRefusal::NoMemory, _)) => Err(Outcome::NoMemory),
    }
}

// The first fault of a unit as an outcome, with the name of its function.
fn name_fault(unit: &SsaUnit, fault: Fault) -> Outcome
    requires { FirstFault unit.now fault }
    ensures { Unchecked unit.now result }
{
    let func = &unit.funcs.as_slice()[fault.func as usize];
    Outcome::of_fault(fault, same_name(&func.sig.name))
}

// The listings of a unit of narrow functions, and behind them its cases.
fn list_unit(alloc: Global, unit: SsaUnit, regs: u32) -> Result<Bytes, NoMemory>
    requires narrow { All Narrow unit.funcs }
    requires many { 16 ≤ regs }
    requires most { regs ≤ 24 }
    ensures { IfOk result (λ output. output ≡ output_of regs unit) }
{
    let funcs = allocate_all(alloc, unit.funcs.as_slice(), regs)?;
    let listings = Listings {
        sigs: unit.sigs,
        funcs,
    };
    let listed = print_listing(alloc, &listings)?;
    let mut text = Vec::new(alloc);
    put(&mut text, listed.as_slice())?;
    print_unit_cases(&mut text, unit.funcs.as_slice(), unit.cases.as_slice())?;
    Ok(Sequence::from_vec(text))
}
