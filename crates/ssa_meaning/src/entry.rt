// The run of a case.

ghost use Rattle.std.specs.Prelude.{◌≡◌, ◌<◌, length, IfOk};
ghost use Rattle.ssa_ir.specs.Inputs.{inputs_of};
ghost use Rattle.ssa_ir.specs.Lookups.{sig_of};
ghost use Rattle.ssa_ir.specs.Run.{generic, run};
ghost use Rattle.ssa_ir.specs.WellFormed.{WellFormed, WellFormedFunc};
ghost use Rattle.ssa_meaning.specs.CaseRun.{case_shown};
ghost use Rattle.ssa_meaning.specs.tables.Given.{IsGiven};

use crate::ready::ReadyFunc;
use crate::running::Running;
use crate::step::Given;
use crate::symbols::SymbolTable;
use gossa_base::NoMemory;
use ssa_ir::{Case, Func, Shown, SsaUnit};
use ssa_tables::SignatureTable;
use std::alloc::Global;

/// What the function of a case shows: its calls, each with its arguments and the memory that had changed, and then how
/// it ends. The case's bound is the most turns that it takes.
///
/// # Errors
///
/// Want of memory.
pub fn run_case(alloc: Global, unit: &SsaUnit, case: &Case) -> Result<Shown, NoMemory>
    requires well_formed { WellFormed unit.now }
    requires func { case.now.func < length unit.now.funcs }
    ensures { IfOk result (λ shown. shown ≡ case_shown unit.now case.now) }
{
    let func = &unit.funcs.as_slice()[case.func as usize];
    let signatures = SignatureTable::new(alloc, unit)?;
    let symbols = SymbolTable::new(alloc, case.syms.as_slice())?;
    let given = Given {
        unit,
        signatures: &signatures,
        case,
        symbols: &symbols,
    };
    run_given(alloc, &given, func)
}

// What a function shows by the tables of its unit and of a case.
fn run_given(alloc: Global, given: &Given, func: &Func) -> Result<Shown, NoMemory>
    requires given { IsGiven given.now }
    requires well_formed { WellFormedFunc func.now }
    ensures { IfOk result (λ shown. shown
        ≡ run (generic (sig_of given.now.unit.now)) (inputs_of given.now.case.now) func.now given.now.case.now.bound) }
{
    let ready = ReadyFunc::new(alloc, func)?;
    let mut running = Running::begun(alloc, func, given.case)?;
    let end = running.run_turns(alloc, given, func, &ready)?;
    Ok(Shown {
        calls: running.calls,
        end,
    })
}
