// The checks of a unit, one function after the other.

ghost use Rattle.std.specs.Prelude.{◌≡◌, IfOk, MatchOption};
ghost use Rattle.ssa_ir.specs.declared.func.SsaUnit.{SsaUnit as IrUnit};
ghost use Rattle.ssa_ir.specs.WellFormed.{WellFormed, WellFormedFunc};
ghost use Rattle.ssa_check.specs.Failing.{Accepted, FirstFault, FirstFaultOf, MeetsAll, MetBelow};
ghost use Rattle.ssa_tables.specs.SignatureTable.{names_of};

use crate::arity::{arity_fault, phi_fault};
use crate::callees::callee_fault;
use crate::controls::control_fault;
use crate::cycles::cycle_fault;
use crate::edges::edges_fault;
use crate::entry::entry_fault;
use crate::memory::memory_fault;
use crate::parameters::parameters_fault;
use crate::refusal::{At, Check, Fault};
use crate::types::types_fault;
use crate::undefined::undefined_fault;
use gossa_base::NoMemory;
use ssa_ir::{Func, SsaUnit};
use ssa_tables::{FuncTables, SignatureTable};
use std::alloc::Global;

// A check that fails, and where.
#[derive(Clone, Copy)]
struct Found {
    check: Check,
    at: At,
}

// The first fault of a function among the checks that need no table of its values.
fn first_checks(alloc: Global, func: &Func) -> Result<Option<Found>, NoMemory>
    requires { WellFormedFunc func.now }
    ensures { (u : IrUnit) → IfOk result (λ found. MatchOption found (MetBelow 5 u func.now)
        (λ x. FirstFaultOf u func.now x.check x.at)) }
{
    if let Some(at) = entry_fault(func) {
        return Ok(Some(Found {
            check: Check::Entry,
            at,
        }));
    }
    if let Some(at) = edges_fault(alloc, func)? {
        return Ok(Some(Found {
            check: Check::Edges,
            at,
        }));
    }
    if let Some(at) = phi_fault(func) {
        return Ok(Some(Found {
            check: Check::PhiArity,
            at,
        }));
    }
    if let Some(at) = arity_fault(func) {
        return Ok(Some(Found {
            check: Check::Arity,
            at,
        }));
    }
    Ok(None)
}

// The first fault of a function among the checks of its values by themselves, where those before them are met.
fn value_checks(
    alloc: Global,
    unit: &SsaUnit,
    signatures: &SignatureTable,
    tables: &FuncTables,
) -> Result<Option<Found>, NoMemory>
    requires of_unit { signatures.now ≡ names_of unit.now }
    requires before { MetBelow 5 unit.now tables.now }
    ensures { IfOk result (λ found. MatchOption found (MetBelow 8 unit.now tables.now)
        (λ x. FirstFaultOf unit.now tables.now x.check x.at)) }
{
    if let Some(at) = types_fault(tables) {
        return Ok(Some(Found {
            check: Check::Types,
            at,
        }));
    }
    if let Some(at) = parameters_fault(alloc, tables.func())? {
        return Ok(Some(Found {
            check: Check::ArgOrInit,
            at,
        }));
    }
    if let Some(at) = callee_fault(alloc, unit, signatures, tables)? {
        return Ok(Some(Found {
            check: Check::Callee,
            at,
        }));
    }
    Ok(None)
}

// The first fault of a function among the checks of paths and of blocks, where those before them are met.
fn path_checks(
    alloc: Global,
    unit: &SsaUnit,
    tables: &FuncTables,
) -> Result<Option<Found>, NoMemory>
    requires before { MetBelow 8 unit.now tables.now }
    ensures { IfOk result (λ found. MatchOption found (MeetsAll unit.now tables.now)
        (λ x. FirstFaultOf unit.now tables.now x.check x.at)) }
{
    if let Some(at) = memory_fault(alloc, tables)? {
        return Ok(Some(Found {
            check: Check::Memory,
            at,
        }));
    }
    if let Some(at) = cycle_fault(alloc, tables)? {
        return Ok(Some(Found {
            check: Check::Cycle,
            at,
        }));
    }
    if let Some(at) = undefined_fault(alloc, tables)? {
        return Ok(Some(Found {
            check: Check::Undefined,
            at,
        }));
    }
    if let Some(at) = control_fault(alloc, tables)? {
        return Ok(Some(Found {
            check: Check::Control,
            at,
        }));
    }
    Ok(None)
}

// The first fault of a function.
fn fault_of(
    alloc: Global,
    unit: &SsaUnit,
    signatures: &SignatureTable,
    func: &Func,
) -> Result<Option<Found>, NoMemory>
    requires of_unit { signatures.now ≡ names_of unit.now }
    requires well_formed { WellFormedFunc func.now }
    ensures { IfOk result (λ found. MatchOption found (MeetsAll unit.now func.now)
        (λ x. FirstFaultOf unit.now func.now x.check x.at)) }
{
    if let Some(found) = first_checks(alloc, func)? {
        return Ok(Some(found));
    }
    let tables = FuncTables::new(alloc, func)?;
    if let Some(found) = value_checks(alloc, unit, signatures, &tables)? {
        return Ok(Some(found));
    }
    path_checks(alloc, unit, &tables)
}

// The first fault of a unit, by the table of its signatures.
fn fault_in(
    alloc: Global,
    unit: &SsaUnit,
    signatures: &SignatureTable,
) -> Result<Option<Fault>, NoMemory>
    requires whole { WellFormed unit.now }
    requires of_unit { signatures.now ≡ names_of unit.now }
    ensures { IfOk result (λ found. MatchOption found (Accepted unit.now) (λ fault. FirstFault unit.now fault)) }
{
    for (number, func) in unit.funcs.as_slice().iter().enumerate() {
        if let Some(found) = fault_of(alloc, unit, signatures, func)? {
            return Ok(Some(Fault {
                func: number as u32,
                check: found.check,
                at: found.at,
            }));
        }
    }
    Ok(None)
}

/// The first fault of a unit, if it has one: the first function that has one, its first check that fails, and the least
/// place at which it does.
///
/// # Errors
///
/// Fails only for want of memory.
pub(crate) fn first_fault(alloc: Global, unit: &SsaUnit) -> Result<Option<Fault>, NoMemory>
    requires { WellFormed unit.now }
    ensures exact { IfOk result (λ found. MatchOption found (Accepted unit.now) (λ fault. FirstFault unit.now fault)) }
{
    let signatures = SignatureTable::new(alloc, unit)?;
    fault_in(alloc, unit, &signatures)
}
