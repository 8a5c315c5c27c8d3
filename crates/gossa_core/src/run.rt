// What the cases of a unit show, one after the other.

ghost use Rattle.std.specs.Prelude.{◌≡◌, ◌<◌, ◌++◌, map, length, IfOk, OnOk};
ghost use Rattle.ssa_ir.specs.Lookups.{func_sigs, signatures};
ghost use Rattle.gossa_core.specs.CaseText as spec;
ghost use Rattle.gossa_core.specs.tables.SigTables.{Finds};

use crate::shown::put_shown;
use crate::sig_table::SigTable;
use gossa_base::{Bytes, NoMemory, Sequence};
use ssa_check::Checked;
use ssa_ir::{Case, Func, Sig, SsaUnit};
use ssa_meaning::run_case;
use std::alloc::Global;

// A signature of its own that is the same.
fn same_sig(sig: &Sig) -> Result<Sig, NoMemory>
    ensures { IfOk result (λ same. same ≡ sig.now) }
{
    Ok(sig.clone()?)
}

// Signatures behind others.
fn push_sigs(all: &mut Vec<Sig>, sigs: &[Sig]) -> Result<(), NoMemory>
    ensures { OnOk result (all.new.items ≡ all.old.items ++ sigs.now) }
{
    for sig in sigs {
        all.push(same_sig(sig)?)?;
    }
    Ok(())
}

// The signatures of functions behind others.
fn push_func_sigs(all: &mut Vec<Sig>, funcs: &[Func]) -> Result<(), NoMemory>
    ensures { OnOk result (all.new.items ≡ all.old.items ++ func_sigs funcs.now) }
{
    for func in funcs {
        all.push(same_sig(&func.sig)?)?;
    }
    Ok(())
}

// All signatures of a unit: those of its `sig` lines, and those of its functions.
fn all_sigs(alloc: Global, unit: &SsaUnit) -> Result<Vec<Sig>, NoMemory>
    ensures { IfOk result (λ sigs. sigs.items ≡ signatures unit.now) }
{
    let mut all = Vec::new(alloc);
    push_sigs(&mut all, unit.sigs.as_slice())?;
    push_func_sigs(&mut all, unit.funcs.as_slice())?;
    Ok(all)
}

// Appends what a case of a unit shows.
fn put_case(
    alloc: Global,
    out: &mut Vec<u8>,
    checked: &Checked,
    sigs: &[Sig],
    table: &SigTable,
    case: &Case,
) -> Result<(), NoMemory>
    requires func { case.now.func < length checked.now.funcs }
    requires sigs { sigs.now ≡ signatures checked.now }
    requires table { Finds sigs.now table.now }
    ensures { OnOk result (out.new.items ≡ out.old.items ++ spec.case_text checked.now case.now) }
{
    let unit = checked.unit();
    let shown = run_case(alloc, unit, case)?;
    let func = &unit.funcs.as_slice()[case.func as usize];
    put_shown(out, &func.sig.name, case.bound, sigs, table, &shown)
}

/// What the cases of a unit show, in order.
pub(crate) fn show_cases(alloc: Global, checked: &Checked) -> Result<Bytes, NoMemory>
    ensures { IfOk result (λ output. output ≡ spec.run_text checked.now) }
{
    let unit = checked.unit();
    let sigs = all_sigs(alloc, unit)?;
    let table = SigTable::new(alloc, sigs.as_slice())?;
    let mut out = Vec::new(alloc);
    for case in unit.cases.as_slice() {
        put_case(alloc, &mut out, checked, sigs.as_slice(), &table, case)?;
    }
    Ok(Sequence::from_vec(out))
}
