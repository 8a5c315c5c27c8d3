// Values of a block that wait for each other.

ghost use Rattle.std.specs.Prelude.{◌≡◌, MatchOption, IfOk};
ghost use Rattle.std.specs.List.{Any};
ghost use Rattle.ssa_ir.specs.declared.func.SsaUnit.{SsaUnit as IrUnit};
ghost use Rattle.ssa_check.specs.declared.refusal.Check.TheVariants as check;
ghost use Rattle.ssa_check.specs.Failing.{Meets, LeastPlace};
ghost use Rattle.ssa_check.specs.tables.Lowest as spec;
ghost use Rattle.block_order.specs.LowestOnCycle.{IsLeast, IsOnCycle};

use crate::lowest::value_place;
use crate::refusal::At;
use block_order::lowest_on_cycle;
use gossa_base::NoMemory;
use ssa_tables::FuncTables;
use std::alloc::Global;

// The lower of two numbers, where there are two.
fn lower_of(before: Option<u32>, number: Option<u32>) -> Option<u32>
    ensures { result ≡ spec.lower_of before number }
{
    match (before, number) {
        (Some(lowest), Some(other)) if other < lowest => Some(other),
        (Some(lowest), _) => Some(lowest),
        (None, other) => other,
    }
}

// The lowest number of the values that are on a cycle of their block.
fn lowest_of_blocks(alloc: Global, tables: &FuncTables) -> Result<Option<u32>, NoMemory>
    requires arity { (u : IrUnit) → Meets check.Arity u tables.now }
    ensures { IfOk result (λ lowest. IsLeast lowest (λ n. Any (λ b. IsOnCycle b.values n) tables.now.blocks)) }
{
    let mut lowest = None;
    let func = tables.func();
    for block in func.blocks.as_slice() {
        lowest = lower_of(lowest, lowest_on_cycle(alloc, block.values.as_slice())?);
    }
    Ok(lowest)
}

// The least value at which the check Cycle fails, in a function whose values have their numbers of arguments.
pub(crate) fn cycle_fault(alloc: Global, tables: &FuncTables) -> Result<Option<At>, NoMemory>
    requires arity { (u : IrUnit) → Meets check.Arity u tables.now }
    ensures { (u : IrUnit) → IfOk result (λ found. MatchOption found (Meets check.Cycle u tables.now)
        (LeastPlace check.Cycle u tables.now)) }
{
    let lowest = lowest_of_blocks(alloc, tables)?;
    Ok(value_place(lowest))
}
