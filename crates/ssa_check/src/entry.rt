// The first block of a function.

ghost use Rattle.std.specs.Prelude.{MatchOption};
ghost use Rattle.ssa_ir.specs.declared.func.SsaUnit.{SsaUnit as IrUnit};
ghost use Rattle.ssa_ir.specs.WellFormed.{WellFormedFunc};
ghost use Rattle.ssa_check.specs.declared.refusal.Check.TheVariants as check;
ghost use Rattle.ssa_check.specs.Failing.{Meets, LeastPlace};

use crate::refusal::At;
use ssa_ir::Func;

// The place at which the check Entry fails: the function, where it has no block, or its first block, where that has
// predecessors.
pub(crate) fn entry_fault(func: &Func) -> Option<At>
    requires { WellFormedFunc func.now }
    ensures { (u : IrUnit) → MatchOption result (Meets check.Entry u func.now) (LeastPlace check.Entry u func.now) }
{
    let Some(entry) = func.blocks.as_slice().first() else {
        return Some(At::Func);
    };
    if entry.preds.as_slice().is_empty() {
        return None;
    }
    Some(At::Block(entry.id))
}
