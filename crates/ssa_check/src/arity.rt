// How many arguments a value has.

ghost use Rattle.std.specs.Prelude.{◌≡◌, MatchOption, not};
ghost use Rattle.ssa_ir.specs.declared.func.SsaUnit.{SsaUnit as IrUnit};
ghost use Rattle.ssa_ir.specs.WellFormed.{WellFormedFunc};
ghost use Rattle.ssa_check.specs.declared.refusal.Check.TheVariants as check;
ghost use Rattle.ssa_check.specs.Failing.{Meets, LeastPlace};
ghost use Rattle.ssa_check.specs.ValueChecks.{phi_holds, arity_holds};
ghost use Rattle.ssa_ir.specs.Edges.{is_first_of};

use crate::lowest::{ValueTest, lowest_value, value_place};
use crate::refusal::At;
use ssa_ir::{Arity, Block, Func, Value, op_row};

// Whether a block is the first of these.
pub(crate) fn is_first(blocks: &[Block], block: &Block) -> bool
    ensures { result ≡ is_first_of blocks.now block.now }
{
    match blocks.first() {
        Some(entry) => entry.id == block.id,
        None => false,
    }
}

// Whether the number of arguments of a Phi is wrong, or its place.
#[derive(Drop)]
struct PhiTest<'a> {
    func: &'a Func,
}

impl ValueTest for PhiTest<'_> {
    ghost takes = { λ t b v. Unit {0} };

    ghost fails = { λ t b v. not (phi_holds t.func.now b v) };

    fn fails_at(&self, block: &Block, value: &Value) -> bool {
        value.op.is_phi()
            && (is_first(self.func.blocks.as_slice(), block)
                || value.args.as_slice().len() != block.preds.as_slice().len())
    }
}

// Whether the number of arguments of another op is wrong.
#[derive(Drop)]
struct ArityTest;

impl ValueTest for ArityTest {
    ghost takes = { λ t b v. Unit {0} };

    ghost fails = { λ t b v. not (arity_holds v) };

    fn fails_at(&self, _block: &Block, value: &Value) -> bool {
        match op_row(value.op).arity {
            Arity::Exact(n) => value.args.as_slice().len() != n as usize,
            Arity::Any => false,
        }
    }
}

// The least value at which the check PhiArity fails.
pub(crate) fn phi_fault(func: &Func) -> Option<At>
    requires { WellFormedFunc func.now }
    ensures { (u : IrUnit) → MatchOption result (Meets check.PhiArity u func.now) (LeastPlace check.PhiArity u func.now) }
{
    value_place(lowest_value(func, &PhiTest { func }))
}

// The least value at which the check Arity fails.
pub(crate) fn arity_fault(func: &Func) -> Option<At>
    requires { WellFormedFunc func.now }
    ensures { (u : IrUnit) → MatchOption result (Meets check.Arity u func.now) (LeastPlace check.Arity u func.now) }
{
    value_place(lowest_value(func, &ArityTest))
}
