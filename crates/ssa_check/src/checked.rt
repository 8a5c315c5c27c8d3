// Units that meet all checks.

ghost use Rattle.std.specs.Prelude.{◌≡◌, IfOk, IfErr};
ghost use Rattle.ssa_ir.specs.WellFormed.{WellFormed};
ghost use Rattle.ssa_check.specs.Failing.{Accepted, IsRefused};

use crate::faults::first_fault;
use crate::refusal::CheckRefusal;
use gossa_base::NoMemory;
use ssa_ir::SsaUnit;
use std::alloc::Global;
use std::marker::Model;

/// A unit that is well formed and meets all checks.
#[derive(Drop)]
pub struct Checked {
    pub u: SsaUnit,
}

impl Model for Checked {
    ghost use Rattle.ssa_ir.specs.declared.func.SsaUnit.{SsaUnit as IrUnit};
    ghost use Rattle.ssa_ir.specs.WellFormed.{WellFormed};
    ghost use Rattle.ssa_check.specs.Failing.{Accepted};

    ghost Value = { IrUnit };

    ghost view = { λ c. c.u };

    ghost invariant = { λ c. WellFormed c.u × Accepted c.u };
}

impl Checked {
    /// The unit.
    pub fn unit(&self) -> &SsaUnit
        ensures unit { result.now ≡ self.now }
        ensures well_formed { WellFormed result.now }
        ensures accepted { Accepted result.now }
    {
        &self.u
    }

    /// The unit, to be taken apart.
    pub fn into_unit(self) -> SsaUnit
        ensures unit { result ≡ self }
        ensures well_formed { WellFormed result }
        ensures accepted { Accepted result }
    {
        self.u
    }
}

/// The unit, where all of its functions meet all checks.
///
/// # Errors
///
/// The first function that fails a check, its first check that fails, and the least place at which it does, or want of
/// memory; each with the unit, unchanged.
pub fn check(alloc: Global, u: SsaUnit) -> Result<Checked, (CheckRefusal, SsaUnit)>
    requires { WellFormed u }
    ensures checked { IfOk result (λ checked. checked ≡ u) }
    ensures accepted { IfOk result (λ checked. Accepted u) }
    ensures refused { IfErr result (λ refused. IsRefused u refused.0) }
    ensures unchanged { IfErr result (λ refused. refused.1 ≡ u) }
{
    match first_fault(alloc, &u) {
        Ok(None) => Ok(Checked { u }),
        Ok(Some(fault)) => Err((CheckRefusal::Failed(fault), u)),
        Err(NoMemory) => Err((CheckRefusal::NoMemory, u)),
    }
}
