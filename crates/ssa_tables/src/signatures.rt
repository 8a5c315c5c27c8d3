// The signatures of a unit, by name: a look-up takes constant time on average.

ghost use Rattle.std.specs.Prelude.{◌≡◌, map, nat_eq, IfOk, OnOk, option_copied};
ghost use Rattle.std.specs.Cmp.Lexicographic.{pointwise};
ghost use Rattle.indexmap.specs.IndexSet.{insert_key, insert_all};
ghost use Rattle.ssa_ir.specs.Lookups.{sig_of};
ghost use Rattle.ssa_ir.specs.WellFormed.{WellFormed};
ghost use Rattle.ssa_tables.specs.SignatureTable.{names_of};

use gossa_base::{Name, NoMemory};
use indexmap::IndexSet;
use ssa_ir::{Func, Sig, SsaUnit};
use std::alloc::Global;
use std::marker::Model;

/// The names of a unit's signatures, in order: those of its `sig` lines, and those of its functions.
#[derive(Drop)]
pub struct SignatureTable {
    names: IndexSet<Name>,
}

impl Model for SignatureTable {
    ghost use Rattle.std.specs.Prelude.{ℕ, List};

    ghost Value = { List (List ℕ) };

    ghost view = { λ t. t.names.keys };
}

impl SignatureTable {
    /// The names of a unit's signatures.
    pub fn new(alloc: Global, unit: &SsaUnit) -> Result<SignatureTable, NoMemory>
        requires { WellFormed unit.now }
        ensures { IfOk result (λ table. table ≡ names_of unit.now) }
    {
        let mut table = SignatureTable {
            names: IndexSet::new(alloc),
        };
        table.put_sigs(unit.sigs.as_slice())?;
        table.put_funcs(unit.funcs.as_slice())?;
        Ok(table)
    }

    /// The signature of this name in the unit of this table.
    pub fn sig<'a>(&self, unit: &'a SsaUnit, name: &Name) -> Option<&'a Sig>
        requires { self.now ≡ names_of unit.now }
        ensures { option_copied result ≡ sig_of unit.now name.now }
    {
        let index = self.names.get_index_of(name)?;
        let sigs = unit.sigs.as_slice();
        if index < sigs.len() {
            return Some(&sigs[index]);
        }
        let func = unit.funcs.as_slice().get(index - sigs.len())?;
        Some(&func.sig)
    }

    // The names of `sig` lines, behind what is there.
    fn put_sigs(&mut self, sigs: &[Sig]) -> Result<(), NoMemory>
        ensures { OnOk result (self.new ≡ insert_all (pointwise nat_eq) self.old (map (λ s. s.name) sigs.now)) }
    {
        for sig in sigs {
            self.put(&sig.name)?;
        }
        Ok(())
    }

    // The names of functions, behind what is there.
    fn put_funcs(&mut self, funcs: &[Func]) -> Result<(), NoMemory>
        ensures { OnOk result (self.new ≡ insert_all (pointwise nat_eq) self.old (map (λ f. f.sig.name) funcs.now)) }
    {
        for func in funcs {
            self.put(&func.sig.name)?;
        }
        Ok(())
    }

    // A name, behind what is there.
    fn put(&mut self, name: &Name) -> Result<(), NoMemory>
        ensures { OnOk result (self.new ≡ insert_key (pointwise nat_eq) self.old name.now) }
    {
        self.names.insert(same_name(name)?)?;
        Ok(())
    }
}

// A name of its own that is the same.
fn same_name(name: &Name) -> Result<Name, NoMemory>
    ensures { IfOk result (λ same. same ≡ name.now) }
{
    Ok(name.clone()?)
}
