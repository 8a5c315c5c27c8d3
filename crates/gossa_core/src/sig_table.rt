// Signatures by name: a look-up takes constant time on average.

ghost use Rattle.std.specs.Prelude.{◌≡◌, ℕ, List, nat_eq, if◌then◌else◌, slice_get, option_copied};
ghost use Rattle.std.specs.Prelude.{Option, IfOk, OnOk};
ghost use Rattle.std.specs.Cmp.Lexicographic.{pointwise};
ghost use Rattle.indexmap.specs.IndexMap.{get};
ghost use Rattle.ssa_ir.specs.declared.types.Sig.{Sig as IrSig};
ghost use Rattle.gossa_core.specs.ShownText.{sig_among};
ghost use Rattle.gossa_core.specs.tables.SigTables.{Finds, found_or};

use crate::names::same_name;
use gossa_base::{Name, NoMemory};
use indexmap::IndexMap;
use ssa_ir::Sig;
use std::alloc::Global;

/// The place of each name among signatures, that of the first where one stands twice.
#[derive(Drop)]
pub struct SigTable {
    places: IndexMap<Name, usize>,
}

impl SigTable {
    /// The places of the names of these signatures.
    pub(crate) fn new(alloc: Global, sigs: &[Sig]) -> Result<SigTable, NoMemory>
        ensures { IfOk result (λ table. Finds sigs.now table) }
    {
        let mut table = SigTable {
            places: IndexMap::new(alloc),
        };
        for (place, sig) in sigs.iter().enumerate() {
            table.put(&sig.name, place)?;
        }
        Ok(table)
    }

    /// The signature of this name among those of this table.
    pub(crate) fn sig<'a>(&self, sigs: &'a [Sig], name: &Name) -> Option<&'a Sig>
        requires { Finds sigs.now self.now }
        ensures { option_copied result ≡ sig_among sigs.now name.now }
    {
        let place = self.places.get(name)?;
        sigs.get(*place)
    }

    // The place of a name: it counts where none was given before.
    fn put(&mut self, name: &Name, place: usize) -> Result<(), NoMemory>
        ensures { OnOk result ((sigs : List IrSig) (other : List ℕ) (later : Option IrSig)
            → found_or sigs (get (pointwise nat_eq) self.new.places other) later
            ≡ found_or sigs (get (pointwise nat_eq) self.old.places other)
            (if pointwise nat_eq name.now other then slice_get sigs place else later)) }
    {
        if self.places.contains_key(name) {
            return Ok(());
        }
        self.places.insert(same_name(name)?, place)?;
        Ok(())
    }
}
