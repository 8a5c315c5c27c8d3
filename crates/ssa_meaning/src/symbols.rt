// The addresses of a case's symbols, by name.

ghost use Rattle.std.specs.Prelude.{◌≡◌, List, ℕ, nat_eq, IfOk, OnOk, unwrap_or, if◌then◌else◌};
ghost use Rattle.std.specs.Cmp.Lexicographic.{pointwise};
ghost use Rattle.indexmap.specs.IndexMap.{get};
ghost use Rattle.ssa_ir.specs.Inputs.{symbol_in};
ghost use Rattle.ssa_meaning.specs.tables.Symbols as spec;

use gossa_base::{Name, NoMemory};
use indexmap::IndexMap;
use std::alloc::Global;

/// The address of each symbol of a case: a look-up takes constant time on average.
#[derive(Drop)]
pub struct SymbolTable {
    words: IndexMap<Name, u64>,
}

impl SymbolTable {
    /// The addresses that these lines give. Of two of one name the first counts.
    pub(crate) fn new(alloc: Global, syms: &[(Name, u64)]) -> Result<SymbolTable, NoMemory>
        ensures { IfOk result (λ table. (name : List ℕ) → spec.address_in table name ≡ symbol_in syms.now name) }
    {
        let mut table = SymbolTable {
            words: IndexMap::new(alloc),
        };
        for (name, word) in syms {
            table.put(name, *word)?;
        }
        Ok(table)
    }

    /// The address of a symbol; one that no line gives is 0.
    pub(crate) fn word(&self, name: &Name) -> u64
        ensures { result ≡ spec.address_in self.now name.now }
    {
        match self.words.get(name) {
            Some(word) => *word,
            None => 0,
        }
    }

    // The address that a line gives a symbol: it counts where no line before gave one.
    fn put(&mut self, name: &Name, word: u64) -> Result<(), NoMemory>
        ensures { OnOk result ((other : List ℕ) (rest : ℕ)
            → unwrap_or (get (pointwise nat_eq) self.new.words other) rest
            ≡ unwrap_or (get (pointwise nat_eq) self.old.words other)
            (if pointwise nat_eq name.now other then word else rest)) }
    {
        if self.words.contains_key(name) {
            return Ok(());
        }
        self.words.insert(same_name(name)?, word)?;
        Ok(())
    }
}

// A name of its own that is the same.
fn same_name(name: &Name) -> Result<Name, NoMemory>
    ensures { IfOk result (λ same. same ≡ name.now) }
{
    Ok(name.clone()?)
}
