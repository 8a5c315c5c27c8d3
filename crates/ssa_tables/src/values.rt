// Where the values of a function stand, by number: a look-up takes constant time on average.

ghost use Rattle.std.specs.Prelude.{◌≡◌, IfOk, OnOk, option_copied, nat_eq};
ghost use Rattle.indexmap.specs.IndexMap.{insert_all};
ghost use Rattle.ssa_ir.specs.Lookups.{value_of};
ghost use Rattle.ssa_ir.specs.WellFormed.{WellFormedFunc};
ghost use Rattle.ssa_tables.specs.Places.{places_in, places_from, places_of, place_in};

use gossa_base::{NoMemory, ValueId};
use indexmap::IndexMap;
use ssa_ir::{Block, Func, Value};
use std::alloc::Global;
use std::marker::Model;

/// Where a value stands: the index of its block, and its index there, from 0.
#[derive(Clone, Copy, Debug, PartialEq, Eq)]
pub struct Place {
    pub block: usize,
    pub index: usize,
}

/// The place of each value of a function, in text order.
#[derive(Drop)]
pub struct ValueTable {
    places: IndexMap<u32, Place>,
}

impl Model for ValueTable {
    ghost use Rattle.std.specs.Prelude.{ℕ, List};
    ghost use Rattle.ssa_tables.specs.declared.values.Place.{Place as IrPlace};

    ghost Value = { List (ℕ × IrPlace) };

    ghost view = { λ t. t.places.entries };
}

// Puts in the places of the values of one block.
fn put_values(
    places: &mut IndexMap<u32, Place>,
    block: usize,
    values: &[Value],
) -> Result<(), NoMemory>
    ensures { OnOk result (places.new.entries ≡ insert_all nat_eq places.old.entries (places_in block 0 values.now)) }
{
    for (index, value) in values.iter().enumerate() {
        places.insert(value.id.0, Place { block, index })?;
    }
    Ok(())
}

// Puts in the places of the values of all blocks.
fn put_blocks(places: &mut IndexMap<u32, Place>, blocks: &[Block]) -> Result<(), NoMemory>
    ensures { OnOk result (places.new.entries ≡ insert_all nat_eq places.old.entries (places_from 0 blocks.now)) }
{
    for (index, block) in blocks.iter().enumerate() {
        put_values(places, index, block.values.as_slice())?;
    }
    Ok(())
}

impl ValueTable {
    /// The places of a function's values.
    pub fn new(alloc: Global, func: &Func) -> Result<ValueTable, NoMemory>
        requires { WellFormedFunc func.now }
        ensures { IfOk result (λ table. table ≡ places_of func.now) }
    {
        let mut places = IndexMap::new(alloc);
        put_blocks(&mut places, func.blocks.as_slice())?;
        Ok(ValueTable { places })
    }

    /// The place of the value of this number.
    pub fn place(&self, id: ValueId) -> Option<Place>
        ensures { result ≡ place_in self.now id }
    {
        self.places.get(&id.0).copied()
    }

    /// The value of this number in the function of this table.
    pub fn value<'a>(&self, func: &'a Func, id: ValueId) -> Option<&'a Value>
        requires of_func { self.now ≡ places_of func.now }
        requires well_formed { WellFormedFunc func.now }
        ensures { option_copied result ≡ value_of func.now id }
    {
        let Some(place) = self.place(id) else {
            return None;
        };
        let Some(block) = func.blocks.as_slice().get(place.block) else {
            return None;
        };
        block.values.as_slice().get(place.index)
    }
}
