// A function with its tables.

ghost use Rattle.std.specs.Prelude.{◌≡◌, ◌<◌, length, option_copied, IfOk};
ghost use Rattle.std.specs.List.{All};
ghost use Rattle.ssa_ir.specs.Lookups.{value_of};
ghost use Rattle.ssa_ir.specs.WellFormed.{WellFormedFunc};
ghost use Rattle.ssa_tables.specs.Blocks.{index_in, preds_at, preds_of};
ghost use Rattle.ssa_tables.specs.Places.{place_in, places_of};

use crate::blocks::BlockTable;
use crate::flow::Flow;
use crate::values::{Place, ValueTable};
use gossa_base::{BlockId, NoMemory, ValueId};
use ssa_ir::{Func, Value};
use std::alloc::Global;
use std::marker::Model;

/// A well-formed function with its tables: its values by number, its blocks by name, and their predecessors by index.
#[derive(Drop)]
pub struct FuncTables<'a> {
    func: &'a Func,
    values: ValueTable,
    blocks: BlockTable,
    flow: Flow,
}

impl<'a> Model for FuncTables<'a> {
    ghost use Rattle.std.specs.Prelude.{◌≡◌};
    ghost use Rattle.ssa_ir.specs.declared.func.Func.{Func as IrFunc};
    ghost use Rattle.ssa_ir.specs.WellFormed.{WellFormedFunc};
    ghost use Rattle.ssa_tables.specs.Blocks.{names_of, preds_of};
    ghost use Rattle.ssa_tables.specs.Places.{places_of};

    ghost Value = { IrFunc };

    ghost view = { λ t. t.func.now };

    ghost invariant = { λ t.
        WellFormedFunc t.func.now
        × (t.values ≡ places_of t.func.now)
        × (t.blocks ≡ names_of t.func.now)
        × (t.flow ≡ preds_of t.func.now) };
}

impl<'a> FuncTables<'a> {
    /// The tables of a function.
    pub fn new(alloc: Global, func: &'a Func) -> Result<FuncTables<'a>, NoMemory>
        requires { WellFormedFunc func.now }
        ensures { IfOk result (λ tables. tables ≡ func.now) }
    {
        let values = ValueTable::new(alloc, func)?;
        let blocks = BlockTable::new(alloc, func)?;
        let flow = Flow::new(alloc, func, &blocks)?;
        Ok(FuncTables {
            func,
            values,
            blocks,
            flow,
        })
    }

    /// The function.
    pub fn func(&self) -> &Func
        ensures func { result.now ≡ self.now }
        ensures well_formed { WellFormedFunc result.now }
    {
        self.func
    }

    /// The place of the value of this number.
    pub fn place(&self, id: ValueId) -> Option<Place>
        ensures { result ≡ place_in (places_of self.now) id }
    {
        self.values.place(id)
    }

    /// The value of this number.
    pub fn value(&self, id: ValueId) -> Option<&Value>
        ensures { option_copied result ≡ value_of self.now id }
    {
        self.values.value(self.func, id)
    }

    /// The index of the block of a name; how many blocks there are where there is none.
    pub fn index(&self, id: BlockId) -> usize
        ensures { result ≡ index_in self.now.blocks id }
    {
        self.blocks.index_in(self.func, id)
    }

    /// The indexes of the predecessors of each block, in order.
    pub fn flow(&self) -> &Flow
        ensures { result.now ≡ preds_of self.now }
    {
        &self.flow
    }
}
