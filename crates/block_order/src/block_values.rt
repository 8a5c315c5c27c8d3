// The values of a block, with their indexes by number.

ghost use Rattle.std.specs.Prelude.{◌≡◌, nat_eq, option_copied, slice_get, IfOk};
ghost use Rattle.indexmap.specs.IndexMap.{get};
ghost use Rattle.gossa_base.specs.declared.ids.ValueId.{ValueId as IrValueId};
ghost use Rattle.block_order.specs.tables.Dependencies as spec;

use gossa_base::{NoMemory, ValueId};
use indexmap::IndexMap;
use ssa_ir::Value;
use std::alloc::Global;
use std::marker::Model;

// The index of each of these values, by number.
fn index_table(alloc: Global, values: &[Value]) -> Result<IndexMap<u32, usize>, NoMemory>
    ensures { IfOk result (λ table. (id : IrValueId) → get nat_eq table id.0 ≡ spec.index_of values.now id) }
{
    let mut table = IndexMap::new(alloc);
    for (index, value) in values.iter().enumerate() {
        if table.get(&value.id.0).is_none() {
            table.insert(value.id.0, index)?;
        }
    }
    Ok(table)
}

/// The values of a block, and the index of each by its number.
#[derive(Drop)]
pub(crate) struct BlockValues<'a> {
    values: &'a [Value],
    table: IndexMap<u32, usize>,
}

impl<'a> Model for BlockValues<'a> {
    ghost use Rattle.std.specs.Prelude.{◌≡◌, List, nat_eq};
    ghost use Rattle.indexmap.specs.IndexMap.{get};
    ghost use Rattle.gossa_base.specs.declared.ids.ValueId.{ValueId as IrValueId};
    ghost use Rattle.ssa_ir.specs.declared.func.Value.{Value as IrValue};
    ghost use Rattle.block_order.specs.tables.Dependencies.{index_of};

    ghost Value = { List IrValue };

    ghost view = { λ b. b.values.now };

    ghost invariant = { λ b. (id : IrValueId) → get nat_eq b.table id.0 ≡ index_of b.values.now id };
}

impl<'a> BlockValues<'a> {
    /// These values with their indexes.
    pub(crate) fn new(alloc: Global, values: &'a [Value]) -> Result<BlockValues<'a>, NoMemory>
        ensures { IfOk result (λ block. block ≡ values.now) }
    {
        let table = index_table(alloc, values)?;
        Ok(BlockValues { values, table })
    }

    /// The values, in their order.
    pub(crate) fn values(&self) -> &[Value]
        ensures { result.now ≡ self.now }
    {
        self.values
    }

    /// The value at an index.
    pub(crate) fn value(&self, index: usize) -> Option<&Value>
        ensures { option_copied result ≡ slice_get self.now index }
    {
        self.values.get(index)
    }

    /// The index of the value of this number, where it stands in the block.
    pub(crate) fn index_of(&self, id: ValueId) -> Option<usize>
        ensures { result ≡ spec.index_of self.now id }
    {
        self.table.get(&id.0).copied()
    }
}
