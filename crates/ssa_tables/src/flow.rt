// The predecessors of each block, by index.

ghost use Rattle.std.specs.Prelude.{◌≡◌, ◌<◌, length, map, IfOk};
ghost use Rattle.std.specs.List.{All};
ghost use Rattle.ssa_ir.specs.WellFormed.{WellFormedFunc};
ghost use Rattle.ssa_tables.specs.Blocks as spec;

use crate::blocks::BlockTable;
use gossa_base::{BlockId, NoMemory};
use ssa_ir::Func;
use std::alloc::Global;
use std::marker::Model;

// The indexes of blocks of these names, in order.
fn indexes(alloc: Global, table: &BlockTable, ids: &[BlockId]) -> Result<Vec<usize>, NoMemory>
    ensures { IfOk result (λ indexes. indexes.items ≡ map (spec.place_of table.now) ids.now) }
{
    let mut indexes = Vec::new(alloc);
    for id in ids {
        indexes.push(table.index(*id))?;
    }
    Ok(indexes)
}

/// The predecessors of each block, by index, in order.
#[derive(Drop)]
pub struct Flow {
    preds: Vec<Vec<usize>>,
}

impl Model for Flow {
    ghost use Rattle.std.specs.Prelude.{ℕ, ◌<◌, List, length, map};
    ghost use Rattle.std.specs.List.{All};

    ghost Value = { List (List ℕ) };

    ghost view = { λ g. map (λ preds. preds.items) g.preds.items };

    ghost invariant = { λ g. All (λ preds. All (λ p. p < length g.preds.items) preds.items) g.preds.items };
}

impl Flow {
    /// The predecessors of the blocks of a function.
    pub fn new(alloc: Global, func: &Func, table: &BlockTable) -> Result<Flow, NoMemory>
        requires well_formed { WellFormedFunc func.now }
        requires of_func { table.now ≡ spec.names_of func.now }
        ensures { IfOk result (λ flow. flow ≡ spec.preds_of func.now) }
    {
        let mut preds = Vec::new(alloc);
        for block in func.blocks.as_slice() {
            preds.push(indexes(alloc, table, block.preds.as_slice())?)?;
        }
        Ok(Flow { preds })
    }

    /// How many blocks there are.
    pub fn len(&self) -> usize
        ensures { result ≡ length self.now }
    {
        self.preds.len()
    }

    /// The predecessors of a block, in order.
    pub fn preds(&self, block: usize) -> &[usize]
        requires { block < length self.now }
        ensures value { result.now ≡ spec.preds_at self.now block }
        ensures within { All (λ p. p < length self.now) result.now }
    {
        self.preds[block].as_slice()
    }
}
