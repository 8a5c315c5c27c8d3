// The blocks of a function by index: a look-up of a name takes constant time on average.

ghost use Rattle.std.specs.Prelude.{◌≡◌, IfOk};
ghost use Rattle.ssa_ir.specs.WellFormed.{WellFormedFunc};
ghost use Rattle.ssa_tables.specs.Blocks as spec;

use gossa_base::{BlockId, NoMemory};
use indexmap::IndexSet;
use ssa_ir::Func;
use std::alloc::Global;
use std::marker::Model;

/// The names of a function's blocks, in order, those on split edges too.
#[derive(Drop)]
pub struct BlockTable {
    names: IndexSet<BlockId>,
}

impl Model for BlockTable {
    ghost use Rattle.std.specs.Prelude.{List};
    ghost use Rattle.gossa_base.specs.declared.ids.BlockId.{BlockId as IrBlockId};

    ghost Value = { List IrBlockId };

    ghost view = { λ t. t.names.keys };
}

impl BlockTable {
    /// The names of the blocks of a function.
    pub fn new(alloc: Global, func: &Func) -> Result<BlockTable, NoMemory>
        requires { WellFormedFunc func.now }
        ensures { IfOk result (λ table. table ≡ spec.names_of func.now) }
    {
        let mut names = IndexSet::new(alloc);
        for block in func.blocks.as_slice() {
            names.insert(block.id)?;
        }
        Ok(BlockTable { names })
    }

    /// The index of the block of a name; how many there are where there is none.
    pub fn index(&self, id: BlockId) -> usize
        ensures { result ≡ spec.place_of self.now id }
    {
        match self.names.get_index_of(&id) {
            Some(index) => index,
            None => self.names.len(),
        }
    }

    /// The index of the block of a name in the function of this table; how many blocks it has where there is none.
    pub fn index_in(&self, func: &Func, id: BlockId) -> usize
        requires { self.now ≡ spec.names_of func.now }
        ensures { result ≡ spec.index_in func.now.blocks id }
    {
        self.index(id)
    }
}
