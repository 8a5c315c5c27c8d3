// A function made ready to run.

ghost use Rattle.std.specs.Prelude.{◌≡◌, ℕ, None, Some, map, slice_get, slice_index_or, IfOk};
ghost use Rattle.std.specs.List.{position_or_len};
ghost use Rattle.ssa_ir.specs.declared.func.Block.{Block as IrBlock};
ghost use Rattle.ssa_ir.specs.Edges.{same_block, times_before, place_of_time};
ghost use Rattle.ssa_ir.specs.WellFormed.{WellFormedFunc};
ghost use Rattle.ssa_tables.specs.Blocks.{names_of};
ghost use Rattle.ssa_meaning.specs.tables.Ready.{LeadsTo, IsReadyBlock, IsReady};
ghost use Rattle.block_order.specs.Apart.{AreApart};

use block_order::{Item, first_order_of};
use gossa_base::{BlockId, NoMemory};
use ssa_ir::{Block, Func};
use ssa_tables::BlockTable;
use std::alloc::Global;

/// Where an edge goes: the index of the block that it comes to, and its number, from 0, among the predecessors of that
/// block.
#[derive(Clone, Copy, Debug, PartialEq, Eq)]
pub struct Way {
    pub block: usize,
    pub edge: usize,
}

/// A block made ready: its items in first order, and the way to each of its successors.
#[derive(Drop)]
pub struct ReadyBlock {
    pub items: Vec<Item>,
    pub ways: Vec<Option<Way>>,
}

/// The blocks of a function made ready, in order.
#[derive(Drop)]
pub struct ReadyFunc {
    pub blocks: Vec<ReadyBlock>,
}

// How often a block stands among the first of these, so many as are asked for.
fn times_before(ids: &[BlockId], len: usize, id: BlockId) -> usize
    ensures { result ≡ times_before ids.now len id }
{
    let mut times = 0;
    let mut index = 0;
    while index < len && index < ids.len() {
        if ids[index] == id {
            times += 1;
        }
        index += 1;
    }
    times
}

// The place at which a block stands among these behind so many times; how many there are where it doesn't.
fn place_of_time(ids: &[BlockId], id: BlockId, times: usize) -> usize
    ensures { result ≡ place_of_time ids.now id times }
{
    let mut left = times;
    let mut place = 0;
    while place < ids.len() && (ids[place] != id || left > 0) {
        if ids[place] == id {
            left -= 1;
        }
        place += 1;
    }
    place
}

// The way to a successor of a block, which stands at this place among its successors.
fn way_to(table: &BlockTable, func: &Func, source: &Block, place: usize, id: BlockId) -> Option<Way>
    requires table { table.now ≡ names_of func.now }
    requires stands { slice_get source.now.succs place ≡ Some id }
    ensures { LeadsTo func.now source.now place result }
{
    let block = table.index(id);
    let Some(target) = func.blocks.as_slice().get(block) else {
        return None;
    };
    let times = times_before(source.succs.as_slice(), place, target.id);
    let edge = place_of_time(target.preds.as_slice(), source.id, times);
    Some(Way { block, edge })
}

// The ways to all successors of a block, in order.
fn ways_of(
    alloc: Global,
    table: &BlockTable,
    func: &Func,
    source: &Block,
) -> Result<Vec<Option<Way>>, NoMemory>
    requires { table.now ≡ names_of func.now }
    ensures { IfOk result (λ ways. (j : ℕ) → LeadsTo func.now source.now j (slice_index_or ways.items j None)) }
{
    let mut ways = Vec::new(alloc);
    for (place, id) in source.succs.as_slice().iter().enumerate() {
        ways.push(way_to(table, func, source, place, *id))?;
    }
    Ok(ways)
}

// A block of a function made ready.
fn ready_block(
    alloc: Global,
    table: &BlockTable,
    func: &Func,
    block: &Block,
) -> Result<ReadyBlock, NoMemory>
    requires table { table.now ≡ names_of func.now }
    requires apart { AreApart block.now.values }
    ensures { IfOk result (λ ready. IsReadyBlock func.now block.now ready) }
{
    let items = first_order_of(alloc, block.values.as_slice())?;
    let ways = ways_of(alloc, table, func, block)?;
    Ok(ReadyBlock { items, ways })
}

impl ReadyFunc {
    /// A function made ready.
    pub(crate) fn new(alloc: Global, func: &Func) -> Result<ReadyFunc, NoMemory>
        requires { WellFormedFunc func.now }
        ensures { IfOk result (λ ready. IsReady func.now ready) }
    {
        let table = BlockTable::new(alloc, func)?;
        let mut blocks = Vec::new(alloc);
        for block in func.blocks.as_slice() {
            blocks.push(ready_block(alloc, &table, func, block)?)?;
        }
        Ok(ReadyFunc { blocks })
    }
}
