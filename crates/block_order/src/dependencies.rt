// What the values of a block wait for, by index.

ghost use Rattle.std.specs.Prelude.{◌≡◌, ◌++◌, filter_map, IfOk, OnOk};
ghost use Rattle.block_order.specs.tables.Dependencies as spec;

use crate::block_values::BlockValues;
use gossa_base::{NoMemory, ValueId};
use ssa_ir::{Value, same_memory};
use std::alloc::Global;

// Puts the indexes of those of these arguments that stand in the block.
fn put_args(found: &mut Vec<usize>, block: &BlockValues, args: &[ValueId]) -> Result<(), NoMemory>
    ensures { OnOk result (found.new.items ≡ found.old.items ++ filter_map (spec.index_of block.now) args.now) }
{
    for arg in args {
        if let Some(index) = block.index_of(*arg) {
            found.push(index)?;
        }
    }
    Ok(())
}

// Whether a value reads the memory that another takes.
fn reads_memory_of(taker: &Value, reader: &Value) -> bool
    ensures { result ≡ spec.reads_memory_of taker.now reader.now }
{
    reader.op.reads_memory() && same_memory(reader.memory_taken(), taker.memory_taken())
}

// Puts the indexes of the readers of the memory that a value takes.
fn put_readers(found: &mut Vec<usize>, values: &[Value], taker: &Value) -> Result<(), NoMemory>
    ensures { OnOk result (found.new.items ≡ found.old.items ++ spec.reader_indexes values.now taker.now) }
{
    for (index, value) in values.iter().enumerate() {
        if reads_memory_of(taker, value) {
            found.push(index)?;
        }
    }
    Ok(())
}

/// What a value waits for.
pub(crate) fn dependencies(
    alloc: Global,
    block: &BlockValues,
    value: &Value,
) -> Result<Vec<usize>, NoMemory>
    ensures { IfOk result (λ found. found.items ≡ spec.dependencies block.now value.now) }
{
    let mut found = Vec::new(alloc);
    put_args(&mut found, block, value.args.as_slice())?;
    if value.op.changes_memory() {
        put_readers(&mut found, block.values(), value)?;
    }
    Ok(found)
}
