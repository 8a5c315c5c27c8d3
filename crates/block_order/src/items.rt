// The items of a block and the edges between them: what its values wait for. An item goes by the index of its first
// value.

ghost use Rattle.std.specs.Prelude.{◌≡◌, ◌<◌, ◌+◌, ◌^◌, ◌++◌, length, nat_eq, IfOk, OnOk};
ghost use Rattle.indexmap.specs.IndexMap.{get};
ghost use Rattle.gossa_base.specs.declared.ids.ValueId.{ValueId as IrValueId};
ghost use Rattle.block_order.specs.LowestOnCycle.{HasItems, IsLeast, IsOnCycle};
ghost use Rattle.block_order.specs.tables.ItemGraph as spec;

use crate::block_values::BlockValues;
use gossa_base::{NoMemory, ValueId};
use graphs::{Edge, Named, lowest_on_loop};
use indexmap::IndexMap;
use ssa_ir::Value;
use std::alloc::Global;

// The index of the first value that takes each memory, by the memory's number.
fn first_takers(alloc: Global, values: &[Value]) -> Result<IndexMap<u32, usize>, NoMemory>
    ensures { IfOk result (λ firsts. (m : IrValueId) → get nat_eq firsts m.0 ≡ spec.first_taker values.now m) }
{
    let mut firsts = IndexMap::new(alloc);
    for (index, value) in values.iter().enumerate() {
        if let Some(memory) = value.memory_taken() {
            if firsts.get(&memory.0).is_none() {
                firsts.insert(memory.0, index)?;
            }
        }
    }
    Ok(firsts)
}

// The index of the call that a select of these arguments names, where it stands in the block.
fn call_named(block: &BlockValues, args: &[ValueId]) -> Option<usize>
    ensures { result ≡ spec.call_named block.now args.now }
{
    let Some(first) = args.first() else {
        return None;
    };
    let Some(index) = block.index_of(*first) else {
        return None;
    };
    match block.value(index) {
        Some(value) if value.op.is_call() => Some(index),
        _ => None,
    }
}

// The item of the value at this index.
fn owner_of(block: &BlockValues, index: usize, value: &Value) -> Option<usize>
    ensures { result ≡ spec.owner_of block.now index value.now }
{
    if value.op.is_phi() {
        return None;
    }
    if value.op.is_select() {
        return match call_named(block, value.args.as_slice()) {
            Some(call) => Some(call),
            None => Some(index),
        };
    }
    Some(index)
}

// The item of the value of this number, where it stands in the block.
fn owner(block: &BlockValues, id: ValueId) -> Option<usize>
    ensures { result ≡ spec.owner block.now id }
{
    let Some(index) = block.index_of(id) else {
        return None;
    };
    match block.value(index) {
        Some(value) => owner_of(block, index, value),
        None => None,
    }
}

// Puts the edges to an item of these arguments.
fn put_arg_edges(
    edges: &mut Vec<Edge>,
    block: &BlockValues,
    index: usize,
    args: &[ValueId],
) -> Result<(), NoMemory>
    ensures { OnOk result (edges.new.items ≡ edges.old.items ++ spec.arg_edges block.now index args.now) }
{
    for arg in args {
        if let Some(owner) = owner(block, *arg) {
            edges.push(Edge {
                source: owner,
                target: index,
            })?;
        }
    }
    Ok(())
}

// Puts the edges between an item and the memory that it reads or changes.
fn put_memory_edges(
    edges: &mut Vec<Edge>,
    values: &[Value],
    firsts: &IndexMap<u32, usize>,
    index: usize,
    value: &Value,
) -> Result<(), NoMemory>
    requires firsts { (m : IrValueId) → get nat_eq firsts.now m.0 ≡ spec.first_taker values.now m }
    requires fits { length values.now + length values.now < 2 ^ 64 }
    ensures { OnOk result (edges.new.items ≡ edges.old.items ++ spec.memory_edges values.now index value.now) }
{
    let Some(memory) = value.memory_taken() else {
        return Ok(());
    };
    let Some(first) = firsts.get(&memory.0).copied() else {
        return Ok(());
    };
    let node = values.len() + first;
    if value.op.reads_memory() {
        edges.push(Edge {
            source: index,
            target: node,
        })?;
    }
    if value.op.changes_memory() {
        edges.push(Edge {
            source: node,
            target: index,
        })?;
    }
    Ok(())
}

// Whether the value at this index is the first of its item.
fn leads(block: &BlockValues, index: usize, value: &Value) -> bool
    ensures { result ≡ spec.leads block.now index value.now }
{
    match owner_of(block, index, value) {
        Some(owner) => owner == index,
        None => false,
    }
}

// Puts the edges that the value at this index gives.
fn put_edges(
    edges: &mut Vec<Edge>,
    block: &BlockValues,
    firsts: &IndexMap<u32, usize>,
    index: usize,
    value: &Value,
) -> Result<(), NoMemory>
    requires firsts { (m : IrValueId) → get nat_eq firsts.now m.0 ≡ spec.first_taker block.now m }
    requires fits { length block.now + length block.now < 2 ^ 64 }
    ensures { OnOk result (edges.new.items ≡ edges.old.items ++ spec.value_edges block.now index value.now) }
{
    if !leads(block, index, value) {
        return Ok(());
    }
    put_arg_edges(edges, block, index, value.args.as_slice())?;
    put_memory_edges(edges, block.values(), firsts, index, value)
}

// The edges between the items of the block.
fn block_edges(alloc: Global, block: &BlockValues) -> Result<Vec<Edge>, NoMemory>
    requires { length block.now + length block.now < 2 ^ 64 }
    ensures { IfOk result (λ edges. edges.items ≡ spec.block_edges block.now) }
{
    let values = block.values();
    let firsts = first_takers(alloc, values)?;
    let mut edges = Vec::new(alloc);
    for (index, value) in values.iter().enumerate() {
        put_edges(&mut edges, block, &firsts, index, value)?;
    }
    Ok(edges)
}

// The numbers of the values of each item.
fn block_names(alloc: Global, block: &BlockValues) -> Result<Vec<Named>, NoMemory>
    ensures { IfOk result (λ names. names.items ≡ spec.block_names block.now) }
{
    let mut names = Vec::new(alloc);
    let values = block.values();
    for (index, value) in values.iter().enumerate() {
        if let Some(owner) = owner_of(block, index, value) {
            names.push(Named {
                node: owner,
                number: value.id.0,
            })?;
        }
    }
    Ok(names)
}

/// The lowest number of the values of a block that are on a cycle: that wait for each other in a circle.
pub fn lowest_on_cycle(alloc: Global, values: &[Value]) -> Result<Option<u32>, NoMemory>
    requires has_items { HasItems values.now }
    requires fits { length values.now + length values.now < 2 ^ 64 }
    ensures { IfOk result (λ lowest. IsLeast lowest (IsOnCycle values.now)) }
{
    let nodes = values.len() + values.len();
    let block = BlockValues::new(alloc, values)?;
    let edges = block_edges(alloc, &block)?;
    let names = block_names(alloc, &block)?;
    match lowest_on_loop(alloc, nodes, edges.as_slice(), names.as_slice())? {
        Some(lowest) => Ok(Some(lowest.number)),
        None => Ok(None),
    }
}
