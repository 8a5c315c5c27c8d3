// The memories of one block: whether they are a chain, and the last of them.

ghost use Rattle.std.specs.Prelude.{◌≡◌, ◌<◌, ◌||◌, [], length, filter, find, nat_eq, not, IfOk, Contains};
ghost use Rattle.std.specs.List.{list_any};
ghost use Rattle.std.specs.Option.{option_map};
ghost use Rattle.gossa_base.specs.declared.ids.ValueId.{ValueId as IrValueId};
ghost use Rattle.indexmap.specs.IndexMap.{insert_all};
ghost use Rattle.ssa_check.specs.CalleeCheck as callee;
ghost use Rattle.ssa_check.specs.tables.ChainLinks as links;
ghost use Rattle.ssa_check.specs.tables.ChainTables.{LeavesOf};
ghost use Rattle.ssa_ir.specs.MemoryChains as spec;

use crate::memories::Leaves;
use gossa_base::{NoMemory, ValueId};
use indexmap::{IndexMap, IndexSet};
use ssa_ir::{Block, Op, Value, op_row};
use ssa_tables::FuncTables;
use std::alloc::Global;

/// An inner definer of a block, and the memory that it takes.
#[derive(Clone, Copy, Debug, PartialEq, Eq)]
pub struct Link {
    pub id: ValueId,
    pub taken: Option<ValueId>,
}

/// Whether a value is a phi of memories.
pub(crate) fn is_memory_phi(value: &Value) -> bool
    ensures { result ≡ spec.is_memory_phi value.now }
{
    value.op.is_phi() && value.is_memory()
}

fn is_store(op: Op) -> bool
    ensures { result ≡ spec.is_store op }
{
    op_row(op).makes_mem && !op.is_init()
}

/// Whether a value takes one memory and leaves another: a store, or the select of a call's memory.
pub(crate) fn is_inner(value: &Value) -> bool
    ensures { result ≡ spec.is_inner value.now }
{
    is_store(value.op) || (value.op.is_select() && value.is_memory())
}

fn begins_memory(value: &Value) -> bool
    ensures { result ≡ spec.begins_memory value.now }
{
    value.op.is_init() || is_memory_phi(value)
}

fn is_definer(value: &Value) -> bool
    ensures { result ≡ spec.is_definer value.now }
{
    begins_memory(value) || is_inner(value)
}

/// The memory that a value takes to read or change it; a select takes that of its call.
pub(crate) fn taken_by(tables: &FuncTables, value: &Value) -> Option<ValueId>
    ensures { result ≡ spec.taken_by tables.now value.now }
{
    if !value.op.is_select() {
        return value.memory_taken();
    }
    let Some(id) = value.args.as_slice().first() else {
        return None;
    };
    match tables.value(*id) {
        Some(call) => call.memory_taken(),
        None => None,
    }
}

// Whether some value is a definer.
fn has_definer(values: &[Value]) -> bool
    ensures { result ≡ list_any spec.is_definer values.now }
{
    for value in values {
        if is_definer(value) {
            return true;
        }
    }
    false
}

// How many memory phis there are.
fn memory_phis(values: &[Value]) -> usize
    ensures { result ≡ length (filter spec.is_memory_phi values.now) }
{
    let mut phis = 0;
    for value in values {
        if is_memory_phi(value) {
            phis += 1;
        }
    }
    phis
}

// The first of the definers with which a block can begin.
fn first_memory(values: &[Value]) -> Option<ValueId>
    ensures { result ≡ option_map (λ v. v.id) (find spec.begins_memory values.now) }
{
    for value in values {
        if begins_memory(value) {
            return Some(value.id);
        }
    }
    None
}

// The inner definers, in text order.
fn inner_links(alloc: Global, tables: &FuncTables, values: &[Value]) -> Result<Vec<Link>, NoMemory>
    ensures { IfOk result (λ found. found.items ≡ links.links_of tables.now values.now) }
{
    let mut found = Vec::new(alloc);
    for value in values {
        if is_inner(value) {
            found.push(Link {
                id: value.id,
                taken: taken_by(tables, value),
            })?;
        }
    }
    Ok(found)
}

// The numbers of the memories that are taken.
fn taken_numbers(alloc: Global, found: &[Link]) -> Result<IndexSet<u32>, NoMemory>
    ensures { IfOk result (λ numbers. (id : IrValueId)
        → list_any (nat_eq id.0) numbers.keys ≡ links.is_taken id found.now) }
{
    let mut numbers = IndexSet::new(alloc);
    for link in found {
        if let Some(memory) = link.taken {
            numbers.insert(memory.0)?;
        }
    }
    Ok(numbers)
}

// The first whose number isn't among these.
fn first_free(found: &[Link], numbers: &IndexSet<u32>) -> Option<ValueId>
    ensures { result ≡ option_map (λ l. l.id) (find (λ l. not (list_any (nat_eq l.id.0) numbers.now.keys)) found.now) }
{
    for link in found {
        if !numbers.contains(&link.id.0) {
            return Some(link.id);
        }
    }
    None
}

// What each takes, by its number.
fn taken_by_number(
    alloc: Global,
    found: &[Link],
) -> Result<IndexMap<u32, Option<ValueId>>, NoMemory>
    ensures { IfOk result (λ taken. taken.entries ≡ insert_all nat_eq [] (links.taken_pairs found.now)) }
{
    let mut taken = IndexMap::new(alloc);
    for link in found {
        taken.insert(link.id.0, link.taken)?;
    }
    Ok(taken)
}

// The one that another takes.
fn link_before(taken: &IndexMap<u32, Option<ValueId>>, id: ValueId) -> Option<ValueId>
    ensures { result ≡ links.link_before taken.now.entries id }
{
    let Some(Some(memory)) = taken.get(&id.0).copied() else {
        return None;
    };
    if taken.get(&memory.0).is_some() {
        return Some(memory);
    }
    None
}

// Whether just so many steps back lead to one that takes no other.
fn ends_after(taken: &IndexMap<u32, Option<ValueId>>, last: ValueId, steps: usize) -> bool
    ensures { result ≡ links.ends_after taken.now.entries steps last }
{
    let mut id = last;
    for _ in 0..steps {
        match link_before(taken, id) {
            Some(before) => id = before,
            None => return false,
        }
    }
    link_before(taken, id).is_none()
}

// The last, where they are a chain.
fn chain_end(alloc: Global, found: &[Link]) -> Result<Option<ValueId>, NoMemory>
    requires { 0 < length found.now }
    ensures { IfOk result (λ last. last ≡ links.chain_end found.now) }
{
    let numbers = taken_numbers(alloc, found)?;
    let Some(last) = first_free(found, &numbers) else {
        return Ok(None);
    };
    let taken = taken_by_number(alloc, found)?;
    if ends_after(&taken, last, found.len() - 1) {
        return Ok(Some(last));
    }
    Ok(None)
}

fn leaves(last: Option<ValueId>) -> Leaves
    ensures { result ≡ links.leaves_by last }
{
    match last {
        Some(id) => Leaves::Known(id),
        None => Leaves::Unknown,
    }
}

/// What a block leaves of the memory that comes to it.
pub(crate) fn block_leaves(
    alloc: Global,
    tables: &FuncTables,
    block: &Block,
) -> Result<Leaves, NoMemory>
    requires of_block { Contains tables.now.blocks block.now }
    ensures { IfOk result (LeavesOf tables.now block.now) }
{
    let _well_formed = tables.func();
    let values = block.values.as_slice();
    if !has_definer(values) {
        return Ok(Leaves::Through);
    }
    if memory_phis(values) > 1 {
        return Ok(Leaves::Unknown);
    }
    let found = inner_links(alloc, tables, values)?;
    if found.is_empty() {
        return Ok(leaves(first_memory(values)));
    }
    Ok(leaves(chain_end(alloc, found.as_slice())?))
}
