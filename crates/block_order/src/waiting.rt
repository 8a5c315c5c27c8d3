// What of a block is still to be placed: for how many each value waits, and which may come next.

ghost use Rattle.std.specs.Prelude.{◌≡◌, ℕ, ◌+◌, ◌-◌, ◌==◌, ◌<◌, ◌≤◌, ◌↔◌, IsTrue, true, false, [], length, map};
ghost use Rattle.std.specs.Prelude.{replicate, slice_index, slice_set, IfOk, OnOk};
ghost use Rattle.std.specs.List.{All};
ghost use Rattle.block_order.specs.tables.Dependencies as graph;
ghost use Rattle.block_order.specs.tables.Placing as placing;
ghost use Rattle.block_order.specs.tables.Waiting as spec;

use crate::block_values::BlockValues;
use crate::dependencies::dependencies;
use crate::kinds::is_other;
use crate::order::Item;
use crate::waiters::Waiters;
use gossa_base::NoMemory;
use ssa_ir::Value;
use std::alloc::Global;
use std::collections::BTreeSet;

// The flag at an index.
fn is_at(flags: &[bool], index: usize) -> bool
    ensures { result ≡ graph.is_at flags.now index }
{
    match flags.get(index) {
        Some(flag) => *flag,
        None => false,
    }
}

// How many of these aren't placed.
fn unplaced(placed: &[bool], indexes: &[usize]) -> usize
    ensures { result ≡ spec.unplaced placed.now indexes.now }
{
    let mut count = 0;
    for index in indexes {
        if !is_at(placed, *index) {
            count += 1;
        }
    }
    count
}

/// For how many each value waits; notes who waits for whom.
pub(crate) fn count_waiting(
    alloc: Global,
    block: &BlockValues,
    placed: &[bool],
    waiters: &mut Waiters,
) -> Result<Vec<usize>, NoMemory>
    requires { waiters.old ≡ replicate (length block.now) [] }
    ensures waiters { OnOk result (spec.AreWaiters block.now waiters.new) }
    ensures counts { IfOk result (λ counts. counts.items ≡ map
        (λ v. spec.unplaced placed.now (graph.dependencies block.now v)) block.now) }
{
    let mut counts = Vec::new(alloc);
    let values = block.values();
    for (index, value) in values.iter().enumerate() {
        let awaited = dependencies(alloc, block, value)?;
        waiters.put_all(index, awaited.as_slice())?;
        counts.push(unplaced(placed, awaited.as_slice()))?;
    }
    Ok(counts)
}

// Whether the value at an index has still to be placed as an item and waits for none.
fn may_start(values: &[Value], placed: &[bool], counts: &[usize], index: usize) -> bool
    ensures { result ≡ spec.may_start values.now placed.now counts.now index }
{
    match values.get(index) {
        Some(value) => is_open(placed, index, value) && waits_for_none(counts, index),
        None => false,
    }
}

// Whether the count at an index is 0, or there is none.
fn waits_for_none(counts: &[usize], index: usize) -> bool
    ensures { result ≡ (slice_index counts.now index == 0) }
{
    match counts.get(index) {
        Some(count) => *count == 0,
        None => true,
    }
}

// Whether the value at an index has still to be placed as an item.
fn is_open(placed: &[bool], index: usize, value: &Value) -> bool
    ensures { result ≡ placing.is_open placed.now index value.now }
{
    is_other(value) && !is_at(placed, index)
}

/// The indexes of those that may come next.
pub(crate) fn ready_set(
    alloc: Global,
    values: &[Value],
    placed: &[bool],
    counts: &[usize],
) -> Result<BTreeSet<usize>, NoMemory>
    ensures { IfOk result (spec.AreReady values.now placed.now counts.now) }
{
    let mut ready = BTreeSet::new(alloc);
    for index in 0..values.len() {
        if may_start(values, placed, counts, index) {
            ready.insert(index)?;
        }
    }
    Ok(ready)
}

/// The first of those that may come next.
pub(crate) fn first_of(ready: &BTreeSet<usize>) -> Option<usize>
    ensures { spec.IsFirst ready.now result }
{
    ready.first().copied()
}

// One that a value waits for is placed.
fn release(
    values: &[Value],
    placed: &[bool],
    counts: &mut Vec<usize>,
    ready: &mut BTreeSet<usize>,
    waiter: usize,
) -> Result<(), NoMemory>
    requires within { waiter < length counts.old.items }
    requires some { 0 < slice_index counts.old.items waiter }
    requires ready { spec.AreReady values.now placed.now counts.old.items ready.old }
    ensures counts { OnOk result (counts.new.items ≡ slice_set counts.old.items waiter
        (slice_index counts.old.items waiter - 1)) }
    ensures ready { OnOk result (spec.AreReady values.now placed.now counts.new.items ready.new) }
{
    counts[waiter] -= 1;
    if may_start(values, placed, counts.as_slice(), waiter) {
        ready.insert(waiter)?;
    }
    Ok(())
}

// All that wait for a value that is placed now are told.
fn release_all(
    values: &[Value],
    placed: &[bool],
    counts: &mut Vec<usize>,
    ready: &mut BTreeSet<usize>,
    waiters: &[usize],
) -> Result<(), NoMemory>
    requires within { All (λ k. k < length counts.old.items) waiters.now }
    requires some { (k : ℕ) → spec.occurs k waiters.now ≤ slice_index counts.old.items k }
    requires ready { spec.AreReady values.now placed.now counts.old.items ready.old }
    ensures sized { OnOk result (length counts.new.items ≡ length counts.old.items) }
    ensures counts { OnOk result ((k : ℕ) → slice_index counts.new.items k + spec.occurs k waiters.now
        ≡ slice_index counts.old.items k) }
    ensures ready { OnOk result (spec.AreReady values.now placed.now counts.new.items ready.new) }
{
    for waiter in waiters {
        release(values, placed, counts, ready, *waiter)?;
    }
    Ok(())
}

// Sets the flag at an index, where there is one that isn't set.
fn set_flag(placed: &mut Vec<bool>, index: usize) -> bool
    ensures set { placed.new.items ≡ slice_set placed.old.items index true }
    ensures was { IsTrue result ↔ ((index < length placed.old.items) × (graph.is_at placed.old.items index ≡ false)) }
{
    match placed.get_mut(index) {
        Some(flag) if !*flag => {
            *flag = true;
            true
        }
        _ => false,
    }
}

// Places the value at an index, where it isn't placed.
fn place(
    values: &[Value],
    waiters: &Waiters,
    placed: &mut Vec<bool>,
    counts: &mut Vec<usize>,
    ready: &mut BTreeSet<usize>,
    index: usize,
) -> Result<(), NoMemory>
    requires { spec.IsWaiting values.now waiters.now placed.old.items counts.old.items ready.old }
    ensures placed { OnOk result (placed.new.items ≡ slice_set placed.old.items index true) }
    ensures waiting { OnOk result (spec.IsWaiting values.now waiters.now placed.new.items counts.new.items ready.new) }
{
    if !set_flag(placed, index) {
        return Ok(());
    }
    ready.remove(&index);
    release_all(values, placed.as_slice(), counts, ready, waiters.of(index))?;
    Ok(())
}

/// Places an item.
pub(crate) fn place_item(
    values: &[Value],
    waiters: &Waiters,
    placed: &mut Vec<bool>,
    counts: &mut Vec<usize>,
    ready: &mut BTreeSet<usize>,
    item: &Item,
) -> Result<(), NoMemory>
    requires { spec.IsWaiting values.now waiters.now placed.old.items counts.old.items ready.old }
    ensures placed { OnOk result (placed.new.items ≡ placing.place_item placed.old.items item.now) }
    ensures waiting { OnOk result (spec.IsWaiting values.now waiters.now placed.new.items counts.new.items ready.new) }
{
    place(values, waiters, placed, counts, ready, item.value)?;
    for index in &item.selects {
        place(values, waiters, placed, counts, ready, *index)?;
    }
    Ok(())
}
