// The first order of a block, made once.

ghost use Rattle.std.specs.Prelude.{◌≡◌, map, filter, IfOk};
ghost use Rattle.std.specs.List.{All};
ghost use Rattle.ssa_ir.specs.OpKinds.{is_phi as is_phi_op};
ghost use Rattle.block_order.specs.Items.{AreInFirstOrder, IsItem};
ghost use Rattle.block_order.specs.tables.Placing as spec;
ghost use Rattle.block_order.specs.tables.Waiting as waiting;
ghost use Rattle.block_order.specs.Apart.{AreApart};

use crate::block_values::BlockValues;
use crate::selects::item_at;
use crate::waiters::Waiters;
use crate::waiting::{count_waiting, first_of, place_item, ready_set};
use gossa_base::NoMemory;
use ssa_ir::Value;
use std::alloc::Global;

/// A value of a block and, where it is a call, its selects by index: what is taken together. Each goes by its index
/// among the block's values.
#[derive(Drop)]
pub struct Item {
    pub value: usize,
    pub selects: Vec<usize>,
}

// Which of these values are phis.
fn phi_flags(alloc: Global, values: &[Value]) -> Result<Vec<bool>, NoMemory>
    ensures { IfOk result (λ flags. flags.items ≡ map (λ v. is_phi_op v.op) values.now) }
{
    let mut flags = Vec::new(alloc);
    for value in values {
        flags.push(value.op.is_phi())?;
    }
    Ok(flags)
}

// The items of the phis among these values.
fn phi_items(alloc: Global, values: &[Value]) -> Result<Vec<Item>, NoMemory>
    ensures each { IfOk result (λ items. All (IsItem values.now) items.items) }
    ensures phis { IfOk result (λ items. spec.values_of_items values.now items.items
        ≡ filter (λ v. is_phi_op v.op) values.now) }
{
    let mut items = Vec::new(alloc);
    for (index, value) in values.iter().enumerate() {
        if value.op.is_phi() {
            items.push(Item {
                value: index,
                selects: Vec::new(alloc),
            })?;
        }
    }
    Ok(items)
}

// The items of a block, of which these are placed, in first order: each time the first of those that may come next.
fn go_on(
    alloc: Global,
    values: &[Value],
    waiters: &Waiters,
    mut placed: Vec<bool>,
    mut counts: Vec<usize>,
    mut items: Vec<Item>,
) -> Result<Vec<Item>, NoMemory>
    requires apart { AreApart values.now }
    requires waiters { waiting.AreWaiters values.now waiters.now }
    requires counted { waiting.AreCounts values.now placed.items counts.items }
    requires begins { spec.Begins values.now items.items placed.items }
    ensures { IfOk result (λ all. AreInFirstOrder values.now all.items) }
{
    let mut ready = ready_set(alloc, values, placed.as_slice(), counts.as_slice())?;
    while let Some(index) = first_of(&ready) {
        let item = item_at(alloc, values, index)?;
        place_item(values, waiters, &mut placed, &mut counts, &mut ready, &item)?;
        items.push(item)?;
    }
    Ok(items)
}

/// The items of a block in first order.
pub fn first_order_of(alloc: Global, values: &[Value]) -> Result<Vec<Item>, NoMemory>
    requires { AreApart values.now }
    ensures { IfOk result (λ items. AreInFirstOrder values.now items.items) }
{
    let block = BlockValues::new(alloc, values)?;
    let placed = phi_flags(alloc, values)?;
    let items = phi_items(alloc, values)?;
    let mut waiters = Waiters::none(alloc, values.len())?;
    let counts = count_waiting(alloc, &block, placed.as_slice(), &mut waiters)?;
    go_on(alloc, values, &waiters, placed, counts, items)
}
