// The edges between blocks.

ghost use Rattle.std.specs.Prelude.{◌≡◌, ◌++◌, MatchOption, IfOk, OnOk};
ghost use Rattle.std.specs.List.Sorted.{IsPermutation, IsSorted};
ghost use Rattle.ssa_ir.specs.declared.func.SsaUnit.{SsaUnit as IrUnit};
ghost use Rattle.ssa_ir.specs.WellFormed.{WellFormedFunc};
ghost use Rattle.ssa_check.specs.declared.refusal.Check.TheVariants as check;
ghost use Rattle.ssa_check.specs.tables.EdgeTables as spec;
ghost use Rattle.ssa_check.specs.Failing.{Meets, LeastPlace};

use crate::lowest::place_of_block;
use crate::refusal::At;
use gossa_base::NoMemory;
use ssa_ir::{Block, Func};
use std::alloc::Global;

// An edge, by the numbers of its blocks. Edges are ordered by their targets, and then by their sources.
#[derive(Clone, Copy, PartialEq, Eq, PartialOrd, Ord)]
struct Edge {
    target: u32,
    source: u32,
}

// Puts the edges to a block's successors behind others.
fn push_outgoing(edges: &mut Vec<Edge>, block: &Block) -> Result<(), NoMemory>
    ensures { OnOk result (edges.new.items ≡ edges.old.items ++ spec.outgoing block.now) }
{
    for successor in block.succs.as_slice() {
        edges.push(Edge {
            target: successor.n,
            source: block.id.n,
        })?;
    }
    Ok(())
}

// Puts the edges from a block's predecessors behind others.
fn push_incoming(edges: &mut Vec<Edge>, block: &Block) -> Result<(), NoMemory>
    ensures { OnOk result (edges.new.items ≡ edges.old.items ++ spec.incoming block.now) }
{
    for predecessor in block.preds.as_slice() {
        edges.push(Edge {
            target: block.id.n,
            source: predecessor.n,
        })?;
    }
    Ok(())
}

// The edges that blocks list with their successors.
fn all_outgoing(alloc: Global, func: &Func) -> Result<Vec<Edge>, NoMemory>
    ensures { IfOk result (λ edges. edges.items ≡ spec.all_outgoing func.now) }
{
    let mut edges = Vec::new(alloc);
    for block in func.blocks.as_slice() {
        push_outgoing(&mut edges, block)?;
    }
    Ok(edges)
}

// The edges that blocks list with their predecessors.
fn all_incoming(alloc: Global, func: &Func) -> Result<Vec<Edge>, NoMemory>
    ensures { IfOk result (λ edges. edges.items ≡ spec.all_incoming func.now) }
{
    let mut edges = Vec::new(alloc);
    for block in func.blocks.as_slice() {
        push_incoming(&mut edges, block)?;
    }
    Ok(edges)
}

// The same edges, in order.
fn sorted(edges: Vec<Edge>) -> Vec<Edge>
    ensures permutation { IsPermutation edges.items result.items }
    ensures sorted { IsSorted spec.edge_cmp result.items }
{
    let mut edges = edges;
    edges.sort_unstable();
    edges
}

// How many edges two lists begin with alike.
fn common_len(left: &[Edge], right: &[Edge]) -> usize
    ensures { result ≡ spec.common_len left.now right.now }
{
    let mut len = 0;
    while len < left.len() && len < right.len() && left[len] == right[len] {
        len += 1;
    }
    len
}

// The lower target of two edges, where they are there.
fn lower_target(left: Option<Edge>, right: Option<Edge>) -> Option<u32>
    ensures { result ≡ spec.lower_target left right }
{
    match (left, right) {
        (Some(a), Some(b)) if b.target < a.target => Some(b.target),
        (Some(a), _) => Some(a.target),
        (None, Some(b)) => Some(b.target),
        (None, None) => None,
    }
}

// The lowest target of an edge that doesn't stand in both lists equally often, of two lists in order.
fn first_difference(left: &[Edge], right: &[Edge]) -> Option<u32>
    ensures { result ≡ spec.first_difference left.now right.now }
{
    let len = common_len(left, right);
    lower_target(left.get(len).copied(), right.get(len).copied())
}

// The least block at which the check Edges fails.
pub(crate) fn edges_fault(alloc: Global, func: &Func) -> Result<Option<At>, NoMemory>
    requires { WellFormedFunc func.now }
    ensures { (u : IrUnit) → IfOk result (λ found. MatchOption found (Meets check.Edges u func.now)
        (LeastPlace check.Edges u func.now)) }
{
    let outgoing = sorted(all_outgoing(alloc, func)?);
    let incoming = sorted(all_incoming(alloc, func)?);
    Ok(place_of_block(first_difference(outgoing.as_slice(), incoming.as_slice())))
}
