// The lowest name of the nodes of a graph that come back to themselves along edges.

ghost use Rattle.std.specs.Prelude.{◌≡◌, ◌<◌, Decides, length, IfOk, Option, Some};
ghost use Rattle.std.specs.List.{All, list_all};
ghost use Rattle.graphs.specs.Graphs.{graph_of};
ghost use Rattle.graphs.specs.Loops as spec;
ghost use Rattle.graphs.specs.Ranks as order;

use crate::graph::{Edge, Graph};
use crate::ranking::ranks;
use crate::search::comes_back;
use gossa_base::NoMemory;
use std::alloc::Global;

/// A number that belongs to a node.
#[derive(Clone, Copy, Debug, PartialEq, Eq)]
pub struct Named {
    pub node: usize,
    pub number: u32,
}

// The lower of a name and what is there, by their numbers.
fn lower(before: Option<Named>, name: Named) -> Option<Named>
    ensures { result ≡ spec.lower_named before name }
{
    match before {
        Some(lowest) if lowest.number <= name.number => Some(lowest),
        _ => Some(name),
    }
}

// Whether none of these nodes has a rank below this one.
fn none_below(ranks: &[usize], rank: usize, nodes: &[usize]) -> bool
    requires { All (λ v. v < length ranks.now) nodes.now }
    ensures { result ≡ list_all (order.is_at_or_above ranks.now rank) nodes.now }
{
    for node in nodes {
        if ranks[*node] < rank {
            return false;
        }
    }
    true
}

// Whether one of these nodes has this rank.
fn some_at(ranks: &[usize], rank: usize, nodes: &[usize]) -> bool
    requires { All (λ v. v < length ranks.now) nodes.now }
    ensures { result ≡ order.some_at ranks.now rank nodes.now }
{
    for node in nodes {
        if ranks[*node] == rank {
            return true;
        }
    }
    false
}

// Whether no edge leads to a lower rank.
fn is_ordered(graph: &Graph, ranks: &[usize]) -> bool
    requires { length ranks.now ≡ length graph.now }
    ensures { Decides result (order.IsOrdered graph.now ranks.now) }
{
    for node in 0..graph.len() {
        if !none_below(ranks, ranks[node], graph.targets(node)) {
            return false;
        }
    }
    true
}

// The lowest of the names whose node has an edge within its rank.
fn lowest_staying(graph: &Graph, ranks: &[usize], names: &[Named]) -> Option<Named>
    requires ranked { length ranks.now ≡ length graph.now }
    requires nodes { All (λ x. x.node < length graph.now) names.now }
    ensures { result ≡ spec.lowest_staying graph.now ranks.now names.now }
{
    let mut lowest = None;
    for name in names {
        if some_at(ranks, ranks[name.node], graph.targets(name.node)) {
            lowest = lower(lowest, *name);
        }
    }
    lowest
}

// The lowest of the names whose nodes come back to themselves, by a search from each.
fn lowest_by_trial(alloc: Global, graph: &Graph, names: &[Named]) -> Result<Option<Named>, NoMemory>
    requires { All (λ x. x.node < length graph.now) names.now }
    ensures { IfOk result (spec.LeastOnLoop graph.now names.now) }
{
    let mut lowest = None;
    for name in names {
        if comes_back(alloc, graph, name.node)? {
            lowest = lower(lowest, *name);
        }
    }
    Ok(lowest)
}

/// The lowest of the names whose nodes come back to themselves, where ranks show it: no edge leads to a lower rank,
/// and the lowest name with an edge within its rank comes back.
pub fn lowest_by_ranks(
    alloc: Global,
    graph: &Graph,
    ranks: &[usize],
    names: &[Named],
) -> Result<Option<Option<Named>>, NoMemory>
    requires ranked { length ranks.now ≡ length graph.now }
    requires nodes { All (λ x. x.node < length graph.now) names.now }
    ensures exact { IfOk result (spec.Shown graph.now ranks.now names.now) }
    ensures least { IfOk result (λ shown. (lowest : Option Named) → shown ≡ Some lowest
        → spec.LeastOnLoop graph.now names.now lowest) }
{
    if !is_ordered(graph, ranks) {
        return Ok(None);
    }
    let Some(lowest) = lowest_staying(graph, ranks, names) else {
        return Ok(Some(None));
    };
    if comes_back(alloc, graph, lowest.node)? {
        return Ok(Some(Some(lowest)));
    }
    Ok(None)
}

/// The lowest of the names whose nodes come back to themselves along these edges. Nodes that lead to each other get
/// the same rank, so ranks show it in a time that grows with nodes and edges; the search from each name is for ranks
/// that don't.
pub fn lowest_on_loop(
    alloc: Global,
    nodes: usize,
    edges: &[Edge],
    names: &[Named],
) -> Result<Option<Named>, NoMemory>
    requires edges { All (λ e. (e.source < nodes) × (e.target < nodes)) edges.now }
    requires names { All (λ x. x.node < nodes) names.now }
    ensures { IfOk result (spec.LeastOnLoop (graph_of nodes edges.now) names.now) }
{
    let graph = Graph::new(alloc, nodes, edges)?;
    let ranks = ranks(alloc, &graph, edges)?;
    if let Some(lowest) = lowest_by_ranks(alloc, &graph, ranks.as_slice(), names)? {
        return Ok(lowest);
    }
    lowest_by_trial(alloc, &graph, names)
}
