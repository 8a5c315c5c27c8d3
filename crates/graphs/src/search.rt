// A search from a node along edges, and whether it comes back to that node.

ghost use Rattle.std.specs.Prelude.{◌≡◌, ◌<◌, ◌++◌, [], false, length, replicate, IfOk, IfSome, IfNone, OnOk, Decides};
ghost use Rattle.std.specs.Option.{option_to_list};
ghost use Rattle.std.specs.List.{All};
ghost use Rattle.graphs.specs.Graphs.{ComesBack};
ghost use Rattle.graphs.specs.Searches as spec;

use crate::graph::Graph;
use gossa_base::NoMemory;
use std::alloc::Global;
use std::marker::Model;

/// Which nodes a search has reached, and those of them whose edges it has still to follow.
#[derive(Drop)]
pub(crate) struct Search {
    seen: Vec<bool>,
    waiting: Vec<usize>,
}

impl Model for Search {
    ghost use Rattle.std.specs.Prelude.{◌<◌, length};
    ghost use Rattle.std.specs.List.{All};
    ghost use Rattle.graphs.specs.Searches.{Reached};

    ghost Value = { Reached };

    ghost view = { λ s. record { seen = s.seen.items; waiting = s.waiting.items } };

    ghost invariant = { λ s. All (λ v. v < length s.seen.items) s.waiting.items };
}

impl Search {
    /// A search in a graph of so many nodes, none of them reached.
    pub(crate) fn new(alloc: Global, nodes: usize) -> Result<Search, NoMemory>
        ensures { IfOk result (λ search. search ≡ record { seen = replicate nodes false; waiting = [] }) }
    {
        Ok(Search {
            seen: vec![in alloc; false; nodes]?,
            waiting: Vec::new(alloc),
        })
    }

    /// Reaches a node.
    pub(crate) fn reach(&mut self, node: usize) -> Result<(), NoMemory>
        requires { node < length self.old.seen }
        ensures { OnOk result (self.new ≡ spec.reach self.old node) }
    {
        if self.seen[node] {
            return Ok(());
        }
        self.waiting.push(node)?;
        self.seen[node] = true;
        Ok(())
    }

    /// Reaches all of these nodes.
    pub(crate) fn reach_all(&mut self, nodes: &[usize]) -> Result<(), NoMemory>
        requires { All (λ v. v < length self.old.seen) nodes.now }
        ensures { OnOk result (self.new ≡ spec.reach_all self.old nodes.now) }
    {
        for node in nodes {
            self.reach(*node)?;
        }
        Ok(())
    }

    /// A node whose edges are still to be followed; it waits no longer.
    pub(crate) fn next(&mut self) -> Option<usize>
        ensures taken { self.old.waiting ≡ self.new.waiting ++ option_to_list result }
        ensures ended { IfNone result (self.old.waiting ≡ []) }
        ensures seen { self.new.seen ≡ self.old.seen }
        ensures within { IfSome result (λ node. node < length self.new.seen) }
    {
        self.waiting.pop()
    }
}

/// Whether a node comes back to itself along edges.
pub(crate) fn comes_back(alloc: Global, graph: &Graph, start: usize) -> Result<bool, NoMemory>
    requires { start < length graph.now }
    ensures { IfOk result (λ back. Decides back (ComesBack graph.now start)) }
{
    let mut search = Search::new(alloc, graph.len())?;
    search.reach_all(graph.targets(start))?;
    while let Some(node) = search.next() {
        if node == start {
            return Ok(true);
        }
        search.reach_all(graph.targets(node))?;
    }
    Ok(false)
}
