// Graphs over numbered nodes: for each node those to which it has an edge.

ghost use Rattle.std.specs.Prelude.{◌≡◌, ◌<◌, [], length, replicate, IfOk, OnOk};
ghost use Rattle.std.specs.List.{All};
ghost use Rattle.graphs.specs.Graphs as spec;

use gossa_base::NoMemory;
use std::alloc::Global;
use std::marker::Model;

/// An edge between two nodes.
#[derive(Clone, Copy, Debug, PartialEq, Eq)]
pub struct Edge {
    pub source: usize,
    pub target: usize,
}

/// A graph over the nodes below its length: for each those to which it has an edge.
#[derive(Drop)]
pub struct Graph {
    targets: Vec<Vec<usize>>,
}

impl Model for Graph {
    ghost use Rattle.std.specs.Prelude.{ℕ, ◌<◌, List, length, map};
    ghost use Rattle.std.specs.List.{All};

    ghost Value = { List (List ℕ) };

    ghost view = { λ g. map (λ nodes. nodes.items) g.targets.items };

    ghost invariant = { λ g. All (λ nodes. All (λ v. v < length g.targets.items) nodes.items) g.targets.items };
}

impl Graph {
    /// The graph of so many nodes, without edges.
    fn without_edges(alloc: Global, nodes: usize) -> Result<Graph, NoMemory>
        ensures { IfOk result (λ graph. graph ≡ replicate nodes []) }
    {
        let mut targets = Vec::new(alloc);
        for _ in 0..nodes {
            targets.push(Vec::new(alloc))?;
        }
        Ok(Graph { targets })
    }

    /// How many nodes there are.
    pub fn len(&self) -> usize
        ensures { result ≡ length self.now }
    {
        self.targets.len()
    }

    /// The nodes to which a node has an edge.
    pub fn targets(&self, node: usize) -> &[usize]
        requires { node < length self.now }
        ensures value { result.now ≡ spec.targets self.now node }
        ensures within { All (λ v. v < length self.now) result.now }
    {
        self.targets[node].as_slice()
    }

    fn add(&mut self, edge: Edge) -> Result<(), NoMemory>
        requires source { edge.source < length self.old }
        requires target { edge.target < length self.old }
        ensures { OnOk result (self.new ≡ spec.with_edge self.old edge) }
    {
        self.targets[edge.source].push(edge.target)?;
        Ok(())
    }

    /// The graph of so many nodes and these edges.
    pub fn new(alloc: Global, nodes: usize, edges: &[Edge]) -> Result<Graph, NoMemory>
        requires { All (λ e. (e.source < nodes) × (e.target < nodes)) edges.now }
        ensures graph { IfOk result (λ graph. graph ≡ spec.graph_of nodes edges.now) }
        ensures nodes { IfOk result (λ graph. length graph ≡ nodes) }
    {
        let mut graph = Graph::without_edges(alloc, nodes)?;
        for edge in edges {
            graph.add(*edge)?;
        }
        Ok(graph)
    }
}
