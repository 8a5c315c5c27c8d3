// Ranks show the lowest name on a loop by themselves, in 480 drawn graphs: no clause says it, and the search from each
// name, which takes their place where they don't, would be slow.

ghost use Rattle.std.specs.Prelude.{◌≡◌, ◌<◌, ◌≤◌};
ghost use Rattle.std.specs.List.{All};

use gossa_base::NoMemory;
use graphs::{Edge, Graph, Named, lowest_by_ranks, lowest_on_loop, ranks};
use std::alloc::Global;

// So many nodes, edges between them, and names of them.
#[derive(Drop)]
struct Drawn {
    nodes: usize,
    edges: Vec<Edge>,
    names: Vec<Named>,
    ghost some: { 1 ≤ nodes },
    ghost edges_within: { All (λ e. (e.source < nodes) × (e.target < nodes)) edges.items },
    ghost names_within: { All (λ x. x.node < nodes) names.items },
}

// The next of a row of numbers that look drawn.
fn drawn_after(number: u64) -> u64 {
    number
        .wrapping_mul(6_364_136_223_846_793_005)
        .wrapping_add(1_442_695_040_888_963_407)
}

// The upper bits of a drawn number, up to a bound.
fn drawn_below(bound: usize, number: u64) -> usize
    requires { 1 ≤ bound }
    ensures { result < bound }
{
    (number >> 33) as usize % bound
}

impl Drawn {
    fn new(alloc: Global, nodes: usize) -> Drawn
        requires { 1 ≤ nodes }
    {
        Drawn {
            nodes,
            edges: Vec::new(alloc),
            names: Vec::new(alloc),
        }
    }

    fn add_edge(&mut self, number: u64) -> Result<(), NoMemory> {
        let source = drawn_below(self.nodes, number);
        let target = drawn_below(self.nodes, drawn_after(number));
        self.edges.push(Edge { source, target })?;
        Ok(())
    }

    // So many edges.
    fn add_edges(&mut self, seed: u64, count: usize) -> Result<(), NoMemory> {
        let mut number = drawn_after(seed);
        for _ in 0..count {
            self.add_edge(number)?;
            number = drawn_after(drawn_after(number));
        }
        Ok(())
    }

    fn add_name(&mut self, number: u32) -> Result<(), NoMemory> {
        let node = number as usize % self.nodes;
        self.names.push(Named { node, number })?;
        Ok(())
    }

    // A name for each node, where there are so many.
    fn add_names(&mut self, nodes: u32) -> Result<(), NoMemory> {
        for number in 1..=nodes {
            self.add_name(number)?;
        }
        Ok(())
    }
}

#[test]
fn ranks_answer(rt: HostRuntime) {
    for nodes in 1..13 {
        assert!(rt;
            first_without(rt.alloc(), nodes) == Ok(None),
            "for {nodes} nodes"
        );
    }
}

// From how many edges on ranks don't answer for graphs of so many nodes and none to 39 drawn edges.
fn first_without(alloc: Global, nodes: u32) -> Result<Option<usize>, NoMemory>
    requires { 1 ≤ nodes }
{
    for count in 0..40 {
        let drawn = draw(alloc, count as u64, nodes, count)?;
        if !is_answered(alloc, &drawn)? {
            return Ok(Some(count));
        }
    }
    Ok(None)
}

fn draw(alloc: Global, seed: u64, nodes: u32, count: usize) -> Result<Drawn, NoMemory>
    requires { 1 ≤ nodes }
{
    let mut drawn = Drawn::new(alloc, nodes as usize);
    drawn.add_edges(seed, count)?;
    drawn.add_names(nodes)?;
    Ok(drawn)
}

fn is_answered(alloc: Global, drawn: &Drawn) -> Result<bool, NoMemory> {
    let edges = drawn.edges.as_slice();
    let graph = Graph::new(alloc, drawn.nodes, edges)?;
    let ranks = ranks(alloc, &graph, edges)?;
    Ok(lowest_by_ranks(alloc, &graph, ranks.as_slice(), drawn.names.as_slice())?.is_some())
}

#[test]
fn the_lowest_name_on_a_loop_is_told(rt: HostRuntime) {
    let edges = [edge(0, 1), edge(1, 2), edge(2, 1), edge(2, 3)];
    let names = [named(1, 7), named(2, 4), named(3, 2), named(0, 1)];
    assert!(rt; lowest_on_loop(rt.alloc(), 4, &edges, &names) == Ok(Some(named(2, 4))));
    assert!(rt; lowest_on_loop(rt.alloc(), 4, &edges[..2], &names) == Ok(None));
}

#[test]
fn edges_have_targets(rt: HostRuntime) {
    let edges = [edge(0, 1), edge(1, 2), edge(2, 1), edge(2, 3)];
    assert!(rt; has_targets(rt.alloc(), &edges) == Ok(true));
}

// Whether a graph of these four edges has four nodes, and two of them lead from node 2.
fn has_targets(alloc: Global, edges: &[Edge]) -> Result<bool, NoMemory>
    requires { All (λ e. (e.source < 4) × (e.target < 4)) edges.now }
{
    let graph = Graph::new(alloc, 4, edges)?;
    Ok(graph.len() == 4 && graph.targets(2) == [1, 3].as_slice())
}

fn edge(source: usize, target: usize) -> Edge
    ensures { result ≡ record { source = source; target = target } }
{
    Edge { source, target }
}

fn named(node: usize, number: u32) -> Named
    ensures { result ≡ record { node = node; number = number } }
{
    Named { node, number }
}
