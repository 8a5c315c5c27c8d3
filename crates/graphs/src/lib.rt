//! Graphs over numbered nodes: which nodes come back to themselves along edges, and the lowest of their names.
//!
//! Method. A graph has for each node the nodes to which it has an edge. Whether one node comes back to itself is a
//! search from it. The lowest name of all that do is found by ranks: a walk in depth first, and then searches against
//! the edges from the node left last to the one left first, give the nodes that lead to each other the same rank, and
//! no edge leads to a lower one (Kosaraju's way to strongly connected components). A node comes back only where an
//! edge of it stays within its rank. Both are tested, the order of ranks edge by edge, and the lowest name with such
//! an edge by one search; so what is answered rests on no fact about the walk.
//!
//! ```text
//! nodes 0 1 2 3      edges 0 -> 1, 1 -> 2, 2 -> 1, 2 -> 3      names v7 of 1, v4 of 2, v2 of 3
//! ranks 1 2 2 4      edges within a rank: 1 -> 2, 2 -> 1       lowest on a loop: v4
//! ```
//!
//! It takes edges and names whose nodes are below the count of nodes, and leaves them as they are. Nodes and edges may
//! be as many as memory has room for.
//!
//! Known limits: that ranks always show the answer is tried on drawn graphs and isn't proved; where they didn't, the
//! search from each name would take their place, in a time that grows with names times edges.
#![tactic(auto)]

pub mod graph;
pub mod loops;
pub mod ranking;
mod search;

pub use graph::{Edge, Graph};
pub use loops::{Named, lowest_by_ranks, lowest_on_loop};
pub use ranking::ranks;
