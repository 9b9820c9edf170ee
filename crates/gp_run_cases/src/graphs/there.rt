//! What is there in a graph, and what may be put there.

ghost use Rattle.std.specs.Prelude.{◌≡◌, ◌↔◌, ◌<◌, ◌-◌, IsTrue, IsSome, None};
ghost use Rattle.gp_values.specs.Graph.{HasNoEdges, node_at, edge_at};

use gp_graph::Graph;
use gp_memory::NoMemory;
use gp_values::{Atom, List};
use std::alloc::Global;

/// The list of a number.
pub(crate) fn label(alloc: Global, number: u64) -> Result<List, NoMemory> {
    let mut list = List::new(alloc);
    list.push(Atom::of_integer(i128::from(number)))?;
    Ok(list)
}

/// The number that a list is.
pub(crate) fn number_in(list: &List) -> Option<u64> {
    match list.atoms() {
        [Atom::Int(number)] => u64::try_from(number.get()).ok(),
        _ => None,
    }
}

/// Whether a node has this number.
pub(crate) fn has_node(graph: &Graph, n: u64) -> bool
    ensures { IsTrue result ↔ IsSome (node_at graph.now.graph n) }
{
    graph.node(n).is_some()
}

/// Whether an edge has this number.
pub(crate) fn has_edge(graph: &Graph, e: u64) -> bool
    ensures { IsTrue result ↔ IsSome (edge_at graph.now.graph e) }
{
    graph.edge(e).is_some()
}

/// Whether a node can be put at a number.
pub(crate) fn is_vacant_node(graph: &Graph, n: u64) -> bool
    ensures below { IsTrue result → n < graph.now.graph.next_node }
    ensures vacant { IsTrue result → node_at graph.now.graph n ≡ None }
{
    let (next_node, _) = graph.next_numbers();
    match graph.node(n) {
        Some(_) => false,
        None => n < next_node,
    }
}

/// Whether an edge can be put at a number.
pub(crate) fn is_vacant_edge(graph: &Graph, e: u64) -> bool
    ensures below { IsTrue result → e < graph.now.graph.next_edge }
    ensures vacant { IsTrue result → edge_at graph.now.graph e ≡ None }
{
    let (_, next_edge) = graph.next_numbers();
    match graph.edge(e) {
        Some(_) => false,
        None => e < next_edge,
    }
}

/// Whether the next number of a node can be lowered.
pub(crate) fn ends_with_no_node(graph: &Graph) -> bool
    ensures some { IsTrue result → 0 < graph.now.graph.next_node }
    ensures vacant { IsTrue result → node_at graph.now.graph (graph.now.graph.next_node - 1) ≡ None }
{
    let (next_node, _) = graph.next_numbers();
    if next_node == 0 {
        return false;
    }
    match graph.node(next_node - 1) {
        Some(_) => false,
        None => true,
    }
}

/// Whether the next number of an edge can be lowered.
pub(crate) fn ends_with_no_edge(graph: &Graph) -> bool
    ensures some { IsTrue result → 0 < graph.now.graph.next_edge }
    ensures vacant { IsTrue result → edge_at graph.now.graph (graph.now.graph.next_edge - 1) ≡ None }
{
    let (_, next_edge) = graph.next_numbers();
    if next_edge == 0 {
        return false;
    }
    match graph.edge(next_edge - 1) {
        Some(_) => false,
        None => true,
    }
}

/// Whether no edge is at a node.
pub(crate) fn is_free(graph: &Graph, n: u64) -> bool
    requires { IsSome (node_at graph.now.graph n) }
    ensures { IsTrue result → HasNoEdges graph.now.graph n }
{
    graph.out_edges(n).next().is_none() && graph.in_edges(n).next().is_none()
}
