//! What is counted.

ghost use Rattle.std.specs.Prelude.{◌≡◌, false, is_some};
ghost use Rattle.std.specs.Option.{option_map_or};
ghost use Rattle.gp_values.specs.Graph.{node_at, edge_at};
ghost use Rattle.gp_cli.specs.Summary.{same_mark, edge_count, marked_count};

use gp_graph::Graph;
use gp_values::NodeMark;

// Whether a node of this number is there, with the mark.
fn has_mark(graph: &Graph, n: u64, mark: NodeMark) -> bool
    ensures { result ≡ option_map_or (λ x. same_mark x.mark mark) (node_at graph.now.graph n) false }
{
    match graph.node(n) {
        Some((_, found, _)) => found == mark,
        None => false,
    }
}

/// How many nodes have the mark.
pub(crate) fn count_marked(graph: &Graph, mark: NodeMark) -> u64
    ensures { result ≡ marked_count mark graph.now.graph }
{
    let numbers = graph.next_numbers();
    let mut count = 0;
    for n in 0..numbers.0 {
        if has_mark(graph, n, mark) {
            count += 1;
        }
    }
    count
}

// Whether an edge of this number is there.
fn has_edge(graph: &Graph, e: u64) -> bool
    ensures { result ≡ is_some (edge_at graph.now.graph e) }
{
    graph.edge(e).is_some()
}

/// How many edges there are.
pub(crate) fn count_edges(graph: &Graph) -> u64
    ensures { result ≡ edge_count graph.now.graph }
{
    let numbers = graph.next_numbers();
    let mut count = 0;
    for e in 0..numbers.1 {
        if has_edge(graph, e) {
            count += 1;
        }
    }
    count
}
