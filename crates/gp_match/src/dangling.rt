//! Edges that would dangle, told by counting.

ghost use Rattle.std.specs.Prelude.{◌≡◌, ◌<◌, length, IsSome};
ghost use Rattle.gp_values.specs.Graph.{node_at, edge_at};
ghost use Rattle.gp_syntax.specs.Rule.{is_origin};
ghost use Rattle.gp_eval.specs.Answer.{AreNodes};
ghost use Rattle.gp_match.specs.Stands.{has_end, count_at, counts, is_kept_by, none_dangles, numbers_of};

use gp_graph::Graph;
use gp_syntax::{EdgeImage, RightNode};

/// Whether at each image outside the interface there are no edges but those of the match.
pub(crate) fn none_dangles(
    right: &[RightNode],
    nodes: &[u64],
    images: &[EdgeImage],
    graph: &Graph,
) -> bool
    requires { AreNodes graph.now.graph nodes.now }
    ensures { result ≡ none_dangles graph.now.graph right.now nodes.now (numbers_of images.now) }
{
    'nodes: for i in 0..nodes.len() {
        if !is_kept(right, i) && !counts(graph, nodes[i], images) {
            return false;
        }
    }
    true
}

/// Whether the interface has the left node of this place.
pub fn is_kept(right: &[RightNode], i: usize) -> bool
    ensures { result ≡ is_kept_by right.now i }
{
    'origins: for node in right {
        if is_origin(node.origin, i) {
            return true;
        }
    }
    false
}

fn is_origin(origin: Option<u32>, i: usize) -> bool
    ensures { result ≡ is_origin i origin }
{
    match origin {
        Some(k) => k as usize == i,
        None => false,
    }
}

// Whether as many edges of the match end and begin at a node as edges of the graph.
fn counts(graph: &Graph, n: u64, images: &[EdgeImage]) -> bool
    requires { IsSome (node_at graph.now.graph n) }
    ensures { result ≡ counts graph.now.graph n (numbers_of images.now) }
{
    let (ending, beginning) = graph.degrees(n);
    count_at(graph, true, n, images) == ending && count_at(graph, false, n, images) == beginning
}

// How many edges of the match end at a node, or begin there.
fn count_at(graph: &Graph, ending: bool, n: u64, images: &[EdgeImage]) -> u64
    ensures { result ≡ count_at graph.now.graph ending n (numbers_of images.now) }
{
    let mut count = 0;
    'images: for image in images {
        if has_end(graph, ending, n, image.number()) {
            count += 1;
        }
    }
    count
}

fn has_end(graph: &Graph, ending: bool, n: u64, e: u64) -> bool
    ensures { result ≡ has_end ending n (edge_at graph.now.graph e) }
{
    match graph.edge(e) {
        Some((source, target, _, _)) => { if ending { target == n } else { source == n } }
        None => false,
    }
}
