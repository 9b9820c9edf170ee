//! Edges between two nodes.

ghost use Rattle.std.specs.Prelude.{◌≡◌, IsSome};
ghost use Rattle.gp_values.specs.Graph.{node_at};
ghost use Rattle.gp_syntax.specs.Tree.{pattern_of};
ghost use Rattle.gp_syntax.specs.Truth.{has_edge, has_edge_with, has_mark};
ghost use Rattle.gp_values.specs.Marks.{edge_mark_rank};
ghost use Rattle.gp_eval.specs.inside.Between.{carries};

use gp_graph::Graph;
use gp_syntax::MarkPattern;
use gp_values::{EdgeMark, List};

/// Whether some edge goes from the one node to the other.
pub fn has_edge(graph: &Graph, source: u64, target: u64) -> bool
    requires source { IsSome (node_at graph.now.graph source) }
    requires target { IsSome (node_at graph.now.graph target) }
    ensures { result ≡ has_edge graph.now.graph source target }
{
    match graph.edges_between(source, target).next() {
        Some(_) => true,
        None => false,
    }
}

/// Whether some such edge has that list as its label, and that mark.
pub fn has_edge_with(
    graph: &Graph,
    source: u64,
    target: u64,
    list: &List,
    mark: MarkPattern<EdgeMark>,
) -> bool
    requires source { IsSome (node_at graph.now.graph source) }
    requires target { IsSome (node_at graph.now.graph target) }
    ensures { result ≡ has_edge_with graph.now.graph source target list.now (pattern_of mark) }
{
    for e in graph.edges_between(source, target) {
        if carries(graph, e, list, mark) {
            return true;
        }
    }
    false
}

// Whether an edge has that list as its label, and that mark.
fn carries(graph: &Graph, e: u64, list: &List, mark: MarkPattern<EdgeMark>) -> bool
    ensures { result ≡ carries graph.now.graph list.now (pattern_of mark) e }
{
    match graph.edge(e) {
        Some((_, _, label, found)) => *label == *list && has_mark(mark, found),
        None => false,
    }
}

// Whether a pattern agrees with a mark.
fn has_mark(mark: MarkPattern<EdgeMark>, found: EdgeMark) -> bool
    ensures { result ≡ has_mark (pattern_of mark) found }
{
    match mark {
        MarkPattern::Marked(mark) => rank_of(mark) == rank_of(found),
        MarkPattern::Any => true,
    }
}

// The place of a mark in its list.
fn rank_of(mark: EdgeMark) -> u8
    ensures { result ≡ edge_mark_rank mark }
{
    match mark {
        EdgeMark::None => 0,
        EdgeMark::Red => 1,
        EdgeMark::Green => 2,
        EdgeMark::Blue => 3,
        EdgeMark::Dashed => 4,
    }
}
