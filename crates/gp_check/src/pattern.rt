//! What the words of marks say.

ghost use Rattle.std.specs.Prelude.{◌≡◌};
ghost use Rattle.gp_syntax.specs.Declaration.{node_mark_of, edge_mark_of};
ghost use Rattle.gp_syntax.specs.Tree.{pattern_of};

use gp_clauses::{edge_mark, node_mark, says_any};
use gp_syntax::{MarkPattern, Name};
use gp_values::{EdgeMark, NodeMark};

/// The mark of a node that is written, none where none is, or any.
pub fn node_pattern(mark: &Option<Name>) -> MarkPattern<NodeMark>
    ensures { pattern_of result ≡ node_mark_of mark.now }
{
    match mark {
        Some(word) if says_any(word) => MarkPattern::Any,
        Some(word) => MarkPattern::Marked(node_mark(word).unwrap_or(NodeMark::None)),
        None => MarkPattern::Marked(NodeMark::None),
    }
}

/// The mark of an edge that is written, none where none is, or any.
pub fn edge_pattern(mark: &Option<Name>) -> MarkPattern<EdgeMark>
    ensures { pattern_of result ≡ edge_mark_of mark.now }
{
    match mark {
        Some(word) if says_any(word) => MarkPattern::Any,
        Some(word) => MarkPattern::Marked(edge_mark(word).unwrap_or(EdgeMark::None)),
        None => MarkPattern::Marked(EdgeMark::None),
    }
}
