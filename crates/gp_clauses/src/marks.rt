//! The clause on marks, and that on directions.

ghost use Rattle.std.specs.Prelude.{◌≡◌, ◌&&◌, map, codes, option_map};
ghost use Rattle.std.specs.List.{list_all};
ghost use Rattle.std.specs.Option.{option_copied};
ghost use Rattle.gp_values.specs.Names.{same_name, has_name};
ghost use Rattle.gp_values.specs.Marks.{node_mark_named, edge_mark_named};
ghost use Rattle.gp_syntax.specs.Declaration.{DeclaredNode, DeclaredEdge, edge_named};
ghost use Rattle.gp_syntax.specs.Fault.{is_any, is_node_mark, is_edge_mark, node_named, keeps_node_mark, keeps_edge_mark, marks_in_condition, has_marks, joins_the_same, keeps_direction, bad_mark, bad_bidi};
ghost use Rattle.gp_syntax.specs.Tree.{node_of, edge_of, side_of, declaration_of, condition_or_true};
ghost use Rattle.gp_clauses.specs.ConditionShapes.{named_condition};
ghost use Rattle.gp_clauses.specs.inside.Marks.{keeps_marks};

use crate::condition_shape::{ConditionShape, condition_shape_of};
use gp_syntax::{Cond, EdgeDecl, GraphDecl, Name, NodeDecl, RuleDecl};
use gp_values::{EdgeMark, NodeMark};

fn is_word(word: &Name, text: &[u8]) -> bool
    ensures { result ≡ same_name word.now text.now }
{
    word.as_bytes() == text
}

/// Whether a word is `any`.
pub fn says_any(word: &Name) -> bool
    ensures { result ≡ same_name word.now (codes "any") }
{
    is_word(word, b"any")
}

/// The mark of a node that a word names.
pub fn node_mark(word: &Name) -> Option<NodeMark>
    ensures { result ≡ node_mark_named word.now }
{
    if is_word(word, b"red") {
        Some(NodeMark::Red)
    } else if is_word(word, b"green") {
        Some(NodeMark::Green)
    } else if is_word(word, b"blue") {
        Some(NodeMark::Blue)
    } else if is_word(word, b"grey") {
        Some(NodeMark::Grey)
    } else {
        None
    }
}

/// The mark of an edge that a word names.
pub fn edge_mark(word: &Name) -> Option<EdgeMark>
    ensures { result ≡ edge_mark_named word.now }
{
    if is_word(word, b"red") {
        Some(EdgeMark::Red)
    } else if is_word(word, b"green") {
        Some(EdgeMark::Green)
    } else if is_word(word, b"blue") {
        Some(EdgeMark::Blue)
    } else if is_word(word, b"dashed") {
        Some(EdgeMark::Dashed)
    } else {
        None
    }
}

fn is_any(mark: &Option<Name>) -> bool
    ensures { result ≡ is_any mark.now }
{
    match mark {
        Some(word) => says_any(word),
        None => false,
    }
}

fn is_node_mark(mark: &Option<Name>) -> bool
    ensures { result ≡ is_node_mark mark.now }
{
    match mark {
        Some(word) => says_any(word) || node_mark(word).is_some(),
        None => true,
    }
}

fn is_edge_mark(mark: &Option<Name>) -> bool
    ensures { result ≡ is_edge_mark mark.now }
{
    match mark {
        Some(word) => says_any(word) || edge_mark(word).is_some(),
        None => true,
    }
}

/// The node of a name.
pub fn node_named<'a>(nodes: &'a [NodeDecl], name: &Name) -> Option<&'a NodeDecl>
    ensures { option_map node_of (option_copied result) ≡ node_named (map node_of nodes.now) name.now }
{
    for node in nodes {
        if name.same(&node.name) {
            return Some(node);
        }
    }
    None
}

/// The edge of a name.
pub fn edge_named<'a>(edges: &'a [EdgeDecl], name: &Name) -> Option<&'a EdgeDecl>
    ensures { option_map edge_of (option_copied result) ≡ edge_named (map edge_of edges.now) name.now }
{
    for edge in edges {
        if name.same(&edge.name) {
            return Some(edge);
        }
    }
    None
}

/// Whether a name is among some others.
pub fn is_among(names: &[Name], name: &Name) -> bool
    ensures { result ≡ has_name names.now name.now }
{
    for other in names {
        if name.same(other) {
            return true;
        }
    }
    false
}

fn has_marks(side: &GraphDecl) -> bool
    ensures { result ≡ has_marks (side_of side.now) }
{
    'nodes: for node in side.nodes.as_slice() {
        if !is_node_mark(&node.mark) {
            return false;
        }
    }
    'edges: for edge in side.edges.as_slice() {
        if !is_edge_mark(&edge.mark) {
            return false;
        }
    }
    true
}

/// Whether each mark in a condition is one of edges.
fn condition_has_marks(c: &Cond<Name, Option<Name>>) -> bool
    ensures { result ≡ list_all is_edge_mark (marks_in_condition (named_condition c.now)) }
{
    match condition_shape_of(c) {
        ConditionShape::HasEdgeWith(_, _, _, mark) => is_edge_mark(mark),
        ConditionShape::Not(part) => condition_has_marks(part),
        ConditionShape::Chain(_, first, rest) => {
            if !condition_has_marks(first) {
                return false;
            }
            'parts: for part in rest {
                if !condition_has_marks(part) {
                    return false;
                }
            }
            true
        }
        _ => true,
    }
}

fn keeps_node_mark(rule: &RuleDecl, node: &NodeDecl) -> bool
    ensures { result ≡ keeps_node_mark (declaration_of rule.now) (node_of node.now) }
{
    if !is_any(&node.mark) {
        return true;
    }
    if !is_among(rule.interface.as_slice(), &node.name) {
        return false;
    }
    match node_named(rule.left.nodes.as_slice(), &node.name) {
        Some(left) => is_any(&left.mark),
        None => false,
    }
}

fn keeps_edge_mark(rule: &RuleDecl, edge: &EdgeDecl) -> bool
    ensures { result ≡ keeps_edge_mark (declaration_of rule.now) (edge_of edge.now) }
{
    if !is_any(&edge.mark) {
        return true;
    }
    match edge_named(rule.left.edges.as_slice(), &edge.name) {
        Some(left) => is_any(&left.mark),
        None => false,
    }
}

fn keeps_marks(rule: &RuleDecl) -> bool
    ensures { result ≡ keeps_marks (declaration_of rule.now) }
{
    'nodes: for node in rule.right.nodes.as_slice() {
        if !keeps_node_mark(rule, node) {
            return false;
        }
    }
    'edges: for edge in rule.right.edges.as_slice() {
        if !keeps_edge_mark(rule, edge) {
            return false;
        }
    }
    true
}

/// Whether a word is no mark of its place, or `any` stands on the right where nothing was found by it.
pub fn bad_mark(rule: &RuleDecl) -> bool
    ensures { result ≡ bad_mark (declaration_of rule.now) }
{
    if !(has_marks(&rule.left) && has_marks(&rule.right) && keeps_marks(rule)) {
        return true;
    }
    match &rule.condition {
        Some(c) => !condition_has_marks(c),
        None => false,
    }
}

/// Whether two edges join the same two names, in either order.
pub fn joins_the_same(p: &EdgeDecl, e: &EdgeDecl) -> bool
    ensures { result ≡ joins_the_same (edge_of p.now) (edge_of e.now) }
{
    p.source.same(&e.source) && p.target.same(&e.target)
        || p.source.same(&e.target) && p.target.same(&e.source)
}

fn keeps_direction(rule: &RuleDecl, edge: &EdgeDecl) -> bool
    ensures { result ≡ keeps_direction (declaration_of rule.now) (edge_of edge.now) }
{
    if !edge.bidirectional {
        return true;
    }
    match edge_named(rule.left.edges.as_slice(), &edge.name) {
        Some(left) => left.bidirectional && joins_the_same(left, edge),
        None => false,
    }
}

/// The right edge with `(B)` whose name is no left edge with `(B)` between the same two names.
pub fn bad_bidi(rule: &RuleDecl) -> Option<&Name>
    ensures { option_copied result ≡ bad_bidi (declaration_of rule.now) }
{
    for edge in rule.right.edges.as_slice() {
        if !keeps_direction(rule, edge) {
            return Some(&edge.name);
        }
    }
    None
}
