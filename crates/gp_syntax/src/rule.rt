//! Checked rules.

ghost use Rattle.std.specs.Prelude.{◌≡◌};
ghost use Rattle.gp_syntax.specs.Checked.{IsChecked};
ghost use Rattle.gp_syntax.specs.Rule.{kept_edge};
ghost use Rattle.gp_syntax.specs.Rule as meant;
ghost use Rattle.gp_syntax.specs.Tree.{rule_of_tree, left_edge_of, right_edge_of};
ghost use Rattle.gp_syntax.specs.WellFormed.{IsWellFormed};

use crate::expression::{Cond, Expr};
use crate::kinds::VariableType;
use crate::label::SimpleLabel;
use crate::name::Name;
use gp_values::{EdgeMark, NodeMark};
use sqlite_items::Items;
use std::marker::Model;

/// What a rule says of a mark: which one, or any.
#[derive(Clone, Copy, PartialEq, Eq)]
pub enum MarkPattern<M> {
    Marked(M),
    Any,
}

/// A node of the left side.
#[derive(Drop)]
pub struct LeftNode {
    pub label: SimpleLabel,
    pub mark: MarkPattern<NodeMark>,
    pub root: bool,
}

/// An edge of the left side. Its ends are places of left nodes.
#[derive(Drop)]
pub struct LeftEdge {
    pub source: u32,
    pub target: u32,
    pub label: SimpleLabel,
    pub mark: MarkPattern<EdgeMark>,
    pub bidirectional: bool,
}

/// A node of the right side, with the place of the left node of its name where the interface has that name.
#[derive(Drop)]
pub struct RightNode {
    pub origin: Option<u32>,
    pub label: Expr<u32>,
    pub mark: MarkPattern<NodeMark>,
    pub root: bool,
}

/// An edge of the right side. Its ends are places of right nodes; `origin` is the place of the left edge of its name, and
/// `turned` says that it is written with that edge's two names exchanged.
#[derive(Drop)]
pub struct RightEdge {
    pub origin: Option<u32>,
    pub turned: bool,
    pub source: u32,
    pub target: u32,
    pub label: Expr<u32>,
    pub mark: MarkPattern<EdgeMark>,
    pub bidirectional: bool,
}

/// The parts of a rule, in the order of its text. The types are those of the variables of the left labels, in the order
/// of their declaration; a variable's place is its place there.
pub struct RuleParts {
    pub name: Name,
    pub types: Items<VariableType>,
    pub left_nodes: Items<LeftNode>,
    pub left_edges: Items<LeftEdge>,
    pub right_nodes: Items<RightNode>,
    pub right_edges: Items<RightEdge>,
    pub condition: Option<Cond<u32, MarkPattern<EdgeMark>>>,
}

impl Drop for RuleParts {
    fn drop(self) {
        let RuleParts {
            name,
            types,
            left_nodes,
            left_edges,
            right_nodes,
            right_edges,
            condition,
        } = self;
        drop(name);
        drop(types);
        drop(left_nodes);
        drop(left_edges);
        drop(right_nodes);
        drop(right_edges);
        drop(condition);
    }
}

impl RuleParts {
    /// The place of the left edge that this right edge keeps, or none where a step makes it anew.
    pub fn kept_edge(&self, edge: &RightEdge) -> Option<u32>
        ensures { result ≡ kept_edge (rule_of_tree self.now) (right_edge_of edge.now) }
    {
        let place = edge.origin?;
        let left = self.left_edges.as_slice().get(place as usize)?;
        if is_same_edge(self, edge, left) {
            Some(place)
        } else {
            None
        }
    }
}

// Whether the right node of the one place is the left node of the other.
fn keeps_node(parts: &RuleParts, right: u32, left: u32) -> bool
    ensures { result ≡ meant.keeps_node (rule_of_tree parts.now) right left }
{
    match parts.right_nodes.as_slice().get(right as usize) {
        Some(node) => match node.origin {
            Some(place) => place == left,
            None => false,
        },
        None => false,
    }
}

// Whether a right edge is the left edge of its name.
fn is_same_edge(parts: &RuleParts, edge: &RightEdge, left: &LeftEdge) -> bool
    ensures { result ≡ meant.is_same_edge (rule_of_tree parts.now) (right_edge_of edge.now) (left_edge_of left.now) }
{
    let (source, target) = if edge.turned {
        (left.target, left.source)
    } else {
        (left.source, left.target)
    };
    left.bidirectional == edge.bidirectional
        && (edge.bidirectional || !edge.turned)
        && keeps_node(parts, edge.source, source)
        && keeps_node(parts, edge.target, target)
}

/// A checked rule: that of a declaration without a fault. Contracts see its parts.
#[derive(Drop)]
pub struct Rule {
    parts: RuleParts,
}

impl Model for Rule {
    ghost use Rattle.gp_syntax.specs.contracts.rule.RuleParts.{the_row};
    ghost use Rattle.gp_syntax.specs.declared.rule.RuleParts.{RuleParts};

    ghost Value = { RuleParts };

    ghost coded = { the_row.coded };

    ghost use Rattle.gp_syntax.specs.Checked.{IsChecked};
    ghost use Rattle.gp_syntax.specs.Tree.{rule_of_tree};

    ghost view = { λ a. a.parts };

    ghost invariant = { λ a. IsChecked (rule_of_tree a.parts) };
}

impl Rule {
    /// The rule of these parts.
    pub fn new(parts: RuleParts) -> Rule
        requires { IsChecked (rule_of_tree parts) }
        ensures { result ≡ parts }
    {
        Rule { parts }
    }

    /// The parts.
    pub fn parts(&self) -> &RuleParts
        ensures value { result.now ≡ self.now }
        ensures checked { IsChecked (rule_of_tree self.now) }
        ensures well_formed { IsWellFormed (rule_of_tree self.now) }
    {
        &self.parts
    }
}
