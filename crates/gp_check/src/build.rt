//! The parts of a rule.

ghost use Rattle.std.specs.Prelude.{◌≡◌, true, false, map, IfOk};
ghost use Rattle.std.specs.List.{list_all};
ghost use Rattle.gp_syntax.specs.Declaration.{origin_in, edge_named, is_turned, rule_of};
ghost use Rattle.gp_syntax.specs.Fault.{has_no_operation, not_simple};
ghost use Rattle.gp_syntax.specs.Tree.{expression_of, node_of, edge_of, side_of, declaration_of, left_node_of, left_edge_of, right_node_of, right_edge_of, rule_of_tree};
ghost use Rattle.gp_syntax.specs.declared.tree.NodeDecl.{NodeDecl};
ghost use Rattle.gp_syntax.specs.declared.tree.EdgeDecl.{EdgeDecl};
ghost use Rattle.gp_clauses.specs.Scope.{IsScope};
ghost use Rattle.gp_check.specs.inside.Placed.{left_node_at, left_edge_at, right_node_at, right_edge_at};
ghost use Rattle.gp_check.specs.inside.Sides.{AreSides};

use crate::condition::placed_tests;
use crate::expression::{label, placed};
use crate::pattern::{edge_pattern, node_pattern};
use crate::places::{Places, edge_origin, node_origin, node_place};
use gp_clauses::{Scope, edge_named, is_among};
use gp_memory::NoMemory;
use gp_syntax::{
    Cond, EdgeDecl, Items, LeftEdge, LeftNode, MarkPattern, Name, NodeDecl, RightEdge, RightNode,
    RuleDecl, RuleParts, VariableType,
};
use gp_values::{EdgeMark, NameTable};
use std::alloc::Global;

fn left_node(
    alloc: Global,
    variables: &NameTable,
    rule: &RuleDecl,
    node: &NodeDecl,
) -> Result<LeftNode, NoMemory>
    requires { has_no_operation (expression_of node.now.label) ≡ true }
    ensures { IfOk result (λ p. left_node_of p ≡ left_node_at variables.now (declaration_of rule.now) (node_of node.now)) }
{
    let places = Places {
        variables,
        left: &rule.left,
    };
    let label = label(alloc, places, &node.label)?;
    Ok(LeftNode {
        label,
        mark: node_pattern(&node.mark),
        root: node.root,
    })
}

fn left_edge(
    alloc: Global,
    variables: &NameTable,
    rule: &RuleDecl,
    edge: &EdgeDecl,
) -> Result<LeftEdge, NoMemory>
    requires { has_no_operation (expression_of edge.now.label) ≡ true }
    ensures { IfOk result (λ p. left_edge_of p ≡ left_edge_at variables.now (declaration_of rule.now) (edge_of edge.now)) }
{
    let places = Places {
        variables,
        left: &rule.left,
    };
    let source = places.node(&edge.source)?;
    let target = places.node(&edge.target)?;
    let label = label(alloc, places, &edge.label)?;
    Ok(LeftEdge {
        source,
        target,
        label,
        mark: edge_pattern(&edge.mark),
        bidirectional: edge.bidirectional,
    })
}

// The left node of a name that the interface has.
fn origin(rule: &RuleDecl, name: &Name) -> Result<Option<u32>, NoMemory>
    ensures { IfOk result (λ o. o ≡ origin_in (declaration_of rule.now) name.now) }
{
    if is_among(rule.interface.as_slice(), name) {
        node_origin(&rule.left, name)
    } else {
        Ok(None)
    }
}

fn right_node(
    alloc: Global,
    variables: &NameTable,
    rule: &RuleDecl,
    node: &NodeDecl,
) -> Result<RightNode, NoMemory>
    ensures { IfOk result (λ q. right_node_of q ≡ right_node_at variables.now (declaration_of rule.now) (node_of node.now)) }
{
    let places = Places {
        variables,
        left: &rule.left,
    };
    let origin = origin(rule, &node.name)?;
    let label = placed(alloc, places, &node.label)?;
    Ok(RightNode {
        origin,
        label,
        mark: node_pattern(&node.mark),
        root: node.root,
    })
}

// Whether a right edge is written with the names of the left edge of its name exchanged.
fn is_turned(rule: &RuleDecl, edge: &EdgeDecl) -> bool
    ensures { result ≡ is_turned (edge_named (side_of rule.now.left).edges edge.now.name) (edge_of edge.now) }
{
    match edge_named(rule.left.edges.as_slice(), &edge.name) {
        Some(left) => {
            !(left.source.same(&edge.source) && left.target.same(&edge.target))
                && left.source.same(&edge.target)
                && left.target.same(&edge.source)
        }
        None => false,
    }
}

fn right_edge(
    alloc: Global,
    variables: &NameTable,
    rule: &RuleDecl,
    edge: &EdgeDecl,
) -> Result<RightEdge, NoMemory>
    ensures { IfOk result (λ q. right_edge_of q ≡ right_edge_at variables.now (declaration_of rule.now) (edge_of edge.now)) }
{
    let places = Places {
        variables,
        left: &rule.left,
    };
    let origin = edge_origin(&rule.left, &edge.name)?;
    let source = node_place(&rule.right, &edge.source)?;
    let target = node_place(&rule.right, &edge.target)?;
    let label = placed(alloc, places, &edge.label)?;
    Ok(RightEdge {
        origin,
        turned: is_turned(rule, edge),
        source,
        target,
        label,
        mark: edge_pattern(&edge.mark),
        bidirectional: edge.bidirectional,
    })
}

fn left_nodes(
    alloc: Global,
    variables: &NameTable,
    rule: &RuleDecl,
) -> Result<Items<LeftNode>, NoMemory>
    requires { list_all (λ (n : NodeDecl). has_no_operation (expression_of n.label)) rule.now.left.nodes ≡ true }
    ensures { IfOk result (λ ps. map left_node_of ps ≡ map (left_node_at variables.now (declaration_of rule.now)) (side_of rule.now.left).nodes) }
{
    let mut made = Items::new(alloc);
    for node in rule.left.nodes.as_slice() {
        let next = left_node(alloc, variables, rule, node)?;
        made.push(next)?;
    }
    Ok(made)
}

fn left_edges(
    alloc: Global,
    variables: &NameTable,
    rule: &RuleDecl,
) -> Result<Items<LeftEdge>, NoMemory>
    requires { list_all (λ (e : EdgeDecl). has_no_operation (expression_of e.label)) rule.now.left.edges ≡ true }
    ensures { IfOk result (λ ps. map left_edge_of ps ≡ map (left_edge_at variables.now (declaration_of rule.now)) (side_of rule.now.left).edges) }
{
    let mut made = Items::new(alloc);
    for edge in rule.left.edges.as_slice() {
        let next = left_edge(alloc, variables, rule, edge)?;
        made.push(next)?;
    }
    Ok(made)
}

fn right_nodes(
    alloc: Global,
    variables: &NameTable,
    rule: &RuleDecl,
) -> Result<Items<RightNode>, NoMemory>
    ensures { IfOk result (λ qs. map right_node_of qs ≡ map (right_node_at variables.now (declaration_of rule.now)) (side_of rule.now.right).nodes) }
{
    let mut made = Items::new(alloc);
    for node in rule.right.nodes.as_slice() {
        let next = right_node(alloc, variables, rule, node)?;
        made.push(next)?;
    }
    Ok(made)
}

fn right_edges(
    alloc: Global,
    variables: &NameTable,
    rule: &RuleDecl,
) -> Result<Items<RightEdge>, NoMemory>
    ensures { IfOk result (λ qs. map right_edge_of qs ≡ map (right_edge_at variables.now (declaration_of rule.now)) (side_of rule.now.right).edges) }
{
    let mut made = Items::new(alloc);
    for edge in rule.right.edges.as_slice() {
        let next = right_edge(alloc, variables, rule, edge)?;
        made.push(next)?;
    }
    Ok(made)
}

// The parts of a rule that stand on its sides.
struct Sides {
    left_nodes: Items<LeftNode>,
    left_edges: Items<LeftEdge>,
    right_nodes: Items<RightNode>,
    right_edges: Items<RightEdge>,
}

impl Drop for Sides {
    fn drop(self) {
        let Sides {
            left_nodes,
            left_edges,
            right_nodes,
            right_edges,
        } = self;
        drop(left_nodes);
        drop(left_edges);
        drop(right_nodes);
        drop(right_edges);
    }
}

impl Sides {
    fn with(
        self,
        name: Name,
        types: Items<VariableType>,
        condition: Option<Cond<u32, MarkPattern<EdgeMark>>>,
    ) -> RuleParts
        ensures { result ≡ record { name = name; types = types; left_nodes = self.left_nodes; left_edges = self.left_edges; right_nodes = self.right_nodes; right_edges = self.right_edges; condition = condition } }
    {
        let Sides {
            left_nodes,
            left_edges,
            right_nodes,
            right_edges,
        } = self;
        RuleParts {
            name,
            types,
            left_nodes,
            left_edges,
            right_nodes,
            right_edges,
            condition,
        }
    }
}

fn made_sides(alloc: Global, variables: &NameTable, rule: &RuleDecl) -> Result<Sides, NoMemory>
    requires { not_simple (declaration_of rule.now) ≡ false }
    ensures { IfOk result (λ s. AreSides variables.now (declaration_of rule.now) s) }
{
    let left_nodes = left_nodes(alloc, variables, rule)?;
    let left_edges = left_edges(alloc, variables, rule)?;
    let right_nodes = right_nodes(alloc, variables, rule)?;
    let right_edges = right_edges(alloc, variables, rule)?;
    Ok(Sides {
        left_nodes,
        left_edges,
        right_nodes,
        right_edges,
    })
}

/// The parts of the rule of a declaration whose left labels are simple.
pub fn parts(alloc: Global, rule: &RuleDecl, scope: Scope) -> Result<RuleParts, NoMemory>
    requires scope { IsScope (declaration_of rule.now) scope }
    requires simple { not_simple (declaration_of rule.now) ≡ false }
    ensures rule { IfOk result (λ r. rule_of_tree r ≡ rule_of (declaration_of rule.now)) }
    ensures name { IfOk result (λ r. r.name ≡ rule.now.name) }
{
    let name = rule.name.copy(alloc)?;
    let sides = made_sides(alloc, &scope.left.names, rule)?;
    let places = Places {
        variables: &scope.left.names,
        left: &rule.left,
    };
    let condition = placed_tests(alloc, places, &rule.condition)?;
    Ok(sides.with(name, scope.into_left_types(), condition))
}
