//! The assignment of a match.

ghost use Rattle.std.specs.Prelude.{◌≡◌, ◌∷◌, [], length, map, All, IfOk};
ghost use Rattle.std.specs.Option.{option_copied, option_map};
ghost use Rattle.gp_values.specs.Graph.{node_at, edge_at};
ghost use Rattle.gp_syntax.specs.Simple.{IsSimple};
ghost use Rattle.gp_syntax.specs.Tree.{label_of, rule_of_tree};
ghost use Rattle.gp_syntax.specs.Typing.{type_in};
ghost use Rattle.gp_syntax.specs.WellFormed.{IsWellFormed, left_labels};
ghost use Rattle.gp_unify.specs.Extension.{AreKnown, known_of};
ghost use Rattle.gp_unify.specs.Matched.{MayFit, IsThatOfMatch};
ghost use Rattle.gp_unify.specs.Candidate.{node_labels, edge_labels, found_labels};
ghost use Rattle.gp_unify.specs.inside.Reading.{TellsAll};
ghost use Rattle.gp_unify.specs.Unify.{unify_all};

use crate::unifier::{Unified, unify};
use gp_graph::Graph;
use gp_memory::NoMemory;
use gp_syntax::{Assignment, EdgeImage, Found, LeftEdge, LeftNode, Rule, RuleParts, SimpleLabel};
use gp_values::List;
use std::alloc::Global;

/// The one assignment by which the labels of the left side are those at the images, if there is one. It takes any
/// numbers, also of nodes and edges that are not there.
pub fn assignment_of(
    alloc: Global,
    rule: &Rule,
    graph: &Graph,
    found: &Found,
) -> Result<Option<Assignment>, NoMemory>
    ensures fits { IfOk result (λ o. MayFit o (rule_of_tree rule.now) graph.now.graph found.now) }
    ensures of_match { IfOk result (λ o. IsThatOfMatch o (rule_of_tree rule.now) graph.now.graph found.now) }
{
    assignment_by(alloc, rule.parts(), graph, found)
}

/// The same, of the parts of a rule.
pub fn assignment_by(
    alloc: Global,
    parts: &RuleParts,
    graph: &Graph,
    found: &Found,
) -> Result<Option<Assignment>, NoMemory>
    requires { IsWellFormed (rule_of_tree parts.now) }
    ensures fits { IfOk result (λ o. MayFit o (rule_of_tree parts.now) graph.now.graph found.now) }
    ensures of_match { IfOk result (λ o. IsThatOfMatch o (rule_of_tree parts.now) graph.now.graph found.now) }
{
    if parts.left_nodes.len() != found.nodes().len()
        || parts.left_edges.len() != found.edges().len()
    {
        return Ok(None);
    }
    let mut assignment = Assignment::new(alloc, parts.types.as_slice())?;
    if unify_left(alloc, parts, graph, found, &mut assignment)? {
        Ok(Some(assignment))
    } else {
        Ok(None)
    }
}

// The labels of the left side are those at the images.
fn unify_left(
    alloc: Global,
    parts: &RuleParts,
    graph: &Graph,
    found: &Found,
    assignment: &mut Assignment,
) -> Result<bool, NoMemory>
    requires well_formed { IsWellFormed (rule_of_tree parts.now) }
    requires node_count { length parts.now.left_nodes ≡ length found.now.nodes }
    requires edge_count { length parts.now.left_edges ≡ length found.now.edges }
    requires types { assignment.old.types ≡ parts.now.types }
    ensures { TellsAll result (unify_all (type_in parts.now.types) (left_labels (rule_of_tree parts.now)) (found_labels graph.now.graph found.now) (known_of assignment.old)) assignment.old assignment.new }
{
    if !unify_nodes(
        alloc,
        parts.left_nodes.as_slice(),
        found.nodes(),
        graph,
        assignment,
    )? {
        return Ok(false);
    }
    unify_edges(
        alloc,
        parts.left_edges.as_slice(),
        found.edges(),
        graph,
        assignment,
    )
}

// The labels of left nodes are those at their images.
fn unify_nodes(
    alloc: Global,
    nodes: &[LeftNode],
    images: &[u64],
    graph: &Graph,
    assignment: &mut Assignment,
) -> Result<bool, NoMemory>
    requires count { length nodes.now ≡ length images.now }
    requires known { All (λ p. AreKnown (length assignment.old.types) (label_of p.label)) nodes.now }
    requires simple { All (λ p. IsSimple (type_in assignment.old.types) (label_of p.label)) nodes.now }
    ensures told { TellsAll result (unify_all (type_in assignment.old.types) (map (λ p. label_of p.label) nodes.now) (node_labels graph.now.graph images.now) (known_of assignment.old)) assignment.old assignment.new }
{
    'nodes: for i in 0..nodes.len() {
        let image = node_label(graph, images[i]);
        if !unify_image(alloc, &nodes[i].label, image, assignment)? {
            return Ok(false);
        }
    }
    Ok(true)
}

// The labels of left edges are those at their images.
fn unify_edges(
    alloc: Global,
    edges: &[LeftEdge],
    images: &[EdgeImage],
    graph: &Graph,
    assignment: &mut Assignment,
) -> Result<bool, NoMemory>
    requires count { length edges.now ≡ length images.now }
    requires known { All (λ p. AreKnown (length assignment.old.types) (label_of p.label)) edges.now }
    requires simple { All (λ p. IsSimple (type_in assignment.old.types) (label_of p.label)) edges.now }
    ensures told { TellsAll result (unify_all (type_in assignment.old.types) (map (λ p. label_of p.label) edges.now) (edge_labels graph.now.graph (map (λ i. i.number) images.now)) (known_of assignment.old)) assignment.old assignment.new }
{
    'edges: for i in 0..edges.len() {
        let image = edge_label(graph, images[i].number());
        if !unify_image(alloc, &edges[i].label, image, assignment)? {
            return Ok(false);
        }
    }
    Ok(true)
}

// The label of a node, if there is one of that number.
fn node_label(graph: &Graph, n: u64) -> Option<&List>
    ensures { option_copied result ≡ option_map (λ x. x.label) (node_at graph.now.graph n) }
{
    match graph.node(n) {
        Some((label, _, _)) => Some(label),
        None => None,
    }
}

// The label of an edge, if there is one of that number.
fn edge_label(graph: &Graph, e: u64) -> Option<&List>
    ensures { option_copied result ≡ option_map (λ d. d.label) (edge_at graph.now.graph e) }
{
    match graph.edge(e) {
        Some((_, _, label, _)) => Some(label),
        None => None,
    }
}

// A label has what was found as its value, if something was.
fn unify_image(
    alloc: Global,
    label: &SimpleLabel,
    found: Option<&List>,
    assignment: &mut Assignment,
) -> Result<bool, NoMemory>
    requires known { AreKnown (length assignment.old.types) (label_of label.now) }
    requires simple { IsSimple (type_in assignment.old.types) (label_of label.now) }
    ensures { TellsAll result (unify_all (type_in assignment.old.types) (label_of label.now ∷ []) (option_copied found.entry ∷ []) (known_of assignment.old)) assignment.old assignment.new }
{
    let Some(list) = found else {
        return Ok(false);
    };
    match unify(alloc, label, list, assignment) {
        Unified::Yes => Ok(true),
        Unified::No => Ok(false),
        Unified::NoMemory => Err(NoMemory),
    }
}
