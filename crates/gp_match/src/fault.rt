//! Right labels without a value.

ghost use Rattle.std.specs.Prelude.{◌≡◌, length, map, All};
ghost use Rattle.gp_syntax.specs.Assigned.{IsWhole};
ghost use Rattle.gp_syntax.specs.Step.{first_fault, right_labels};
ghost use Rattle.gp_syntax.specs.Tree.{expression_of, rule_of_tree};
ghost use Rattle.gp_syntax.specs.WellFormed.{IsWithin};
ghost use Rattle.gp_eval.specs.Answer.{AreNodes, setting};
ghost use Rattle.gp_match.specs.inside.Faults.{Faults};

use gp_eval::{Valued, has_value};
use gp_graph::Graph;
use gp_syntax::{Assignment, RightEdge, RightNode, RuleParts};
use std::alloc::Global;

/// Whether each right label has a value, and if not, why the first has none: those of nodes before those of edges.
pub(crate) fn right_faults(
    alloc: Global,
    parts: &RuleParts,
    assignment: &Assignment,
    nodes: &[u64],
    graph: &Graph,
) -> Valued<()>
    requires within { All (IsWithin (length assignment.now.types) (length nodes.now)) (right_labels (rule_of_tree parts.now)) }
    requires whole { IsWhole assignment.now }
    requires nodes { AreNodes graph.now.graph nodes.now }
    ensures { Faults result (first_fault (right_labels (rule_of_tree parts.now)) (setting assignment.now nodes.now graph.now.graph)) }
{
    match node_faults(
        alloc,
        parts.right_nodes.as_slice(),
        assignment,
        nodes,
        graph,
    ) {
        Valued::Value(()) => edge_faults(
            alloc,
            parts.right_edges.as_slice(),
            assignment,
            nodes,
            graph,
        ),
        Valued::NoValue(kind) => Valued::NoValue(kind),
        Valued::NoMemory => Valued::NoMemory,
    }
}

fn node_faults(
    alloc: Global,
    right: &[RightNode],
    assignment: &Assignment,
    nodes: &[u64],
    graph: &Graph,
) -> Valued<()>
    requires within { All (λ q. IsWithin (length assignment.now.types) (length nodes.now) (expression_of q.label)) right.now }
    requires whole { IsWhole assignment.now }
    requires nodes { AreNodes graph.now.graph nodes.now }
    ensures { Faults result (first_fault (map (λ q. expression_of q.label) right.now) (setting assignment.now nodes.now graph.now.graph)) }
{
    'labels: for node in right {
        match has_value(alloc, &node.label, assignment, nodes, graph) {
            Valued::Value(_) => {}
            Valued::NoValue(kind) => return Valued::NoValue(kind),
            Valued::NoMemory => return Valued::NoMemory,
        }
    }
    Valued::Value(())
}

fn edge_faults(
    alloc: Global,
    right: &[RightEdge],
    assignment: &Assignment,
    nodes: &[u64],
    graph: &Graph,
) -> Valued<()>
    requires within { All (λ q. IsWithin (length assignment.now.types) (length nodes.now) (expression_of q.label)) right.now }
    requires whole { IsWhole assignment.now }
    requires nodes { AreNodes graph.now.graph nodes.now }
    ensures { Faults result (first_fault (map (λ q. expression_of q.label) right.now) (setting assignment.now nodes.now graph.now.graph)) }
{
    'labels: for edge in right {
        match has_value(alloc, &edge.label, assignment, nodes, graph) {
            Valued::Value(_) => {}
            Valued::NoValue(kind) => return Valued::NoValue(kind),
            Valued::NoMemory => return Valued::NoMemory,
        }
    }
    Valued::Value(())
}
