//! What the right labels of rules are worth at a match, and what their conditions are.

ghost use Rattle.std.specs.Prelude.{length, All};
ghost use Rattle.gp_syntax.specs.Assigned.{IsWhole};
ghost use Rattle.gp_syntax.specs.Step.{right_labels};
ghost use Rattle.gp_syntax.specs.Tree.{condition_or_true, expression_of, pattern_of, rule_of_tree};
ghost use Rattle.gp_syntax.specs.WellFormed.{IsConditionWithin, IsWithin, IsWellFormed};
ghost use Rattle.gp_eval.specs.Answer.{AreNodes};

use crate::rules::cases::{case_at, put_label};
use gp_eval::{Valued, holds, value};
use gp_graph::Graph;
use gp_rows::Answer;
use gp_syntax::{Assignment, Cond, Found, MarkPattern, RightNode, RuleParts};
use gp_unify::assignment_by;
use gp_values::EdgeMark;
use std::alloc::Global;

/// What the condition of a rule is at a match, where it has one, and else the values of its right nodes' labels: a rule, a
/// host, and the images.
pub(crate) fn answer(alloc: Global, fields: &[&[u8]], out: &mut Answer) {
    match case_at(alloc, fields, 0) {
        Ok(case) => worth_of(alloc, case.rule.parts(), &case.graph, &case.found, out),
        Err(wrong) => out.wrong(wrong),
    }
}

// By the one assignment that the labels at the images leave.
fn worth_of(alloc: Global, parts: &RuleParts, graph: &Graph, found: &Found, out: &mut Answer)
    requires { IsWellFormed (rule_of_tree parts.now) }
{
    // Reads the edges too, so that what the type of a match says is known of both.
    let _ = found.edges();
    match assignment_by(alloc, parts, graph, found) {
        Ok(Some(assignment)) => worth_by(alloc, parts, graph, found.nodes(), &assignment, out),
        Ok(None) => out.word(b"labels that do not fit"),
        Err(error) => out.debug(&error),
    }
}

// By these values and images.
fn worth_by(
    alloc: Global,
    parts: &RuleParts,
    graph: &Graph,
    nodes: &[u64],
    assignment: &Assignment,
    out: &mut Answer,
)
    requires condition { IsConditionWithin (length assignment.now.types) (length nodes.now) (condition_or_true pattern_of parts.now.condition) }
    requires labels { All (IsWithin (length assignment.now.types) (length nodes.now)) (right_labels (rule_of_tree parts.now)) }
    requires whole { IsWhole assignment.now }
    requires nodes { AreNodes graph.now.graph nodes.now }
{
    if parts.condition.is_some() {
        put_truth(alloc, &parts.condition, assignment, nodes, graph, out);
    } else {
        let right = parts.right_nodes.as_slice();
        put_values(alloc, right, assignment, nodes, graph, out);
    }
}

// Whether the condition holds, or why that cannot be said.
fn put_truth(
    alloc: Global,
    condition: &Option<Cond<u32, MarkPattern<EdgeMark>>>,
    assignment: &Assignment,
    nodes: &[u64],
    graph: &Graph,
    out: &mut Answer,
)
    requires within { IsConditionWithin (length assignment.now.types) (length nodes.now) (condition_or_true pattern_of condition.now) }
    requires whole { IsWhole assignment.now }
    requires nodes { AreNodes graph.now.graph nodes.now }
{
    if let Some(condition) = condition {
        match holds(alloc, condition, assignment, nodes, graph) {
            Valued::Value(truth) => out.show(&truth),
            Valued::NoValue(kind) => out.debug(&kind),
            Valued::NoMemory => out.word(b"NoMemory"),
        }
    }
}

// The values of the labels with a bar between each two; in place of one that has none stands why.
fn put_values(
    alloc: Global,
    right: &[RightNode],
    assignment: &Assignment,
    nodes: &[u64],
    graph: &Graph,
    out: &mut Answer,
)
    requires within { All (λ q. IsWithin (length assignment.now.types) (length nodes.now) (expression_of q.label)) right.now }
    requires whole { IsWhole assignment.now }
    requires nodes { AreNodes graph.now.graph nodes.now }
{
    'labels: for node in right {
        out.word_if(!out.text().is_empty(), b"|");
        match value(alloc, &node.label, assignment, nodes, graph) {
            Valued::Value(list) => put_label(alloc, &list, out),
            Valued::NoValue(kind) => out.debug(&kind),
            Valued::NoMemory => out.word(b"NoMemory"),
        }
    }
}
