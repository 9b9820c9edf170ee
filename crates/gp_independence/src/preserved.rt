//! Nodes that the step of a match leaves as they are.

ghost use Rattle.std.specs.Prelude.{◌≡◌, ◌<◌, length, All, IfOk};
ghost use Rattle.std.specs.Bool.{Decides};
ghost use Rattle.std.specs.Option.{option_copied};
ghost use Rattle.gp_syntax.specs.Assigned.{IsWhole};
ghost use Rattle.gp_syntax.specs.Rule.{is_origin};
ghost use Rattle.gp_syntax.specs.Step.{Applies};
ghost use Rattle.gp_syntax.specs.Tree.{rule_of_tree, expression_of, pattern_of};
ghost use Rattle.gp_syntax.specs.WellFormed.{IsWithin};
ghost use Rattle.gp_eval.specs.Answer.{AreNodes, setting};
ghost use Rattle.gp_match.specs.Tests.{node_mark_rank, agrees};
ghost use Rattle.gp_independence.specs.inside.Shared.{PreservesAmong};
ghost use Rattle.gp_independence.specs.inside.Tests.{says_again, right_of, is_preserved, all_preserved};

use gp_eval::{Valued, value};
use gp_graph::Graph;
use gp_memory::NoMemory;
use gp_syntax::{Assignment, Found, MarkPattern, RightNode, Rule};
use gp_unify::assignment_of;
use gp_values::NodeMark;
use std::alloc::Global;

/// Whether the step of a match preserves each image of a left node that is one of these.
pub(crate) fn preserves_among(
    alloc: Global,
    rule: &Rule,
    graph: &Graph,
    found: &Found,
    others: &[u64],
) -> Result<bool, NoMemory>
    requires { Applies (rule_of_tree rule.now) graph.now.graph found.now }
    ensures { IfOk result (λ b. Decides b (PreservesAmong (rule_of_tree rule.now) graph.now.graph found.now others.now)) }
{
    let _sound = graph.next_numbers();
    let right = rule.parts().right_nodes.as_slice();
    let Some(assignment) = assignment_of(alloc, rule, graph, found)? else {
        unreachable!()
    };
    all_preserved(alloc, right, found.nodes(), graph, &assignment, others)
}

fn all_preserved(
    alloc: Global,
    right: &[RightNode],
    nodes: &[u64],
    graph: &Graph,
    assignment: &Assignment,
    others: &[u64],
) -> Result<bool, NoMemory>
    requires within { All (λ q. IsWithin (length assignment.now.types) (length nodes.now) (expression_of q.label)) right.now }
    requires whole { IsWhole assignment.now }
    requires nodes { AreNodes graph.now.graph nodes.now }
    ensures { IfOk result (λ b. b ≡ all_preserved (setting assignment.now nodes.now graph.now.graph) right.now others.now) }
{
    'nodes: for place in 0..nodes.len() {
        if others.contains(&nodes[place])
            && !is_preserved(alloc, right, nodes, graph, assignment, place)?
        {
            return Ok(false);
        }
    }
    Ok(true)
}

// Whether the left node of this place is in the interface, and its image is written again.
fn is_preserved(
    alloc: Global,
    right: &[RightNode],
    nodes: &[u64],
    graph: &Graph,
    assignment: &Assignment,
    place: usize,
) -> Result<bool, NoMemory>
    requires place { place < length nodes.now }
    requires within { All (λ q. IsWithin (length assignment.now.types) (length nodes.now) (expression_of q.label)) right.now }
    requires whole { IsWhole assignment.now }
    requires nodes { AreNodes graph.now.graph nodes.now }
    ensures { IfOk result (λ b. b ≡ is_preserved (setting assignment.now nodes.now graph.now.graph) right.now place) }
{
    match right_of(right, place) {
        Some(node) => says_again(alloc, node, nodes, graph, assignment, place),
        None => Ok(false),
    }
}

// The right node of the left node of this place.
fn right_of(right: &[RightNode], place: usize) -> Option<&RightNode>
    ensures { option_copied result ≡ right_of right.now place }
{
    'right: for node in right {
        if is_origin(node.origin, place) {
            return Some(node);
        }
    }
    None
}

fn is_origin(origin: Option<u32>, place: usize) -> bool
    ensures { result ≡ is_origin place origin }
{
    match origin {
        Some(left) => left as usize == place,
        None => false,
    }
}

// Whether a right node says what the image of this place carries. Its label comes last: that takes memory.
fn says_again(
    alloc: Global,
    right: &RightNode,
    nodes: &[u64],
    graph: &Graph,
    assignment: &Assignment,
    place: usize,
) -> Result<bool, NoMemory>
    requires place { place < length nodes.now }
    requires within { IsWithin (length assignment.now.types) (length nodes.now) (expression_of right.now.label) }
    requires whole { IsWhole assignment.now }
    requires nodes { AreNodes graph.now.graph nodes.now }
    ensures { IfOk result (λ b. b ≡ says_again (setting assignment.now nodes.now graph.now.graph) place right.now) }
{
    let Some((list, mark, root)) = graph.node(nodes[place]) else {
        return Ok(false);
    };
    if right.root != root {
        return Ok(false);
    }
    if !keeps_mark(right.mark, mark) {
        return Ok(false);
    }
    match value(alloc, &right.label, assignment, nodes, graph) {
        Valued::Value(label) => Ok(label == *list),
        Valued::NoValue(_) => Ok(false),
        Valued::NoMemory => Err(NoMemory),
    }
}

// Whether a node with this mark gets it again.
fn keeps_mark(pattern: MarkPattern<NodeMark>, mark: NodeMark) -> bool
    ensures { result ≡ agrees node_mark_rank (pattern_of pattern) mark }
{
    match pattern {
        MarkPattern::Marked(written) => written == mark,
        MarkPattern::Any => true,
    }
}
