//! The truth of conditions.

ghost use Rattle.std.specs.Prelude.{◌≡◌, length, fold, All};
ghost use Rattle.gp_syntax.specs.Tree.{condition_of, pattern_of};
ghost use Rattle.gp_syntax.specs.Truth.{truth_of};
ghost use Rattle.gp_syntax.specs.WellFormed.{IsConditionWithin};
ghost use Rattle.gp_syntax.specs.Assigned.{IsWhole};
ghost use Rattle.gp_eval.specs.Answer.{Tells, setting, AreNodes};
ghost use Rattle.gp_eval.specs.inside.Chains.{Gives, and_step, or_step};

use crate::comparison::compare;
use crate::edges::{has_edge, has_edge_with};
use crate::expression::eval;
use crate::valued::{Missing, Valued};
use gp_graph::Graph;
use gp_syntax::{Assignment, Cond, MarkPattern, is_of};
use gp_values::EdgeMark;
use std::alloc::Global;

/// The truth of a condition of a checked rule, where every variable has its value and `nodes` are the images of the
/// left nodes.
pub fn holds(
    alloc: Global,
    condition: &Cond<u32, MarkPattern<EdgeMark>>,
    assignment: &Assignment,
    nodes: &[u64],
    graph: &Graph,
) -> Valued<bool>
    requires within { IsConditionWithin (length assignment.now.types) (length nodes.now) (condition_of pattern_of condition.now) }
    requires whole { IsWhole assignment.now }
    requires nodes { AreNodes graph.now.graph nodes.now }
    ensures { Tells result (truth_of (condition_of pattern_of condition.now) (setting assignment.now nodes.now graph.now.graph)) }
{
    match truth(alloc, condition, assignment, nodes, graph) {
        Ok(holds) => Valued::Value(holds),
        Err(Missing::NoValue(kind)) => Valued::NoValue(kind),
        Err(Missing::NoMemory) => Valued::NoMemory,
    }
}

// The same, for `?`.
#[cycle(truth)]
fn truth(
    alloc: Global,
    condition: &Cond<u32, MarkPattern<EdgeMark>>,
    assignment: &Assignment,
    nodes: &[u64],
    graph: &Graph,
) -> Result<bool, Missing>
    requires within { IsConditionWithin (length assignment.now.types) (length nodes.now) (condition_of pattern_of condition.now) }
    requires whole { IsWhole assignment.now }
    requires nodes { AreNodes graph.now.graph nodes.now }
    ensures { Gives result (truth_of (condition_of pattern_of condition.now) (setting assignment.now nodes.now graph.now.graph)) }
{
    match condition {
        Cond::HasType(declared, e) => {
            let list = eval(alloc, e, assignment, nodes, graph)?;
            Ok(is_of(*declared, list.atoms()))
        }
        Cond::HasEdge(a, b) => Ok(has_edge(graph, nodes[*a as usize], nodes[*b as usize])),
        Cond::HasEdgeWith(a, b, e, mark) => {
            let list = eval(alloc, e, assignment, nodes, graph)?;
            let (source, target) = (nodes[*a as usize], nodes[*b as usize]);
            Ok(has_edge_with(graph, source, target, &list, *mark))
        }
        Cond::Compared(comparison, d, e) => {
            compare(alloc, *comparison, (d, e), assignment, nodes, graph)
        }
        Cond::Not(part) => Ok(!truth(alloc, part.get(), assignment, nodes, graph)?),
        Cond::And(first, rest) => {
            all_true(
                alloc,
                first.get(),
                rest.as_slice(),
                assignment,
                nodes,
                graph,
            )
        }
        Cond::Or(first, rest) => {
            some_true(
                alloc,
                first.get(),
                rest.as_slice(),
                assignment,
                nodes,
                graph,
            )
        }
    }
}

// Whether all of these hold. Those behind one that does not are not valued.
#[cycle(truth)]
fn all_true(
    alloc: Global,
    first: &Cond<u32, MarkPattern<EdgeMark>>,
    rest: &[Cond<u32, MarkPattern<EdgeMark>>],
    assignment: &Assignment,
    nodes: &[u64],
    graph: &Graph,
) -> Result<bool, Missing>
    requires first { IsConditionWithin (length assignment.now.types) (length nodes.now) (condition_of pattern_of first.now) }
    requires rest { All (λ t. IsConditionWithin (length assignment.now.types) (length nodes.now) (condition_of pattern_of t)) rest.now }
    requires whole { IsWhole assignment.now }
    requires nodes { AreNodes graph.now.graph nodes.now }
    ensures { Gives result (fold (and_step (setting assignment.now nodes.now graph.now.graph)) (truth_of (condition_of pattern_of first.now) (setting assignment.now nodes.now graph.now.graph)) rest.now) }
{
    let mut holds = truth(alloc, first, assignment, nodes, graph)?;
    'parts: for part in rest {
        if !holds {
            return Ok(false);
        }
        holds = truth(alloc, part, assignment, nodes, graph)?;
    }
    Ok(holds)
}

// Whether one of these holds. Those behind it are not valued.
#[cycle(truth)]
fn some_true(
    alloc: Global,
    first: &Cond<u32, MarkPattern<EdgeMark>>,
    rest: &[Cond<u32, MarkPattern<EdgeMark>>],
    assignment: &Assignment,
    nodes: &[u64],
    graph: &Graph,
) -> Result<bool, Missing>
    requires first { IsConditionWithin (length assignment.now.types) (length nodes.now) (condition_of pattern_of first.now) }
    requires rest { All (λ t. IsConditionWithin (length assignment.now.types) (length nodes.now) (condition_of pattern_of t)) rest.now }
    requires whole { IsWhole assignment.now }
    requires nodes { AreNodes graph.now.graph nodes.now }
    ensures { Gives result (fold (or_step (setting assignment.now nodes.now graph.now.graph)) (truth_of (condition_of pattern_of first.now) (setting assignment.now nodes.now graph.now.graph)) rest.now) }
{
    let mut holds = truth(alloc, first, assignment, nodes, graph)?;
    'parts: for part in rest {
        if holds {
            return Ok(true);
        }
        holds = truth(alloc, part, assignment, nodes, graph)?;
    }
    Ok(holds)
}
