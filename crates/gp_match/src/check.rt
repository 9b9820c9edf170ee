//! The verdict on a match.

ghost use Rattle.std.specs.Prelude.{◌≡◌, length, All};
ghost use Rattle.gp_syntax.specs.Assigned.{IsInTypes, IsWhole};
ghost use Rattle.gp_syntax.specs.Step.{first_fault, right_labels};
ghost use Rattle.gp_syntax.specs.Tree.{condition_or_true, pattern_of, rule_of_tree};
ghost use Rattle.gp_syntax.specs.Truth.{truth_of};
ghost use Rattle.gp_syntax.specs.WellFormed.{IsConditionWithin, IsWithin, IsWellFormed};
ghost use Rattle.gp_eval.specs.Answer.{AreNodes, Tells, setting};
ghost use Rattle.gp_match.specs.Told.{IsTold};
ghost use Rattle.gp_match.specs.Verdict.{Judges};
ghost use Rattle.gp_match.specs.inside.Faults.{JudgedBy};

use crate::fault::right_faults;
use crate::stand::stands;
use gp_eval::{Valued, holds};
use gp_graph::Graph;
use gp_syntax::{Assignment, Cond, Found, MarkPattern, NumberKind, Rule, RuleParts};
use gp_unify::assignment_by;
use gp_values::EdgeMark;
use std::alloc::Global;

/// A match applies, or it is faulty: its condition, or with a true condition a right label, has no value, and why; or it
/// is neither, or no match. Or memory was refused.
#[derive(Clone, Copy, Debug, PartialEq, Eq)]
pub enum Verdict {
    Applies,
    Faulty(NumberKind),
    No,
    NoMemory,
}

/// The verdict on a match of a rule. It takes any numbers, also of nodes and edges that are not there, too many or too
/// few, or doubled.
pub fn check_match(alloc: Global, rule: &Rule, graph: &Graph, found: &Found) -> Verdict
    ensures { Judges result (rule_of_tree rule.now) graph.now.graph found.now }
{
    check_parts(alloc, rule.parts(), graph, found)
}

// The same, of the parts of a rule.
fn check_parts(alloc: Global, parts: &RuleParts, graph: &Graph, found: &Found) -> Verdict
    requires { IsWellFormed (rule_of_tree parts.now) }
    ensures { Judges result (rule_of_tree parts.now) graph.now.graph found.now }
{
    let Ok(told) = assignment_by(alloc, parts, graph, found) else {
        return Verdict::NoMemory;
    };
    let Some(assignment) = told else {
        return Verdict::No;
    };
    check_told(alloc, parts, graph, found, &assignment)
}

// Reads the values, so that it is known that they are of their types.
fn read_values(assignment: &Assignment)
    requires { length assignment.now.values ≡ length assignment.now.types }
    ensures { IsInTypes assignment.now }
{
    if !assignment.types().is_empty() {
        let _value = assignment.value(0);
    }
}

/// The verdict on a match of the rule of these parts, where it is known by which values it can be one.
pub fn check_told(
    alloc: Global,
    parts: &RuleParts,
    graph: &Graph,
    found: &Found,
    assignment: &Assignment,
) -> Verdict
    requires well_formed { IsWellFormed (rule_of_tree parts.now) }
    requires told { IsTold (rule_of_tree parts.now) graph.now.graph found.now assignment.now }
    ensures { Judges result (rule_of_tree parts.now) graph.now.graph found.now }
{
    read_values(assignment);
    if !stands(parts, graph, found.nodes(), found.edges()) {
        return Verdict::No;
    }
    judge(alloc, parts, graph, found.nodes(), assignment)
}

// The verdict on a match whose assignment this is.
fn judge(
    alloc: Global,
    parts: &RuleParts,
    graph: &Graph,
    nodes: &[u64],
    assignment: &Assignment,
) -> Verdict
    requires condition { IsConditionWithin (length assignment.now.types) (length nodes.now) (condition_or_true pattern_of parts.now.condition) }
    requires labels { All (IsWithin (length assignment.now.types) (length nodes.now)) (right_labels (rule_of_tree parts.now)) }
    requires whole { IsWhole assignment.now }
    requires nodes { AreNodes graph.now.graph nodes.now }
    ensures { JudgedBy result (truth_of (condition_or_true pattern_of parts.now.condition) (setting assignment.now nodes.now graph.now.graph)) (first_fault (right_labels (rule_of_tree parts.now)) (setting assignment.now nodes.now graph.now.graph)) }
{
    match condition_holds(alloc, &parts.condition, assignment, nodes, graph) {
        Valued::Value(true) => match right_faults(alloc, parts, assignment, nodes, graph) {
            Valued::Value(()) => Verdict::Applies,
            Valued::NoValue(kind) => Verdict::Faulty(kind),
            Valued::NoMemory => Verdict::NoMemory,
        },
        Valued::Value(false) => Verdict::No,
        Valued::NoValue(kind) => Verdict::Faulty(kind),
        Valued::NoMemory => Verdict::NoMemory,
    }
}

// The truth of a condition; where none is written, it holds.
fn condition_holds(
    alloc: Global,
    condition: &Option<Cond<u32, MarkPattern<EdgeMark>>>,
    assignment: &Assignment,
    nodes: &[u64],
    graph: &Graph,
) -> Valued<bool>
    requires within { IsConditionWithin (length assignment.now.types) (length nodes.now) (condition_or_true pattern_of condition.now) }
    requires whole { IsWhole assignment.now }
    requires nodes { AreNodes graph.now.graph nodes.now }
    ensures { Tells result (truth_of (condition_or_true pattern_of condition.now) (setting assignment.now nodes.now graph.now.graph)) }
{
    match condition {
        Some(condition) => holds(alloc, condition, assignment, nodes, graph),
        None => Valued::Value(true),
    }
}
