//! The step that an applying match makes.

ghost use Rattle.std.specs.Prelude.{◌≡◌, IfOk, OnOk, OnErr};
ghost use Rattle.gp_syntax.specs.Assigned.{assigned_of};
ghost use Rattle.gp_syntax.specs.Step.{Applies, AppliesBy, Step};
ghost use Rattle.gp_syntax.specs.Tree.{rule_of_tree};
ghost use Rattle.gp_unify.specs.Matched.{IsAssignment};
ghost use Rattle.gp_step.specs.After.{after};
ghost use Rattle.gp_step.specs.Undo.{Undoes};

use crate::inverses::Undo;
use crate::step::apply_by;
use gp_graph::Graph;
use gp_memory::NoMemory;
use gp_syntax::{Assignment, Found, Rule};
use gp_unify::assignment_of;
use std::alloc::Global;

/// Makes the step of a match that applies, and gives what takes it back. All growths come first, the values of the right
/// labels over the graph before the step among them: on refusal the graph is as before.
pub fn apply(alloc: Global, rule: &Rule, graph: &mut Graph, found: &Found) -> Result<Undo, NoMemory>
    requires { Applies (rule_of_tree rule.now) graph.old.graph found.now }
    ensures step { OnOk result (Step (rule_of_tree rule.now) graph.old.graph found.now graph.new.graph) }
    ensures after { OnOk result (graph.new.graph ≡ after (rule_of_tree rule.now) graph.old.graph found.now) }
    ensures undo { IfOk result (λ u. Undoes u graph.new.graph graph.old.graph) }
    ensures err { OnErr result (graph.new.graph ≡ graph.old.graph) }
{
    let Some(assignment) = assignment_of(alloc, rule, graph, found)? else {
        unreachable!()
    };
    apply_told(alloc, rule, graph, found, &assignment)
}

/// The same, where the assignment is known by which the match applies: the search for the match told it.
pub fn apply_told(
    alloc: Global,
    rule: &Rule,
    graph: &mut Graph,
    found: &Found,
    assignment: &Assignment,
) -> Result<Undo, NoMemory>
    requires applies { AppliesBy (rule_of_tree rule.now) graph.old.graph found.now (assigned_of assignment.now) }
    requires told { IsAssignment (rule_of_tree rule.now) (assigned_of assignment.now) assignment.now }
    ensures step { OnOk result (Step (rule_of_tree rule.now) graph.old.graph found.now graph.new.graph) }
    ensures after { OnOk result (graph.new.graph ≡ after (rule_of_tree rule.now) graph.old.graph found.now) }
    ensures undo { IfOk result (λ u. Undoes u graph.new.graph graph.old.graph) }
    ensures err { OnErr result (graph.new.graph ≡ graph.old.graph) }
{
    let _sound = graph.next_numbers();
    apply_by(alloc, rule.parts(), graph, found, assignment)
}
