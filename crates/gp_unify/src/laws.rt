//! What holds of unification. Each function does nothing: its contract is the law.

ghost use Rattle.gp_unify.specs.Laws.{Unifies, MatchesTellAssignments, StepOfWellFormedRuleIsUnique};

/// A simple label and its value tell the label's variables.
pub fn labels_tell_variables()
    ensures { Unifies }
{}

/// The images of a left side leave at most one assignment.
pub fn matches_tell_assignments()
    ensures { MatchesTellAssignments }
{}

/// A match of a checked rule leads to one graph, whatever the assignments by which it does.
pub fn step_is_unique()
    ensures { StepOfWellFormedRuleIsUnique }
{}
