//! That threads may take goals, reasons and answers, and share the rules of a program as a system.

use crate::goal::{CallGoal, Fault};
use crate::gp::Gp;
use gp_syntax::Found;
use opt_system::{Sought, Verdict};

fn may_be_taken<T: Send>(_value: &T) {}

fn may_be_shared<T: Sync>(_value: &T) {}

/// Threads may share a goal, and take it with what the calls of the system give.
pub fn goals_may_be_taken(
    goal: &CallGoal,
    reason: &Fault,
    verdict: &Verdict<Fault>,
    answer: &Sought<Found, Fault>,
) {
    may_be_taken(goal);
    may_be_shared(goal);
    may_be_taken(reason);
    may_be_taken(verdict);
    may_be_taken(answer);
}

/// Threads may share the system of a program, with the rules and rule sets that it borrows.
pub fn gp_may_be_shared(gp: &Gp<'_>) {
    may_be_shared(gp);
}
