//! That threads may share rules and programs.

use crate::command::Program;
use crate::rule::Rule;

fn may_be_shared<T: Sync>(_value: &T) {}

/// Threads may share a rule.
pub fn rule_may_be_shared(rule: &Rule) {
    may_be_shared(rule);
}

/// Threads may share a program.
pub fn program_may_be_shared(program: &Program) {
    may_be_shared(program);
}
