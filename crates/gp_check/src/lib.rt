//! Checked rules: `check_rule`.
//!
//! It is given the tree of a rule's declaration, and answers the rule that it is, with places in place of names, or the
//! first static clause that it breaks: exactly `rule_of` and `fault_of` of gp_syntax, which are what a reader believes.
//! Want of memory may come instead. The clauses stand in gp_clauses, one function each; here the parts of the rule are
//! made. Chains of one operation stay chains, so that a rule is no deeper than its text.
#![tactic(auto)]

mod build;
mod chains;
mod check;
mod condition;
mod expression;
mod fault;
mod pattern;
mod places;

pub use check::check_rule;
pub use fault::RuleFault;
