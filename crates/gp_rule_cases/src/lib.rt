//! Kinds of cases: `texts` has those about texts of programs, hosts and traces, `rules` those about rules, matches, steps and
//! searches. Their rows are those of `gp_cases`; `gp_rows` says how rows are written, `kinds` which kinds there are.
#![tactic(auto)]

mod kinds;
mod rules;
mod samples;
mod texts;

pub use kinds::{FILES, Kind, RuleKind, TextKind, answer};
