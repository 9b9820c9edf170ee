//! Kinds of cases: `graphs` has those about graphs in memory, `runs` those about journals, commands and crews. Their rows are
//! those of `gp_cases`; `gp_rows` says how rows are written, `kinds` which kinds there are.
#![tactic(auto)]

mod graphs;
mod kinds;
mod runs;

pub use kinds::{FILES, Kind, answer};
