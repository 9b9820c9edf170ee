//! The expressions, labels and conditions of program texts (Bak's thesis 2015, appendix A, labels and conditions).
//!
//! `read_list`, `read_label` and `read_condition` read them over a cursor of `gp_tokens`, into the trees of `gp_syntax`,
//! each with the offset of its first numeral that is out of range (`Ranged`). Their grammar stands in specs/Expressions
//! and Conditions, line by line, and there is a function for each line. Each takes the room that is left for nesting.
//! That no tokens are both a list and a condition is one of `laws`. A reader of rules or programs begins with
//! `read_label` and `read_condition`; `gather` and `join` put lists of such trees together.
#![tactic(auto)]

mod chain;
mod condition;
mod expression;
pub mod laws;
mod ranged;
mod rows;

pub use condition::{CondTree, LabelTree, read_condition, read_label};
pub use expression::{read_list, read_name};
pub use ranged::{Ranged, gather, join, whole};
