//! The trees of program texts (Bak's thesis 2015, appendix A, programs).
//!
//! Call `parse_program` with the tokens of a text (`gp_tokens::lex`): it answers their tree (`gp_syntax::Ast`), or their
//! first fault, `ParseFault`, in the order of that enum. What the tree of tokens is stands in specs/Program, over the
//! grammar of specs/Rules, Commands and Programs and that of `gp_expressions`: a value of `gp_tokens` for each line, and
//! here a function for each line. That tokens have at most one tree, and that all tokens have a tree or a fault, are the
//! functions of `laws`. `first_too_deep` is the first stage: the first token that is nested more than 64 deep, counted by
//! brackets and by runs of minus signs or of `not` (specs/Depth).
#![tactic(auto)]

mod command;
mod depth;
mod graph;
pub mod laws;
mod parse;
mod program;
mod rule;

pub use depth::first_too_deep;
pub use parse::{ParseFault, parse_program};
