//! The canonical text of a program's tree: each declaration outside all procedures on one line, one space between two
//! tokens but where none stands, and parentheses just where they are needed.
//!
//! Call `print_program`: it puts the text of a tree behind what a buffer holds. What the text is `specs/Canonical` says,
//! over the tokens of `specs/Expressions`, `Commands` and `Rules` and the spaces of `specs/Spaces`. What holds of canonical
//! texts is in `laws`: they are read again, have the same tree, mean the same, and stay.
#![tactic(auto)]

mod commands;
mod conditions;
mod declarations;
mod expressions;
pub mod laws;
mod piece;
mod print;
mod rules;
mod sheet;
mod write;

pub use piece::Piece;
pub use print::print_program;
