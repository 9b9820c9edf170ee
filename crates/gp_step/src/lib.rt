//! The step that an applying match makes, and what takes it back.
//!
//! `apply` makes the step of a match that applies, on a graph in memory. Nodes and edges that the rule keeps stay at their
//! numbers, and carry what its right side says; what it does not keep goes, and what is new takes the next numbers. The
//! values of all labels and all growths come first, so that on refusal the graph is as before. A kept edge whose label and
//! mark the right side writes again is let be: its label is neither valued nor noted. `apply_told` does the same where a
//! search told the assignment of the match, and does not find it again. `undo` takes the step back: the very graph from
//! before is there again, next numbers included, and it takes no memory.
//! `specs/Undo` says what an `Undo` does, as edits of a graph one after another. `specs/After` has the graph that a match
//! leads to as a function, and the law in `laws` ties it to the relation `Step` of gp_syntax, which is what a reader
//! believes.
#![tactic(auto)]

mod applying;
mod changes;
mod edits;
mod inverse;
mod inverses;
pub mod laws;
mod made;
mod same;
mod scene;
mod step;
mod taking_back;

pub use applying::{apply, apply_told};
pub use inverse::Inverse;
pub use inverses::Undo;
pub use taking_back::undo;
