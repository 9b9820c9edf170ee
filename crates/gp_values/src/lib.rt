//! Values and graphs, which every crate of GP 2 speaks of.
//!
//! `Atom`, `List`, `NodeMark` and `EdgeMark` are what nodes and edges carry: make a `List` by `List::new` and
//! `List::push`, read it by `List::atoms`, write it by `List::write_label`.
//! What a host graph is to every contract stands in `specs/Graph.antt`: two finite maps and two next numbers, with
//! the named edits that contracts cite (Plump 2012, "The Design of GP 2", section 2; Bak 2015 for roots and marks).
//! Readers and checkers look names of nodes, edges, variables, rules and procedures up in a `NameTable`: begin with
//! `NameTable::new` and `add`. Its contracts speak of the list of names (`specs/Names`), so no definition names a table.
//! `laws` has what holds of those edits, whoever makes them: call its functions where a proof needs such a law.
#![tactic(auto)]

mod atom;
mod chars;
mod integer;
mod label;
pub mod laws;
mod list;
mod marks;
mod names;

pub use atom::Atom;
pub use chars::Chars;
pub use integer::Integer;
pub use list::List;
pub use marks::{EdgeMark, NodeMark};
pub use names::NameTable;
