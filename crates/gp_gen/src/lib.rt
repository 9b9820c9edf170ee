//! Demo workloads: a program text and a host text, made from a kind, a size and a seed.
//!
//! Call `generate` for the two texts of a `Kind`. Which sizes a kind has, and what the nodes and the edges of its host
//! are, is `specs/Host`; how a program and a host are written is `specs/Texts`. The labels and the directions of edges
//! come from the words of a generator, which the seed starts, so that the same three values always make the same texts.
//! Worked examples of these definitions are the functions of `laws`.
#![tactic(auto)]

mod edges;
mod kind;
pub mod laws;
mod lines;
mod nodes;
mod sheet;
mod texts;

pub use kind::Kind;
pub use texts::generate;
