//! The static clauses of a rule's declaration, one function each.
//!
//! A clause is a function over the tree of a declaration: `too_large`, `twice_declared`, `unknown_node`, `bad_interface`,
//! `unbound`, `bad_type`, `not_simple`, `bad_mark`, `bad_bidi`, in the order in which they are asked. Each answers whether
//! the declaration breaks it, and where it names what breaks it, the first such name in text order: exactly the definition
//! of its name in `Fault` of gp_syntax. The three that speak of variables are given the `Scope`, tables of the names of
//! variables. Only the tables take memory.
//! `shape_of` and `condition_shape_of` give one layer of an expression or a condition, so that a walk over one is one
//! function.
#![tactic(auto)]

mod condition_shape;
mod facts;
mod known;
mod marks;
mod names;
mod scope;
mod shape;
mod typed;
mod variables;

pub use condition_shape::{ConditionShape, Connective, condition_shape_of};
pub use marks::{bad_bidi, bad_mark, edge_mark, edge_named, is_among, node_mark, says_any};
pub use names::{bad_interface, too_large, twice_declared, unknown_node};
pub use scope::{Scope, bad_type, not_simple, unbound};
pub use shape::{Links, Operation, Shape, shape_of};
pub use variables::Variables;
