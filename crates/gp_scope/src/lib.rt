//! What the names of a program text mean: `check_names`, then `bodies_of`.
//!
//! A text declares rules and procedures, and a procedure may declare more of both in brackets; a local declaration hides an
//! outer one of the same name. `check_names` tells the first fault of names: no Main or two, a name twice among the same
//! declarations, or a name that is called and is not visible there. `bodies_of` then puts numbers in place of names: rules
//! and procedures are numbered in the order in which their declarations begin, each call of a rule set has a number of its
//! own, and Main has none. Whether procedures reach themselves, and where `break` strays, gp_reader decides of the bodies.
#![tactic(auto)]

mod bodies;
mod check;
mod declare;
mod doubled;
mod fault;
mod few;
mod level;
mod meaning;
mod number;
mod strangers;
mod survey;
mod unknown;

pub use bodies::{Bodies, bodies_of};
pub use check::check_names;
pub use fault::ScopeFault;
