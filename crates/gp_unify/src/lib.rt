//! Unification of the simple labels of a left side with the lists of a host: it finds the values of the variables, and
//! needs no search, since a simple label has at most one list variable and a string in it at most one string variable.
//!
//! `unify` extends an assignment by what a label and its value tell, and answers as `specs/Extension` says: by the least
//! extension, or that there is none. What is known of the variables stands in `specs/Known`; the laws, in `laws`, say
//! that labels tell their variables and that a match of a checked rule has one assignment at most.
#![tactic(auto)]

mod label;
pub mod laws;
mod matched;
mod mismatch;
mod pieces;
mod reading;
mod text;
mod trail;
mod unifier;

pub use matched::{assignment_by, assignment_of};
pub use trail::{INLINE_TOLD, Trail, take_back};
pub use unifier::{Unified, unify, unify_on};
