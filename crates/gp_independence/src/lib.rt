//! Independent matches: neither step takes away or changes what the other match needs, so that their steps may be made in
//! either order, or at the same time.
//!
//! `independent` tells it of two matches that apply, without a step. `specs/Independent` says what it means. The laws, in
//! `laws`, hold of every two such matches, and of more: each still applies after the other's step, both orders lead to one
//! graph but for the numbers of what is new, and pairwise independent matches are a derivation in every order.
//!
//! `gather` finds independent matches of a share, which are held together so that their steps may be made in one turn. It
//! puts further ones behind those that are held: each match of the share that applies is met once, and joins where it is
//! independent of every one that is held, until so many are held. `specs/Held` says what is held, and when none fits.
//!
//! `conditions_ask_between` tells whether an index of edges by their ends serves the conditions of rules.
#![tactic(auto)]

mod beside;
mod between;
mod first;
mod further;
mod gathering;
mod independence;
pub mod laws;
mod looks;
mod preserved;
mod shared;

pub use between::conditions_ask_between;
pub use first::first_candidates;
pub use further::gather;
pub use independence::independent;
