//! The gate: a ticket lock round a core, whose passes know what was committed.
//!
//! Call `Gate::start` with a core that was just started: it gives the gate and the first pass. Split a pass for each thread,
//! and let each take turns with `Gate::turn`: a turn is one event of the one core, and nobody else has the core meanwhile.
//! Join the passes, and `Gate::close` gives the core back. Only `turn` and `close` may wait. A turn takes
//! memory for a look, whose entries are copied, and for what is offered; `split`, `join`, `close`, and a turn that reports a
//! barren share or asks to stop, take none.
//!
//! A pass tells by its contracts what it knows: a beginning of the entries, after a turn all of them, and the ending once it
//! was met. What is seen of a pass is in `specs/Pass`, what a turn does in `specs/Turn`, and words on lists in
//! `specs/Lists`; `specs/inside` has the rule of the table, which bodies and proofs alone need.
#![tactic(auto)]

mod ask;
mod bells;
mod gate;
mod key;
mod pass;
mod rule;
pub mod sharing;
mod steps;
mod view;

pub use ask::Ask;
pub use gate::Gate;
pub use key::Key;
pub use pass::Pass;
