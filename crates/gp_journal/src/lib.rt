//! The journal of a run: a graph with the steps that led to it, which can be taken back.
//!
//! A `Trail` is a graph with the inverses of its live steps: `advance` makes one more, `back` takes the last ones back,
//! `forget` lets the inverses go, and `catch_up` makes what a list of items says. `Items` are the items of a run by
//! themselves: `step`, `turn` and `back` make one each, and `mark` makes the room for one `back`, so that taking back
//! takes no memory; `unmark` gives that room up, and `note` puts the steps of a goal at the end. A `Journal` is a trail
//! with the items that led to it, and has the same calls; `apart` and `whole` part it and put it together. `Replicated` is a
//! run's trail with a replica for each worker: its `apart` starts threads, and no other call here does.
//! `specs/Trail`, `Leads` and `Journal` say what each call does; the laws in `laws` say that a trail's live steps, and a
//! journal's items, replay from the root graph to the graph (`Replays` of gp_syntax).
#![tactic(auto)]

mod items;
mod journal;
pub mod laws;
mod mode;
mod replicas;
mod replicated;
pub mod sharing;
mod trail;

pub use items::Items;
pub use journal::Journal;
pub use mode::Mode;
pub use replicated::Replicated;
pub use trail::Trail;
