//! What is asked of the items of a run: whether they and a result are a derivation of a program on a host, and walks
//! through them, forward and back, as a script says.
//!
//! Call `is_derivation` with the program, the host, the items of the trace with their version (`gp_trace::read_trace`), and
//! the text of the result. `specs/Derivation` says what it decides, over the runs that `gp_certify` looks for. Items of
//! version 1 are brought up to date first (`upgrade`); which of several edges that carry the same between the same nodes
//! they then name makes no difference (`laws::upgrades_end_alike`).
//!
//! In version 1 of traces a step deleted all matched edges and made those of the right side anew; in version 2 an edge that
//! is on both sides stays, with its number. `upgrade` takes the items of a trace of version 1, with the rules and the host
//! that they are of: the answer are items of version 2, the same but for the numbers of edges, or the first item that was no
//! step. `specs/StepAnew` has the step as it was, `specs/Upgrade` what it is to bring items up to date; the laws in `laws`
//! say that an applying match led to one graph by the step as it was, that items can be brought up to date or break at one
//! place, and that all that they can be brought up to date as end alike.
//!
//! Call `Stepper::new` with the journal of a run: it stands before the first item, with all steps taken back. `forward`
//! makes what the next item says, and `back` takes back what the one before says: over a step one step, over a turn
//! nothing, and over a `Back` the steps that it took back are made again. Each move costs what its steps cost.
//! `specs/Stepper` says what a stepper is; the laws in `laws` say that the items before its place replay from the root
//! graph to its graph, and that the place tells the trail, so that a move forward and then one back are the identity.
//! Beside the trail stand the numbers of the items whose steps are live, and of those whose steps were taken back
//! (`standing`): both are told by the items and the place.
//!
//! A script has moves and looks. Call `read_script` to get the lines of its text, and then `walk` with them, the journal of
//! a run and its rules: it gives what they come to. `forward` tells the item that it goes over, and `end` behind the last
//! one; `back` tells the place to which it comes, and `start` at the first; `show` tells the graph to which the items before
//! the place lead from the host. A place is the number of the items before it. `specs/Script` says which texts are scripts
//! and where another text breaks, and `specs/Walk` what the lines come to. A law says that each text is that of one script or
//! breaks at one line, and not both.
#![tactic(auto)]

mod backward;
mod derivation;
mod fault;
mod forward;
mod found;
mod items;
pub mod laws;
mod line;
mod reader;
mod replay;
mod script_fault;
mod standing;
mod stepper;
mod table;
mod walker;

pub use derivation::is_derivation;
pub use fault::UpgradeFault;
pub use items::upgrade;
pub use line::Line;
pub use reader::read_script;
pub use script_fault::ScriptFault;
pub use stepper::{Moved, Stepper};
pub use walker::walk;
