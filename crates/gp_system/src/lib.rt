//! The rules of a program as what makes its steps, and runs of programs on host graphs.
//!
//! Call `execute` with a program, a host graph, `Terms` and a `Chooser`: the outcome has the graph to which a run led
//! (`specs/Ended`), and its items, where they were to be kept. `Session` is the engine behind it, for who runs
//! `gp_run::run` by hand. `Gp` is the same rules as an `opt_system::System`, whose goals are calls (`specs/Gp`): it keeps the laws
//! of a system. `execute` with two workers or more starts threads and may wait; with one, nothing here does.
#![tactic(auto)]

mod crew;
mod crew_session;
mod goal;
mod gp;
pub mod laws;
mod notes;
mod outcome;
mod pursuit;
mod running;
mod session;
pub mod sharing;

pub use crew::{Crew, Terms};
pub use crew_session::CrewSession;
pub use goal::{CallGoal, Fault};
pub use gp::Gp;
pub use outcome::{Outcome, Ran};
pub use running::execute;
pub use session::Session;
