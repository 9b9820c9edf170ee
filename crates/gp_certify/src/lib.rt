//! Whether a trace is that of a run of a program.
//!
//! Call `certify` with a program, a host and items: it tells which graph the runs of Main that make these items give, and
//! whether some fail. `specs/Certified` says what such a run is, over `Run` of gp_syntax. That there is at most one graph
//! is part of the answer.
//!
//! A place of a trace stands before its item of that number, or behind the last one. First each item is made (`along`):
//! where one does not go, no run has the trace. Then the commands become a table (`code_of`), through which `runs_of` goes:
//! it finds, of each command and each place from which it is reached, the places at which the command may end, and how; what
//! it asks of the trace and its graphs a `Tape` answers, and that is a `Replay`. `specs/Places` says where a command may
//! end (`Spans`), and `specs/Parts` has one row a command; the laws in `laws` say that the two agree, and what both say of
//! runs.
//!
//! A trail goes along the items once to try them, and once more for the questions, which ask at later and later places
//! where a program has no `or`. No contract says that.
#![tactic(auto)]

mod along;
mod certified;
mod code;
mod end;
mod ends;
pub mod laws;
mod lower;
mod memory;
mod node;
mod replay;
mod starts;
mod table;
mod tape;
mod ways;
mod whole;

pub use certified::{Checked, certify};
pub use code::{Code, code_of};
pub use end::Outcome;
pub use node::Node;
