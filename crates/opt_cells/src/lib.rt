//! Two small systems for the tests of the crates above: no program uses them.
//!
//! `Cells` is a row of truth values. A match is a place whose cell is true, and its step makes the cell false; share j of
//! S holds the places that are j modulo S, and no match is faulty. `Traps` has faulty matches: before the first step number
//! 0 applies and every other number is faulty with itself as the reason, and after it nothing applies.
//!
//! Make a row with `CellRow::new` and a goal as a `CellsGoal`, then call `Cells` through `opt_system::System`. What the two
//! mean is in `specs/Cells` and `specs/Traps`; that they keep the laws of systems is proved at their impls.
#![tactic(auto)]

mod cell_row;
mod cell_system;
mod cells_goal;
mod traps;

pub use cell_row::CellRow;
pub use cell_system::Cells;
pub use cells_goal::{CellsGoal, Never};
pub use traps::Traps;
