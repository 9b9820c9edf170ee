//! A goal of `Cells`.

ghost use Rattle.std.specs.Prelude.{◌<◌};

use opt_system::Mode;

/// A mode, and the number of shares, at least 1.
#[derive(Clone, Copy)]
pub struct CellsGoal {
    pub mode: Mode,
    pub shares: u32,
    pub ghost positive: { 0 < shares },
}

/// The reason of a faulty match of `Cells`: there is none.
#[derive(Clone, Copy)]
pub enum Never {}
