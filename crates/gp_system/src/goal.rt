//! Goals of calls.

use gp_syntax::NumberKind;
use opt_system::Mode;

/// The call of a rule set, by its number, and how often its matches are taken.
#[derive(Clone, Copy)]
pub struct CallGoal {
    pub call: u32,
    pub mode: Mode,
}

/// The rule of a faulty match, and the kind of its fault.
#[derive(Clone, Copy)]
pub struct Fault {
    pub rule: u32,
    pub kind: NumberKind,
}
