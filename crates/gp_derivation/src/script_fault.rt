//! Why a text is no script.

use std::alloc::AllocFailed;
use std::fmt::{Debug, Display, Formatter, Result, Write};
use thiserror::Error;

/// Why a text is no script.
#[derive(Clone, Copy, Error)]
pub enum ScriptFault {
    /// The first line, counted from 1, that is none of the three words.
    #[error("Line {0}")]
    Line(u64),
    /// Memory was refused.
    #[error("NoMemory")]
    NoMemory,
}

// As it is shown to users.
impl Debug for ScriptFault {
    fn fmt<W: Write>(&self, f: &mut Formatter<W>) -> Result {
        Display::fmt(self, f)
    }
}

impl<T: Drop> From<AllocFailed<T>> for ScriptFault {
    ghost use Rattle.std.specs.Prelude.{◌≡◌};
    ghost use Rattle.gp_derivation.specs.declared.script_fault.ScriptFault.TheVariants as faults;

    ghost from_gives = { λ _ e. e ≡ faults.NoMemory };

    fn from(_: AllocFailed<T>) -> ScriptFault {
        ScriptFault::NoMemory
    }
}
