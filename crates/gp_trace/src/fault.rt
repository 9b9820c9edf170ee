//! Why a text is no trace.

use gp_memory::NoMemory;
use std::alloc::{AllocError, AllocFailed};
use std::fmt::{Debug, Display, Formatter, Result, Write};
use thiserror::Error;

/// Why a text is no trace.
#[derive(Clone, Copy, Error)]
pub enum TraceFault {
    /// The first line, counted from 1, that is not of the form of its place: that of the header, of an item or of the
    /// end. A line that is missing and one behind the end are such lines.
    #[error("Line {0}")]
    Line(u64),
    /// Memory was refused.
    #[error("NoMemory")]
    NoMemory,
}

// As it is shown to users.
impl Debug for TraceFault {
    fn fmt<W: Write>(&self, f: &mut Formatter<W>) -> Result {
        Display::fmt(self, f)
    }
}

impl From<NoMemory> for TraceFault {
    ghost use Rattle.std.specs.Prelude.{◌≡◌};
    ghost use Rattle.gp_trace.specs.declared.fault.TraceFault.TheVariants as faults;

    ghost from_gives = { λ _ e. e ≡ faults.NoMemory };

    fn from(_: NoMemory) -> TraceFault {
        TraceFault::NoMemory
    }
}

impl From<AllocError> for TraceFault {
    ghost use Rattle.std.specs.Prelude.{◌≡◌};
    ghost use Rattle.gp_trace.specs.declared.fault.TraceFault.TheVariants as faults;

    ghost from_gives = { λ _ e. e ≡ faults.NoMemory };

    fn from(_: AllocError) -> TraceFault {
        TraceFault::NoMemory
    }
}

impl<T: Drop> From<AllocFailed<T>> for TraceFault {
    ghost use Rattle.std.specs.Prelude.{◌≡◌};
    ghost use Rattle.gp_trace.specs.declared.fault.TraceFault.TheVariants as faults;

    ghost from_gives = { λ _ e. e ≡ faults.NoMemory };

    fn from(_: AllocFailed<T>) -> TraceFault {
        TraceFault::NoMemory
    }
}
