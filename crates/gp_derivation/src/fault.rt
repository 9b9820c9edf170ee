//! Why items cannot be brought up to date.

use gp_memory::NoMemory;
use std::alloc::{AllocError, AllocFailed};
use std::fmt::{Debug, Display, Formatter, Result, Write};
use thiserror::Error;

/// Why items cannot be brought up to date.
#[derive(Clone, Copy, Error)]
pub enum UpgradeFault {
    /// The item of this place, counted from 0, is the first that does not replay: its rule has no such number, its match
    /// does not apply, or it takes back more steps than are live.
    #[error("Item {0}")]
    Item(u64),
    /// Memory was refused.
    #[error("NoMemory")]
    NoMemory,
}

// As it is shown to users.
impl Debug for UpgradeFault {
    fn fmt<W: Write>(&self, f: &mut Formatter<W>) -> Result {
        Display::fmt(self, f)
    }
}

impl From<NoMemory> for UpgradeFault {
    ghost use Rattle.std.specs.Prelude.{◌≡◌};
    ghost use Rattle.gp_derivation.specs.declared.fault.UpgradeFault.TheVariants as faults;

    ghost from_gives = { λ _ e. e ≡ faults.NoMemory };

    fn from(_: NoMemory) -> UpgradeFault {
        UpgradeFault::NoMemory
    }
}

impl From<AllocError> for UpgradeFault {
    ghost use Rattle.std.specs.Prelude.{◌≡◌};
    ghost use Rattle.gp_derivation.specs.declared.fault.UpgradeFault.TheVariants as faults;

    ghost from_gives = { λ _ e. e ≡ faults.NoMemory };

    fn from(_: AllocError) -> UpgradeFault {
        UpgradeFault::NoMemory
    }
}

impl<T: Drop> From<AllocFailed<T>> for UpgradeFault {
    ghost use Rattle.std.specs.Prelude.{◌≡◌};
    ghost use Rattle.gp_derivation.specs.declared.fault.UpgradeFault.TheVariants as faults;

    ghost from_gives = { λ _ e. e ≡ faults.NoMemory };

    fn from(_: AllocFailed<T>) -> UpgradeFault {
        UpgradeFault::NoMemory
    }
}
