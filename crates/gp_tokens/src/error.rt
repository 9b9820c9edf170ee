//! Why tokens could not be read.

ghost use Rattle.std.specs.Prelude.{◌≡◌};
ghost use Rattle.gp_tokens.specs.declared.error.ReadError.TheVariants.{NoMemory};

use gp_memory::NoMemory as Refused;
use std::alloc::{AllocError, AllocFailed};

/// Why tokens could not be read.
#[derive(Debug, Drop)]
pub enum ReadError {
    /// Memory was refused.
    NoMemory,
    /// The tokens are not of the grammar. The number says how many tokens were left, from the first
    /// that fits nothing on.
    Syntax(u64),
}

impl From<AllocError> for ReadError {
    ghost from_gives = { λ _ e. e ≡ NoMemory };

    fn from(_e: AllocError) -> ReadError {
        ReadError::NoMemory
    }
}

impl<T: Drop> From<AllocFailed<T>> for ReadError {
    ghost from_gives = { λ _ e. e ≡ NoMemory };

    fn from(_e: AllocFailed<T>) -> ReadError {
        ReadError::NoMemory
    }
}

impl From<Refused> for ReadError {
    ghost from_gives = { λ _ e. e ≡ NoMemory };

    fn from(_e: Refused) -> ReadError {
        ReadError::NoMemory
    }
}
