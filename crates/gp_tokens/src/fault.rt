//! Why a text has no tokens.

ghost use Rattle.std.specs.Prelude.{◌≡◌};
ghost use Rattle.gp_tokens.specs.declared.fault.LexFault.TheVariants.{NoMemory};

use std::alloc::{AllocError, AllocFailed};
use std::error::Error;
use std::fmt::{Debug, Display, Formatter, Result, Write};

/// Why a text has no tokens. Each number is an offset in bytes from the front of the text.
#[derive(Drop)]
pub enum LexFault {
    /// A byte that begins no token, or one inside a string that is not from 32 to 126.
    BadByte(u64),
    /// The opening quote of a string that the text ends in.
    OpenString(u64),
    /// The front of a comment `/*` that the text ends in.
    OpenComment(u64),
    /// The front of a number above 2 to the power of 127.
    NumberTooLong(u64),
    /// Memory was refused.
    NoMemory,
}

impl Display for LexFault {
    fn fmt<W: Write>(&self, f: &mut Formatter<W>) -> Result {
        f.write_str(self.kind())?;
        match self.offset() {
            Some(offset) => Display::fmt(&offset, f),
            None => Ok(()),
        }
    }
}

impl Error for LexFault {}

// As it is shown to users.
impl Debug for LexFault {
    fn fmt<W: Write>(&self, f: &mut Formatter<W>) -> Result {
        Display::fmt(self, f)
    }
}

impl From<AllocError> for LexFault {
    ghost from_gives = { λ _ e. e ≡ NoMemory };

    fn from(_e: AllocError) -> LexFault {
        LexFault::NoMemory
    }
}

impl<T: Drop> From<AllocFailed<T>> for LexFault {
    ghost from_gives = { λ _ e. e ≡ NoMemory };

    fn from(_e: AllocFailed<T>) -> LexFault {
        LexFault::NoMemory
    }
}
