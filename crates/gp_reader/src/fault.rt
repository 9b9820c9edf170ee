//! Why a text is no program.

use gp_check::RuleFault;
use gp_memory::NoMemory;
use gp_scope::ScopeFault;
use gp_syntax::Name;
use gp_tokens::LexFault;
use std::alloc::AllocError;
use std::fmt::{Debug, Display, Formatter, Result, Write};
use thiserror::Error;

/// Why a text is no program: its first fault, in the order of these variants. Lines are counted from 1.
#[derive(Drop, Error)]
pub enum ProgramFault {
    /// The text has no tokens, and this is why.
    #[error("{0}")]
    Lex(LexFault),
    /// The line of the first token that is nested more than 64 deep.
    #[error("TooDeep line {line}")]
    TooDeep { line: u64 },
    /// The tokens are no program; the line of one of them, or that on which the text ends.
    #[error("Syntax line {line}")]
    Syntax { line: u64 },
    /// The line of the first numeral that is 2 to the power of 127 without a minus.
    #[error("NumberRange line {line}")]
    NumberRange { line: u64 },
    /// What is wrong with names and calls.
    #[error("{0}")]
    Scope(ScopeFault),
    /// The name of the first rule, in the order of the text, that breaks a static clause, and which.
    #[error("rule {name}: {fault}")]
    Rule { name: Name, fault: RuleFault },
    /// Memory was refused.
    #[error("NoMemory")]
    NoMemory,
}

// As it is shown to users.
impl Debug for ProgramFault {
    fn fmt<W: Write>(&self, f: &mut Formatter<W>) -> Result {
        Display::fmt(self, f)
    }
}

impl From<NoMemory> for ProgramFault {
    ghost use Rattle.std.specs.Prelude.{◌≡◌};
    ghost use Rattle.gp_reader.specs.declared.fault.ProgramFault.TheVariants as faults;

    ghost from_gives = { λ _ e. e ≡ faults.NoMemory };

    fn from(_: NoMemory) -> ProgramFault {
        ProgramFault::NoMemory
    }
}

impl From<AllocError> for ProgramFault {
    ghost use Rattle.std.specs.Prelude.{◌≡◌};
    ghost use Rattle.gp_reader.specs.declared.fault.ProgramFault.TheVariants as faults;

    ghost from_gives = { λ _ e. e ≡ faults.NoMemory };

    fn from(_: AllocError) -> ProgramFault {
        ProgramFault::NoMemory
    }
}

impl From<LexFault> for ProgramFault {
    ghost use Rattle.std.specs.Prelude.{◌≡◌};
    ghost use Rattle.gp_reader.specs.inside.Stages.{lex_fault};

    ghost from_gives = { λ f e. e ≡ lex_fault f };

    fn from(fault: LexFault) -> ProgramFault {
        match fault {
            LexFault::NoMemory => ProgramFault::NoMemory,
            other => ProgramFault::Lex(other),
        }
    }
}

impl From<ScopeFault> for ProgramFault {
    ghost use Rattle.std.specs.Prelude.{◌≡◌};
    ghost use Rattle.gp_reader.specs.inside.Stages.{scope_fault};

    ghost from_gives = { λ f e. e ≡ scope_fault f };

    fn from(fault: ScopeFault) -> ProgramFault {
        match fault {
            ScopeFault::NoMemory => ProgramFault::NoMemory,
            other => ProgramFault::Scope(other),
        }
    }
}
