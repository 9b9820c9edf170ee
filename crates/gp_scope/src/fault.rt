//! What is wrong with the names and calls of a program.

use gp_memory::NoMemory as Refused;
use gp_syntax::Name;
use std::alloc::AllocError;
use std::error::Error;
use std::fmt::{Debug, Display, Formatter, Result, Write};

/// The first fault of scope of a program text, with the name of a rule or a procedure where it carries one.
#[derive(Drop)]
pub enum ScopeFault {
    /// Main is not declared outside all procedures.
    NoMain,
    /// Main is declared more than once.
    TwoMains,
    /// The name is declared twice among the same declarations.
    TwoRules(Name),
    /// The name is called, and no rule or procedure of that name is visible there.
    Unknown(Name),
    /// The procedure reaches itself through calls.
    Recursive(Name),
    /// A chain of calls that begins at the procedure has more than 64 procedures.
    DeepCalls(Name),
    /// Main, or a condition of `if` or `try`, may break.
    StrayBreak,
    /// Memory was refused.
    NoMemory,
}

impl ScopeFault {
    // What is wrong, behind the name where there is one.
    fn said(&self) -> &'static str {
        match self {
            ScopeFault::NoMain => "Main is not declared",
            ScopeFault::TwoMains => "Main is declared more than once",
            ScopeFault::TwoRules(_) => " is declared twice",
            ScopeFault::Unknown(_) => " is called and is not visible there",
            ScopeFault::Recursive(_) => " calls itself",
            ScopeFault::DeepCalls(_) => " begins a chain of more than 64 calls",
            ScopeFault::StrayBreak => "`break` stands outside a loop",
            ScopeFault::NoMemory => "memory was refused",
        }
    }
}

impl Display for ScopeFault {
    fn fmt<W: Write>(&self, f: &mut Formatter<W>) -> Result {
        match self {
            ScopeFault::TwoRules(name)
            | ScopeFault::Unknown(name)
            | ScopeFault::Recursive(name)
            | ScopeFault::DeepCalls(name) => Display::fmt(name, f)?,
            _ => {}
        }
        f.write_str(self.said())
    }
}

impl Error for ScopeFault {}

// As it is shown to users.
impl Debug for ScopeFault {
    fn fmt<W: Write>(&self, f: &mut Formatter<W>) -> Result {
        Display::fmt(self, f)
    }
}

impl From<Refused> for ScopeFault {
    ghost use Rattle.std.specs.Prelude.{◌≡◌};
    ghost use Rattle.gp_scope.specs.declared.fault.ScopeFault.TheVariants as faults;

    ghost from_gives = { λ _ e. e ≡ faults.NoMemory };

    fn from(_: Refused) -> ScopeFault {
        ScopeFault::NoMemory
    }
}

impl From<AllocError> for ScopeFault {
    ghost use Rattle.std.specs.Prelude.{◌≡◌};
    ghost use Rattle.gp_scope.specs.declared.fault.ScopeFault.TheVariants as faults;

    ghost from_gives = { λ _ e. e ≡ faults.NoMemory };

    fn from(_: AllocError) -> ScopeFault {
        ScopeFault::NoMemory
    }
}
