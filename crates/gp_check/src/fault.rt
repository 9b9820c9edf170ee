//! Why a declaration is no rule.

use gp_memory::NoMemory;
use gp_syntax::Name;
use std::alloc::AllocError;
use std::error::Error;
use std::fmt::{Debug, Display, Formatter, Result, Write};

/// Why a declaration is no rule: the first static clause that it breaks, in the order of these variants, with the first
/// name in text order that breaks it, where the clause names one.
#[derive(Drop)]
pub enum RuleFault {
    /// A side has more than 32 nodes or more than 64 edges.
    TooLarge,
    /// A variable, a node or an edge of its side, or a name in the interface stood before among those of its kind.
    TwiceDeclared(Name),
    /// The end of an edge is no node of its side, or a degree or a test of edges names no left node.
    UnknownNode(Name),
    /// A name in the interface is not a node of both sides.
    BadInterface(Name),
    /// A variable is not declared, or stands on the right or in the condition and in no left label.
    Unbound(Name),
    /// An operand is not of the type that its operation wants.
    BadType,
    /// A left label has an operation, or more than one occurrence of list variables, or in a string of string variables.
    NotSimple,
    /// A word is no mark of its place, or `any` stands on the right where nothing was found by it.
    BadMark,
    /// `(B)` stands on a right edge whose name is no left edge with `(B)` between the same two nodes.
    BadBidi(Name),
    /// Memory was refused.
    NoMemory,
}

impl RuleFault {
    // The clause that is broken, before the name of what breaks it.
    fn clause(&self) -> &'static str {
        match self {
            RuleFault::TooLarge => "TooLarge",
            RuleFault::TwiceDeclared(_) => "TwiceDeclared ",
            RuleFault::UnknownNode(_) => "UnknownNode ",
            RuleFault::BadInterface(_) => "BadInterface ",
            RuleFault::Unbound(_) => "Unbound ",
            RuleFault::BadType => "BadType",
            RuleFault::NotSimple => "NotSimple",
            RuleFault::BadMark => "BadMark",
            RuleFault::BadBidi(_) => "BadBidi ",
            RuleFault::NoMemory => "NoMemory",
        }
    }
}

impl Display for RuleFault {
    fn fmt<W: Write>(&self, f: &mut Formatter<W>) -> Result {
        f.write_str(self.clause())?;
        match self {
            RuleFault::TwiceDeclared(name)
            | RuleFault::UnknownNode(name)
            | RuleFault::BadInterface(name)
            | RuleFault::Unbound(name)
            | RuleFault::BadBidi(name) => Display::fmt(name, f),
            _ => Ok(()),
        }
    }
}

impl Error for RuleFault {}

// As it is shown to users.
impl Debug for RuleFault {
    fn fmt<W: Write>(&self, f: &mut Formatter<W>) -> Result {
        Display::fmt(self, f)
    }
}

impl From<NoMemory> for RuleFault {
    ghost use Rattle.std.specs.Prelude.{◌≡◌};
    ghost use Rattle.gp_check.specs.declared.fault.RuleFault.TheVariants as faults;

    ghost from_gives = { λ _ e. e ≡ faults.NoMemory };

    fn from(_: NoMemory) -> RuleFault {
        RuleFault::NoMemory
    }
}

impl From<AllocError> for RuleFault {
    ghost use Rattle.std.specs.Prelude.{◌≡◌};
    ghost use Rattle.gp_check.specs.declared.fault.RuleFault.TheVariants as faults;

    ghost from_gives = { λ _ e. e ≡ faults.NoMemory };

    fn from(_: AllocError) -> RuleFault {
        RuleFault::NoMemory
    }
}
