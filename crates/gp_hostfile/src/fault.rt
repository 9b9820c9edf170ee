//! Why a host text gave no graph.

use gp_memory::NoMemory;
use gp_tokens::{LexFault, Text};
use std::alloc::AllocError;
use std::error::Error;
use std::fmt::{Debug, Display, Formatter, Result, Write};

/// Why a host text gave no graph: its first fault, in the order of these variants. Those of one variant go by the
/// order of the text, and those of nodes come before those of edges.
#[derive(Drop)]
pub enum HostFault {
    /// The text has no tokens, and this is why.
    Lex(LexFault),
    /// The tokens are no host. The number is the line, counted from 1, of a token that fits nothing, or that on which
    /// the text ends.
    Syntax(u64),
    /// An integer of a label is 2 to the power of 127; the offset of its Number in bytes.
    NumberRange(u64),
    /// The name of a node stood at a node before.
    TwoNodes(Text),
    /// The name of an edge stood at an edge before.
    TwoEdges(Text),
    /// The end of an edge names no node.
    NoSuchEnd(Text),
    /// The word at the place of a mark is no mark of nodes, or of edges; the name of that node or edge.
    WrongMark(Text),
    /// Memory was refused.
    NoMemory,
}

impl HostFault {
    // The kind of the fault, before what more is shown of it.
    fn kind(&self) -> &'static str {
        match self {
            HostFault::Lex(_) => "",
            HostFault::Syntax(_) => "Syntax ",
            HostFault::NumberRange(_) => "NumberRange ",
            HostFault::TwoNodes(_) => "TwoNodes ",
            HostFault::TwoEdges(_) => "TwoEdges ",
            HostFault::NoSuchEnd(_) => "NoSuchEnd ",
            HostFault::WrongMark(_) => "WrongMark ",
            HostFault::NoMemory => "NoMemory",
        }
    }
}

impl Display for HostFault {
    fn fmt<W: Write>(&self, f: &mut Formatter<W>) -> Result {
        f.write_str(self.kind())?;
        match self {
            HostFault::Lex(fault) => Display::fmt(fault, f),
            HostFault::Syntax(number) | HostFault::NumberRange(number) => Display::fmt(number, f),
            HostFault::TwoNodes(name)
            | HostFault::TwoEdges(name)
            | HostFault::NoSuchEnd(name)
            | HostFault::WrongMark(name) => Display::fmt(name, f),
            HostFault::NoMemory => Ok(()),
        }
    }
}

impl Error for HostFault {}

// As it is shown to users.
impl Debug for HostFault {
    fn fmt<W: Write>(&self, f: &mut Formatter<W>) -> Result {
        Display::fmt(self, f)
    }
}

impl From<NoMemory> for HostFault {
    ghost use Rattle.std.specs.Prelude.{◌≡◌};
    ghost use Rattle.gp_hostfile.specs.declared.fault.HostFault.TheVariants as faults;

    ghost from_gives = { λ _ e. e ≡ faults.NoMemory };

    fn from(_: NoMemory) -> HostFault {
        HostFault::NoMemory
    }
}

impl From<AllocError> for HostFault {
    ghost use Rattle.std.specs.Prelude.{◌≡◌};
    ghost use Rattle.gp_hostfile.specs.declared.fault.HostFault.TheVariants as faults;

    ghost from_gives = { λ _ e. e ≡ faults.NoMemory };

    fn from(_: AllocError) -> HostFault {
        HostFault::NoMemory
    }
}

impl From<LexFault> for HostFault {
    ghost use Rattle.std.specs.Prelude.{◌≡◌};
    ghost use Rattle.gp_hostfile.specs.inside.Stages.{lex_fault};

    ghost from_gives = { λ f e. e ≡ lex_fault f };

    fn from(fault: LexFault) -> HostFault {
        match fault {
            LexFault::NoMemory => HostFault::NoMemory,
            other => HostFault::Lex(other),
        }
    }
}
