//! What is answered, before it has a text.

ghost use Rattle.std.specs.Prelude.{◌≡◌, Err, IfOk, OnErr};
ghost use Rattle.gp_cli.specs.declared.said.Stop.TheVariants.{NoMemory as no_memory};
ghost use Rattle.gp_cli.specs.Said.{IsAnswer, or_stopped};

use gp_gen::Kind;
use gp_hostfile::HostFault;
use gp_memory::NoMemory;
use gp_reader::ProgramFault;
use gp_syntax::{Name, NumberKind};
use gp_system::Ran;

/// Why a command is not carried out.
pub(crate) enum Refusal<'a> {
    Usage,
    LongProgram,
    BadProgram(ProgramFault),
    LongHost,
    BadHost(HostFault),
    LongTrace,
    /// The first line that is not of the form of its place.
    BadTrace(u64),
    LongResult,
    LongScript,
    /// The first line that is none of the words of scripts.
    BadScript(u64),
    /// The name of the file that cannot be read.
    Unread(&'a str),
}

// Written, so that a function that lets a refusal go calls it.
impl Drop for Refusal<'_> {
    fn drop(self) {
        match self {
            Refusal::BadProgram(fault) => drop(fault),
            Refusal::BadHost(fault) => drop(fault),
            Refusal::Usage
            | Refusal::LongProgram
            | Refusal::LongHost
            | Refusal::LongTrace
            | Refusal::BadTrace(_)
            | Refusal::LongResult
            | Refusal::LongScript
            | Refusal::BadScript(_)
            | Refusal::Unread(_) => {}
        }
    }
}

/// An answer: what a command comes to, or why it is not carried out. What a run leaves has its items exactly where the
/// journal is asked for.
#[derive(Drop)]
pub(crate) enum Said<'a> {
    Graph(Ran),
    Fail(Ran),
    /// The kind and the size of a demo, and what its run leaves.
    Demo(Kind, u64, Ran),
    /// The trace and the result that are checked are a derivation, or are none.
    Derivation,
    NoDerivation,
    /// The canonical text of a program.
    Formatted(Vec<u8>),
    /// What a script comes to over the items of a run.
    Walked(Vec<u8>),
    /// The bound that is spent.
    Bound(u64),
    /// The name of the rule that has a faulty match.
    Number(Name, NumberKind),
    Refused(Refusal<'a>),
}

/// Why a part of the call did not go on: the command is refused, or memory was.
#[derive(Drop)]
pub(crate) enum Stop<'a> {
    Said(Refusal<'a>),
    NoMemory,
}

impl<'a> From<NoMemory> for Stop<'a> {
    ghost use Rattle.std.specs.Prelude.{◌≡◌};
    ghost use Rattle.gp_cli.specs.declared.said.Stop.TheVariants.{NoMemory as no_memory};

    ghost from_gives = { λ _ e. e ≡ no_memory };

    fn from(_: NoMemory) -> Self {
        Stop::NoMemory
    }
}

/// The answer, or that memory was refused.
pub(crate) fn settled<'a>(outcome: Result<Said<'a>, Stop<'a>>) -> Result<Said<'a>, NoMemory>
    ensures answer { IfOk result (IsAnswer outcome.entry) }
    ensures refused { OnErr result (outcome.entry ≡ Err no_memory) }
{
    match outcome {
        Ok(said) => Ok(said),
        Err(Stop::Said(refusal)) => Ok(Said::Refused(refusal)),
        Err(Stop::NoMemory) => Err(NoMemory),
    }
}

/// The answer, or the stop of refused memory.
pub(crate) fn or_stopped<'a>(outcome: Result<Said<'a>, NoMemory>) -> Result<Said<'a>, Stop<'a>>
    ensures { result ≡ or_stopped outcome.entry }
{
    match outcome {
        Ok(said) => Ok(said),
        Err(NoMemory) => Err(Stop::NoMemory),
    }
}
