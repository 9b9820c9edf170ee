//! What a check comes to.

ghost use Rattle.std.specs.Prelude.{◌≡◌};
ghost use Rattle.gp_syntax.specs.Tree.{program_of_tree};
ghost use Rattle.gp_words.specs.Told.{check_now};
ghost use Rattle.gp_cli.specs.inside.Parts.{verdict, ChecksBoth, ChecksFiles};

use crate::files::{load_both, load_result, load_trace};
use crate::said::{Said, Stop};
use gp_derivation::is_derivation;
use gp_graph::Graph;
use gp_io::Files;
use gp_memory::NoMemory;
use gp_syntax::Program;
use gp_words::CheckCommand;
use std::alloc::Global;

// What is said of it, whether it is a derivation.
fn verdict<'a>(is_one: Result<bool, NoMemory>) -> Result<Said<'a>, Stop<'a>>
    ensures { result ≡ verdict is_one }
{
    match is_one {
        Ok(true) => Ok(Said::Derivation),
        Ok(false) => Ok(Said::NoDerivation),
        Err(NoMemory) => Err(Stop::NoMemory),
    }
}

// Whether the trace and the result of the files are a derivation of the program on the host.
fn check_both<'a, F: Files>(
    alloc: Global,
    command: CheckCommand<'a>,
    files: &mut F,
    program: &Program,
    host: &Graph,
) -> Result<Said<'a>, Stop<'a>>
    ensures { ChecksBoth (F.known files.old) (F.known files.new) (check_now command.entry) (program_of_tree program.now) host.now.graph result }
{
    let trace = load_trace(alloc, files, command.trace)?;
    let text = load_result(alloc, files, command.result)?;
    verdict(is_derivation(alloc, program, host, trace.0, &trace.1, &text))
}

/// What the four files of a check come to.
pub(crate) fn check<'a, F: Files>(
    alloc: Global,
    command: CheckCommand<'a>,
    files: &mut F,
) -> Result<Said<'a>, Stop<'a>>
    ensures { ChecksFiles (F.known files.old) (F.known files.new) (check_now command.entry) result }
{
    let both = load_both(alloc, files, command.program, command.host)?;
    check_both(alloc, command, files, &both.0, &both.1)
}
