//! The files of a command, read and understood, or the refusal that says why not.

ghost use Rattle.std.specs.Prelude.{◌≡◌, ◌≤◌};
ghost use Rattle.gp_cli.specs.Loads.{ReadsFile, LoadsProgram, LoadsTree, LoadsHost, LoadsBoth, LoadsTrace, LoadsScript};
ghost use Rattle.gp_cli.specs.Texts.{long_result};
ghost use Rattle.gp_cli.specs.Said.{said_of};

use crate::parsed::{host_of, program_of, script_of, trace_of, tree_of};
use crate::said::{Refusal, Stop};
use gp_derivation::Line;
use gp_graph::Graph;
use gp_io::{Files, ReadRefusal};
use gp_syntax::{Ast, Item, Program};
use gp_trace::Version;
use std::alloc::Global;

/// The greatest number of bytes of a file.
const LIMIT: u64 = 1 << 28;

// All bytes of a file, or the refusal: this one where the file is too long.
fn read_file<'a, F: Files>(
    alloc: Global,
    files: &mut F,
    name: &'a str,
    long: Refusal<'a>,
) -> Result<Vec<u8>, Stop<'a>>
    ensures reads { ReadsFile (F.known files.old) (F.known files.new) name.entry.now (said_of long.entry) result }
    ensures later { (F.known files.old).faults ≤ (F.known files.new).faults }
    ensures same { (F.known files.new).content ≡ (F.known files.old).content }
{
    match files.read(alloc, name, LIMIT) {
        Ok(bytes) => Ok(bytes),
        Err(ReadRefusal::TooLong) => Err(Stop::Said(long)),
        Err(ReadRefusal::Failed) => Err(Stop::Said(Refusal::Unread(name))),
        Err(ReadRefusal::NoMemory) => Err(Stop::NoMemory),
    }
}

// The program of the file.
fn load_program<'a, F: Files>(
    alloc: Global,
    files: &mut F,
    name: &'a str,
) -> Result<Program, Stop<'a>>
    ensures loads { LoadsProgram (F.known files.old) (F.known files.new) name.entry.now result }
    ensures later { (F.known files.old).faults ≤ (F.known files.new).faults }
    ensures same { (F.known files.new).content ≡ (F.known files.old).content }
{
    let text = read_file(alloc, files, name, Refusal::LongProgram)?;
    program_of(alloc, &text)
}

/// The tree of the program's file.
pub(crate) fn load_tree<'a, F: Files>(
    alloc: Global,
    files: &mut F,
    name: &'a str,
) -> Result<Ast, Stop<'a>>
    ensures loads { LoadsTree (F.known files.old) (F.known files.new) name.entry.now result }
    ensures later { (F.known files.old).faults ≤ (F.known files.new).faults }
    ensures same { (F.known files.new).content ≡ (F.known files.old).content }
{
    let text = read_file(alloc, files, name, Refusal::LongProgram)?;
    tree_of(alloc, &text)
}

// The graph of the host's file.
fn load_host<'a, F: Files>(alloc: Global, files: &mut F, name: &'a str) -> Result<Graph, Stop<'a>>
    ensures loads { LoadsHost (F.known files.old) (F.known files.new) name.entry.now result }
    ensures later { (F.known files.old).faults ≤ (F.known files.new).faults }
    ensures same { (F.known files.new).content ≡ (F.known files.old).content }
{
    let text = read_file(alloc, files, name, Refusal::LongHost)?;
    host_of(alloc, &text)
}

/// The program and the graph of two files; the first is read first.
pub(crate) fn load_both<'a, F: Files>(
    alloc: Global,
    files: &mut F,
    program: &'a str,
    host: &'a str,
) -> Result<(Program, Graph), Stop<'a>>
    ensures loads { LoadsBoth (F.known files.old) (F.known files.new) program.entry.now host.entry.now result }
    ensures later { (F.known files.old).faults ≤ (F.known files.new).faults }
    ensures same { (F.known files.new).content ≡ (F.known files.old).content }
{
    let program = load_program(alloc, files, program)?;
    let graph = load_host(alloc, files, host)?;
    Ok((program, graph))
}

/// The items of the trace's file, with their version.
pub(crate) fn load_trace<'a, F: Files>(
    alloc: Global,
    files: &mut F,
    name: &'a str,
) -> Result<(Version, Vec<Item>), Stop<'a>>
    ensures loads { LoadsTrace (F.known files.old) (F.known files.new) name.entry.now result }
    ensures later { (F.known files.old).faults ≤ (F.known files.new).faults }
    ensures same { (F.known files.new).content ≡ (F.known files.old).content }
{
    let text = read_file(alloc, files, name, Refusal::LongTrace)?;
    trace_of(alloc, &text)
}

/// The text of the result's file.
pub(crate) fn load_result<'a, F: Files>(
    alloc: Global,
    files: &mut F,
    name: &'a str,
) -> Result<Vec<u8>, Stop<'a>>
    ensures loads { ReadsFile (F.known files.old) (F.known files.new) name.entry.now long_result result }
    ensures later { (F.known files.old).faults ≤ (F.known files.new).faults }
    ensures same { (F.known files.new).content ≡ (F.known files.old).content }
{
    read_file(alloc, files, name, Refusal::LongResult)
}

/// The lines of the script's file.
pub(crate) fn load_script<'a, F: Files>(
    alloc: Global,
    files: &mut F,
    name: &'a str,
) -> Result<Vec<Line>, Stop<'a>>
    ensures loads { LoadsScript (F.known files.old) (F.known files.new) name.entry.now result }
    ensures later { (F.known files.old).faults ≤ (F.known files.new).faults }
    ensures same { (F.known files.new).content ≡ (F.known files.old).content }
{
    let text = read_file(alloc, files, name, Refusal::LongScript)?;
    script_of(alloc, &text)
}
