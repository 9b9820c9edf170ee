//! The program, the host, the trace and the script of texts, or the refusal that says why not.

ghost use Rattle.std.specs.Prelude.{◌≡◌};
ghost use Rattle.gp_cli.specs.Loads.{TellsOrFaults, TreesOrFaults, HostsOrFaults, TracesOrFaults, ScriptsOrFaults, BothOrFaults};

use crate::refused::{host_refused, program_refused, script_refused, trace_refused};
use crate::said::Stop;
use gp_derivation::{Line, read_script};
use gp_graph::Graph;
use gp_hostfile::read_host;
use gp_reader::{read_program, read_tree};
use gp_syntax::{Ast, Item, Program};
use gp_trace::{Version, read_trace};
use std::alloc::Global;

/// The program of a text.
pub(crate) fn program_of<'a>(alloc: Global, text: &[u8]) -> Result<Program, Stop<'a>>
    ensures { TellsOrFaults text.now result }
{
    match read_program(alloc, text) {
        Ok(program) => Ok(program),
        Err(fault) => Err(program_refused(fault)),
    }
}

/// The tree of a text.
pub(crate) fn tree_of<'a>(alloc: Global, text: &[u8]) -> Result<Ast, Stop<'a>>
    ensures { TreesOrFaults text.now result }
{
    match read_tree(alloc, text) {
        Ok(tree) => Ok(tree),
        Err(fault) => Err(program_refused(fault)),
    }
}

/// The graph of a host's text.
pub(crate) fn host_of<'a>(alloc: Global, text: &[u8]) -> Result<Graph, Stop<'a>>
    ensures { HostsOrFaults text.now result }
{
    match read_host(alloc, text) {
        Ok(graph) => Ok(graph),
        Err(fault) => Err(host_refused(fault)),
    }
}

/// The program and the graph of two texts.
pub(crate) fn both_of<'a>(
    alloc: Global,
    program: &[u8],
    host: &[u8],
) -> Result<(Program, Graph), Stop<'a>>
    ensures { BothOrFaults program.now host.now result }
{
    let program = program_of(alloc, program)?;
    let graph = host_of(alloc, host)?;
    Ok((program, graph))
}

/// The items of the text of a trace, with their version.
pub(crate) fn trace_of<'a>(alloc: Global, text: &[u8]) -> Result<(Version, Vec<Item>), Stop<'a>>
    ensures { TracesOrFaults text.now result }
{
    match read_trace(alloc, text) {
        Ok(trace) => Ok(trace),
        Err(fault) => Err(trace_refused(fault)),
    }
}

/// The lines of the text of a script.
pub(crate) fn script_of<'a>(alloc: Global, text: &[u8]) -> Result<Vec<Line>, Stop<'a>>
    ensures { ScriptsOrFaults text.now result }
{
    match read_script(alloc, text) {
        Ok(lines) => Ok(lines),
        Err(fault) => Err(script_refused(fault)),
    }
}
