//! Runs by several workers, each of which is replayed by its printed journal, and every tenth judged by the checker.

use crate::runs::bits::Bits;
use crate::runs::replay::{are_alike, catch_up, text_of};
use gp_derivation::is_derivation;
use gp_graph::Graph;
use gp_hostfile::read_host;
use gp_journal::Trail;
use gp_reader::read_program;
use gp_rows::{Answer, Wrong, field, number};
use gp_syntax::{Item, Program, Rule};
use gp_system::{Crew, Outcome, Ran, Terms, execute};
use gp_trace::{Version, read_trace, write_trace};
use opt_worker::Pacing;
use std::alloc::Global;
use std::sync::Wait;
use std::thread::Threads;

/// How many runs left a graph to which their printed journal leads, and every tenth a derivation: a program, a host, how
/// many workers there are, how many matches one may offer in a turn, and how many runs.
pub(crate) fn answer<R: Threads + Wait + Sync>(
    rt: &R,
    alloc: Global,
    fields: &[&[u8]],
    out: &mut Answer,
) {
    match replayed(rt, alloc, fields) {
        Ok(count) => {
            out.number(count);
            out.word(b"replayed");
        }
        Err(wrong) => out.wrong(wrong),
    }
}

// Runs the program as long as the runs are replayed. How many were.
fn replayed<R: Threads + Wait + Sync>(
    rt: &R,
    alloc: Global,
    fields: &[&[u8]],
) -> Result<u64, Wrong> {
    let host = read_host(alloc, field(fields, 1))?;
    let program = read_program(alloc, field(fields, 0))?;
    let crew = Crew {
        workers: u32::try_from(number(fields, 2))?,
        fan: 1,
        batch: u32::try_from(number(fields, 3))?,
    };
    let runs = number(fields, 4);
    for run in 0..runs {
        let Some(ran) = ran_of(rt, alloc, &program, &host, crew)? else {
            return Ok(run);
        };
        if !is_replayed(alloc, program.parts().rules.as_slice(), &host, &ran)? {
            return Ok(run);
        }
        if run % 10 == 0 && !is_derived(alloc, &program, &host, &ran)? {
            return Ok(run);
        }
    }
    Ok(runs)
}

// What a run leaves that leaves a graph.
fn ran_of<R: Threads + Wait + Sync>(
    rt: &R,
    alloc: Global,
    program: &Program,
    host: &Graph,
    crew: Crew,
) -> Result<Option<Ran>, Wrong> {
    let copy = host.copy(alloc)?;
    let terms = Terms {
        bound: 1000,
        keeps: true,
        crew,
        pace: &Pacing::Free,
    };
    match execute(rt, alloc, program, copy, terms, &mut Bits(0)) {
        Outcome::Graph(ran) => Ok(Some(ran)),
        _ => Ok(None),
    }
}

// The items that are kept.
fn items_of(ran: &Ran) -> Result<&[Item], Wrong> {
    match &ran.items {
        Some(items) => Ok(items.as_slice()),
        None => Err(Wrong::new("no items")),
    }
}

// Whether the items and the text of the graph are a derivation of the program on the host.
fn is_derived(alloc: Global, program: &Program, host: &Graph, ran: &Ran) -> Result<bool, Wrong> {
    let text = text_of(alloc, &ran.graph)?;
    let items = items_of(ran)?;
    Ok(is_derivation(alloc, program, host, Version::Two, items, &text)?)
}

// Whether the items' printed text is read and leads from the host to the graph.
fn is_replayed(alloc: Global, rules: &[Rule], host: &Graph, ran: &Ran) -> Result<bool, Wrong> {
    let mut text = Vec::new(alloc);
    write_trace(alloc, items_of(ran)?, &mut text)?;
    let (_, items) = read_trace(alloc, &text)?;
    let mut trail = Trail::new(alloc, host.copy(alloc)?);
    let is_made = catch_up(alloc, rules, &items, &mut trail)?;
    Ok(is_made && are_alike(alloc, trail.graph(), &ran.graph)?)
}
