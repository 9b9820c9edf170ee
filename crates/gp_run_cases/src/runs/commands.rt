//! Commands with real steps, with bounds 0 to 6: what is noted, and how the run ends.

use crate::runs::bits::Bits;
use gp_hostfile::read_host;
use gp_reader::read_program;
use gp_rows::{Answer, Wrong, field, number};
use gp_syntax::{Item, Program};
use gp_system::{Crew, Outcome, Ran, Terms, execute};
use opt_worker::Pacing;
use std::alloc::Global;
use std::sync::Wait;
use std::thread::Threads;

/// What comes of a program on a host with bounds 0 to 6, with a bar behind each: the program, the host, and the answers of
/// `or` as bits.
pub(crate) fn answer<R: Threads + Wait + Sync>(
    rt: &R,
    alloc: Global,
    fields: &[&[u8]],
    out: &mut Answer,
) {
    match read_program(alloc, field(fields, 0)) {
        Ok(program) => {
            for bound in 0..7 {
                match run(rt, alloc, &program, fields, bound) {
                    Ok(outcome) => put_outcome(outcome, out),
                    Err(wrong) => out.wrong(wrong),
                }
                out.put(b"|");
            }
        }
        Err(fault) => out.debug(&fault),
    }
}

// The run of the program with this bound.
fn run<R: Threads + Wait + Sync>(
    rt: &R,
    alloc: Global,
    program: &Program,
    fields: &[&[u8]],
    bound: u64,
) -> Result<Outcome, Wrong> {
    let host = read_host(alloc, field(fields, 1))?;
    let terms = Terms {
        bound,
        keeps: true,
        crew: Crew {
            workers: 1,
            fan: 1,
            batch: 1,
        },
        pace: &Pacing::Free,
    };
    let mut bits = Bits(number(fields, 2));
    Ok(execute(rt, alloc, program, host, terms, &mut bits))
}

fn put_outcome(outcome: Outcome, out: &mut Answer) {
    match outcome {
        Outcome::Graph(ran) => put_end(&ran, b"graph", out),
        Outcome::Fail(ran) => put_end(&ran, b"fail", out),
        Outcome::Bound(ran) => put_end(&ran, b"bound", out),
        Outcome::Fault(ran, _, _) => put_end(&ran, b"fault", out),
        Outcome::NoMemory => out.wrong(Wrong::new("no memory")),
    }
}

// Writes steps, turns and Backs, and the end.
fn put_end(ran: &Ran, end: &[u8], out: &mut Answer) {
    let Some(items) = &ran.items else {
        return out.put(b"no items");
    };
    let items = items.as_slice();
    for item in items {
        match item {
            Item::Step(found) if found.rule() == 3 => out.put(b"d"),
            Item::Step(_) => out.put(b"s"),
            Item::Turn => out.put(b"t"),
            Item::Back(count) => {
                out.put(b"b");
                out.put_number(*count);
            }
        }
    }
    out.put(if items.is_empty() { b"" } else { b" " });
    out.put(end);
}
