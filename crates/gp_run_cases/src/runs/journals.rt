//! Journals that are made again on a host.

use crate::runs::replay::{catch_up, rules_of, text_of};
use gp_hostfile::read_host;
use gp_journal::Trail;
use gp_rows::{Answer, Wrong, field};
use gp_trace::read_trace;
use std::alloc::Global;

/// What the items of a journal leave, how many steps are live then, and how many items were caught up with; or that they do
/// not lead on: a rule, a host, and the journal.
pub(crate) fn answer(alloc: Global, fields: &[&[u8]], out: &mut Answer) {
    let host = read_host(alloc, field(fields, 1));
    match host {
        Ok(graph) => {
            let mut trail = Trail::new(alloc, graph);
            match is_made(alloc, fields, &mut trail) {
                Ok(true) => put_copy(alloc, &trail, out),
                Ok(false) => out.word(b"an item may not be made"),
                Err(wrong) => out.wrong(wrong),
            }
        }
        Err(fault) => out.debug(&fault),
    }
}

fn is_made(alloc: Global, fields: &[&[u8]], trail: &mut Trail) -> Result<bool, Wrong> {
    let (_, items) = read_trace(alloc, field(fields, 2))?;
    let rules = rules_of(alloc, field(fields, 0))?;
    Ok(catch_up(alloc, rules.as_slice(), &items, trail)?)
}

// Tells a copy of the trail.
fn put_copy(alloc: Global, trail: &Trail, out: &mut Answer) {
    match trail.copy() {
        Ok(copy) => {
            out.take(text_of(alloc, copy.graph()));
            out.put_number(copy.depth());
            out.word(b"live,");
            out.number(trail.caught());
            out.word(b"caught");
        }
        Err(error) => out.debug(&error),
    }
}
