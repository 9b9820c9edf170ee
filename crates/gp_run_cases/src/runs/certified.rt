//! Traces that are asked after their runs.

use crate::runs::replay::text_of;
use gp_certify::{Checked, certify};
use gp_hostfile::read_host;
use gp_reader::read_program;
use gp_rows::{Answer, Wrong, field};
use gp_trace::read_trace;
use std::alloc::Global;

/// What the runs of a program on a host with a trace end with: the graph that they give, that some fail, or that there is
/// none.
pub(crate) fn answer(alloc: Global, fields: &[&[u8]], out: &mut Answer) {
    match checked(alloc, fields) {
        Ok(checked) => put_checked(alloc, &checked, out),
        Err(wrong) => out.wrong(wrong),
    }
}

fn checked(alloc: Global, fields: &[&[u8]]) -> Result<Checked, Wrong> {
    let program = read_program(alloc, field(fields, 0))?;
    let host = read_host(alloc, field(fields, 1))?;
    let (_, items) = read_trace(alloc, field(fields, 2))?;
    Ok(certify(alloc, &program, &host, &items)?)
}

fn put_checked(alloc: Global, checked: &Checked, out: &mut Answer) {
    if let Some(graph) = &checked.graph {
        out.take(text_of(alloc, graph));
    }
    out.word_if(checked.fail, b"fail");
    out.word_if(checked.graph.is_none() && !checked.fail, b"none");
}
