//! Hosts that are read and written, and the first faults of other texts.

use crate::samples::host_of;
use gp_graph::Graph;
use gp_hostfile::{laws, write_graph};
use gp_rows::{Answer, Wrong, field};
use std::alloc::Global;

/// The text of the graph of a host, which is read back; or the fault.
pub(crate) fn answer(alloc: Global, fields: &[&[u8]], out: &mut Answer) {
    match host_of(alloc, field(fields, 0)) {
        Ok(graph) => {
            out.take(written(alloc, &graph));
            read_back(alloc, out);
        }
        Err(fault) => out.show(&fault),
    }
}

// Whether the text that is written is read back as the same graph.
fn read_back(alloc: Global, out: &mut Answer) {
    match host_of(alloc, out.text()) {
        Ok(graph) => {
            laws::graphs_have_short_numbers(&graph);
            match written(alloc, &graph) {
                Ok(text) => {
                    if text.as_slice() != out.text() {
                        out.word(&text);
                    }
                }
                Err(wrong) => out.wrong(wrong),
            }
        }
        Err(fault) => out.show(&fault),
    }
}

fn written(alloc: Global, graph: &Graph) -> Result<Vec<u8>, Wrong> {
    let mut text = Vec::new(alloc);
    write_graph(alloc, graph, &mut text)?;
    Ok(text)
}

/// The beginnings of a text that are hosts.
pub(crate) fn beginnings(alloc: Global, fields: &[&[u8]], out: &mut Answer) {
    let text = field(fields, 0);
    for length in 0..text.len() {
        let (beginning, _) = text.split_at(length);
        if host_of(alloc, beginning).is_ok() {
            out.word(beginning);
        }
    }
}
