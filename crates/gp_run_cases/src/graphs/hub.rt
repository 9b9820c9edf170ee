//! Nodes with many edges.

use crate::graphs::edits::make_edits;
use crate::graphs::there::{has_edge, has_node, label};
use crate::graphs::told::{met, put_numbers};
use gp_graph::Graph;
use gp_memory::NoMemory;
use gp_rows::{Answer, field, number};
use gp_values::{EdgeMark, NodeMark};
use std::alloc::Global;

/// Two nodes, and so many edges from the first to the second and back, in turns.
pub(crate) fn hub(alloc: Global, edges: u64) -> Result<Graph, NoMemory> {
    let mut graph = Graph::new(alloc);
    for _ in 0..2 {
        let list = label(alloc, 0)?;
        graph.add_node(list, NodeMark::None, false)?;
    }
    for e in 0..edges {
        if has_node(&graph, 0) && has_node(&graph, 1) {
            let list = label(alloc, 1)?;
            graph.add_edge(e % 2, 1 - e % 2, list, EdgeMark::None)?;
        }
    }
    Ok(graph)
}

/// How many edges a hub loses one by one, with the degrees that follow, and its degrees then: how many it has.
pub(crate) fn answer(alloc: Global, fields: &[&[u8]], out: &mut Answer) {
    let edges = number(fields, 0);
    match hub(alloc, edges) {
        Ok(mut graph) => {
            out.number(lost(&mut graph, edges));
            out.word(b"lost, degrees");
            put_degrees(&graph, out);
        }
        Err(error) => out.debug(&error),
    }
}

// Removes so many edges, as long as the degrees of the first node are together the edges that are left. How many were
// removed.
fn lost(graph: &mut Graph, edges: u64) -> u64 {
    for e in 0..edges {
        if !has_node(graph, 0) {
            return e;
        }
        let (arriving, leaving) = graph.degrees(0);
        if arriving.saturating_add(leaving) != edges - e || !has_edge(graph, e) {
            return e;
        }
        graph.remove_edge(e);
    }
    edges
}

fn put_degrees(graph: &Graph, out: &mut Answer) {
    if has_node(graph, 0) {
        let (arriving, leaving) = graph.degrees(0);
        out.number(arriving);
        out.number(leaving);
    }
}

/// In which order the edges that leave a hub are met, and in a copy of it: how many edges it has, and edits of it.
pub(crate) fn order(alloc: Global, fields: &[&[u8]], out: &mut Answer) {
    match hub(alloc, number(fields, 0)) {
        Ok(mut graph) => {
            make_edits(alloc, field(fields, 1), &mut graph, &mut Answer::new(alloc));
            put_met(alloc, &graph, out);
            match graph.copy(alloc) {
                Ok(copied) => put_met(alloc, &copied, out),
                Err(error) => out.debug(&error),
            }
        }
        Err(error) => out.debug(&error),
    }
}

fn put_met(alloc: Global, graph: &Graph, out: &mut Answer) {
    out.word(b"met");
    if has_node(graph, 0) {
        match met(alloc, graph.out_edges(0)) {
            Ok(numbers) => put_numbers(&numbers, out),
            Err(error) => out.debug(&error),
        }
    }
}
