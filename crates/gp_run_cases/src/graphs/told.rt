//! Graphs told: each node with its walks, each edge, and the numbers.

use crate::graphs::there::has_node;
use gp_graph::{Graph, Walk};
use gp_memory::NoMemory;
use gp_rows::Answer;
use gp_values::{EdgeMark, List, NodeMark};
use std::alloc::Global;

/// Writes numbers, each behind a space.
pub(crate) fn put_numbers(numbers: &[u64], out: &mut Answer) {
    for number in numbers {
        out.put(b" ");
        out.put_number(*number);
    }
}

/// The numbers of a walk, in the order in which it meets them.
pub(crate) fn met(alloc: Global, walk: Walk<'_>) -> Result<Vec<u64>, NoMemory> {
    let numbers: Vec<u64> = walk.collect(alloc)?;
    Ok(numbers)
}

/// The numbers of a walk, sorted.
pub(crate) fn sorted(alloc: Global, walk: Walk<'_>) -> Result<Vec<u64>, NoMemory> {
    let mut numbers = met(alloc, walk)?;
    numbers.sort_unstable();
    Ok(numbers)
}

// Writes the numbers of a walk, sorted, behind what they are of.
fn put_walk(alloc: Global, walk: Walk<'_>, out: &mut Answer) {
    out.put(b":");
    match sorted(alloc, walk) {
        Ok(numbers) => put_numbers(&numbers, out),
        Err(error) => out.debug(&error),
    }
}

/// Writes a list as a label.
pub(crate) fn put_label(alloc: Global, list: &List, out: &mut Answer) {
    let mut text = Vec::new(alloc);
    match list.write_label(&mut text) {
        Ok(()) => out.word(&text),
        Err(error) => out.debug(&error),
    }
}

fn node_word(mark: NodeMark) -> &'static str {
    match mark {
        NodeMark::None => "None",
        NodeMark::Red => "Red",
        NodeMark::Green => "Green",
        NodeMark::Blue => "Blue",
        NodeMark::Grey => "Grey",
    }
}

/// The name of a mark of an edge, as the rows have it.
pub(crate) fn edge_word(mark: EdgeMark) -> &'static str {
    match mark {
        EdgeMark::None => "None",
        EdgeMark::Red => "Red",
        EdgeMark::Green => "Green",
        EdgeMark::Blue => "Blue",
        EdgeMark::Dashed => "Dashed",
    }
}

/// Writes what a node carries.
pub(crate) fn put_carried(
    alloc: Global,
    list: &List,
    mark: NodeMark,
    is_root: bool,
    out: &mut Answer,
) {
    put_label(alloc, list, out);
    out.word(node_word(mark).as_bytes());
    out.word(if is_root { b"root" } else { b"-" });
}

// Writes a node, its degrees, and the walks there.
fn put_node(alloc: Global, graph: &Graph, n: u64, out: &mut Answer) {
    if has_node(graph, n) {
        out.number(n);
        out.word(b"is");
        if let Some((list, mark, is_root)) = graph.node(n) {
            put_carried(alloc, list, mark, is_root, out);
        }
        let (arriving, leaving) = graph.degrees(n);
        out.put(b", in ");
        out.put_number(arriving);
        put_walk(alloc, graph.in_edges(n), out);
        out.put(b", out ");
        out.put_number(leaving);
        put_walk(alloc, graph.out_edges(n), out);
        out.put(b";");
    }
}

/// Writes the ends of an edge and what it carries.
pub(crate) fn put_ends(source: u64, target: u64, out: &mut Answer) {
    out.number(source);
    out.put(b"-");
    out.put_number(target);
}

// Writes an edge.
fn put_edge(alloc: Global, graph: &Graph, e: u64, out: &mut Answer) {
    if let Some((source, target, list, mark)) = graph.edge(e) {
        out.number(e);
        out.word(b"is");
        put_ends(source, target, out);
        put_label(alloc, list, out);
        out.word(edge_word(mark).as_bytes());
        out.put(b";");
    }
}

// Writes the edges from a node to another, where there are any.
fn put_between(alloc: Global, graph: &Graph, n: u64, m: u64, out: &mut Answer) {
    if has_node(graph, n) && has_node(graph, m) {
        match sorted(alloc, graph.edges_between(n, m)) {
            Ok(numbers) => {
                if !numbers.is_empty() {
                    put_ends(n, m, out);
                    out.put(b":");
                    put_numbers(&numbers, out);
                    out.put(b";");
                }
            }
            Err(error) => out.debug(&error),
        }
    }
}

// Writes the next numbers, how many nodes and roots there are, and which.
fn put_counts(alloc: Global, graph: &Graph, out: &mut Answer) {
    let (next_node, next_edge) = graph.next_numbers();
    out.word(b"next");
    out.number(next_node);
    out.number(next_edge);
    out.put(b"; nodes ");
    out.put_number(graph.node_count());
    put_walk(alloc, graph.nodes(), out);
    out.put(b"; roots ");
    out.put_number(graph.root_count());
    put_walk(alloc, graph.roots(), out);
}

/// Writes a graph.
pub(crate) fn put_graph(alloc: Global, graph: &Graph, out: &mut Answer) {
    let (nodes, edges) = graph.next_numbers();
    for n in 0..nodes {
        put_node(alloc, graph, n, out);
    }
    for e in 0..edges {
        put_edge(alloc, graph, e, out);
    }
    for n in 0..nodes {
        for m in 0..nodes {
            put_between(alloc, graph, n, m, out);
        }
    }
    put_counts(alloc, graph, out);
}
