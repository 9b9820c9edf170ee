//! What rows about rules hold, a rule, a host and a match; and matches, labels and graphs as answers tell them.

use crate::samples::{host_of, rules_of};
use gp_graph::Graph;
use gp_hostfile::write_graph;
use gp_rows::{Answer, Wrong, field};
use gp_syntax::{Found, Item, Rule};
use gp_trace::read_trace;
use gp_values::List;
use std::alloc::Global;

/// A rule and a host.
pub(crate) struct Pair {
    pub(crate) rule: Rule,
    pub(crate) graph: Graph,
}

impl Drop for Pair {
    fn drop(self) {
        let Pair { rule, graph } = self;
        drop(rule);
        drop(graph);
    }
}

/// The rule of the field of this place, and the host of the next one.
pub(crate) fn pair_at(alloc: Global, fields: &[&[u8]], place: usize) -> Result<Pair, Wrong> {
    let graph = host_of(alloc, field(fields, place.saturating_add(1)))?;
    let rule = rule_of(alloc, field(fields, place))?;
    Ok(Pair { rule, graph })
}

/// The last rule of a text.
pub(crate) fn rule_of(alloc: Global, text: &[u8]) -> Result<Rule, Wrong> {
    match rules_of(alloc, text)?.pop() {
        Some(rule) => Ok(rule),
        None => Err(Wrong::new("there is no rule")),
    }
}

/// A rule, a host, and a match.
pub(crate) struct Case {
    pub(crate) rule: Rule,
    pub(crate) graph: Graph,
    pub(crate) found: Found,
}

impl Drop for Case {
    fn drop(self) {
        let Case { rule, graph, found } = self;
        drop(rule);
        drop(graph);
        drop(found);
    }
}

/// The case of three fields, of which the first has this place.
pub(crate) fn case_at(alloc: Global, fields: &[&[u8]], place: usize) -> Result<Case, Wrong> {
    let found = found_of(alloc, field(fields, place.saturating_add(2)))?;
    let graph = host_of(alloc, field(fields, place.saturating_add(1)))?;
    let rule = rule_of(alloc, field(fields, place))?;
    Ok(Case { rule, graph, found })
}

/// The match of a text such as `nodes 0 1 edges 0~`, as a line of a trace has it.
pub(crate) fn found_of(alloc: Global, text: &[u8]) -> Result<Found, Wrong> {
    let mut trace = Answer::new(alloc);
    trace.put(b"gp2-trace 2\nstep 0 ");
    trace.put(text);
    trace.put(b"\nend\n");
    match read_trace(alloc, trace.text()) {
        Ok((_, mut items)) => step_of(items.pop()),
        Err(fault) => Err(Wrong::from(fault)),
    }
}

fn step_of(item: Option<Item>) -> Result<Found, Wrong> {
    match item {
        Some(Item::Step(found)) => Ok(found),
        _ => Err(Wrong::new("there is no match")),
    }
}

/// Writes the images of a match, those of nodes and those of edges, with a sign where an edge was found reversed.
pub(crate) fn put_found(found: &Found, out: &mut Answer) {
    out.word(b"nodes");
    for node in found.nodes() {
        out.number(*node);
    }
    out.word(b"edges");
    for image in found.edges() {
        out.number(image.number());
        out.put(if image.reversed() { b"~" } else { b"" });
    }
}

/// Writes a list as a label.
pub(crate) fn put_label(alloc: Global, list: &List, out: &mut Answer) {
    let mut text = Vec::new(alloc);
    match list.write_label(&mut text) {
        Ok(()) => out.word(&text),
        Err(error) => out.debug(&error),
    }
}

/// Writes a graph on one line, and behind it the numbers that nodes and edges have, and the next ones.
pub(crate) fn put_graph(alloc: Global, graph: &Graph, out: &mut Answer) {
    let mut text = Vec::new(alloc);
    match write_graph(alloc, graph, &mut text) {
        Ok(()) => put_lines(&text, out),
        Err(error) => out.debug(&error),
    }
    put_numbers(graph, out);
}

fn put_lines(text: &[u8], out: &mut Answer) {
    for line in text.split(|byte| *byte == b'\n') {
        out.word_if(!line.is_empty(), line.trim_ascii_start());
    }
}

fn put_numbers(graph: &Graph, out: &mut Answer) {
    let (next_node, next_edge) = graph.next_numbers();
    out.word(b"nodes");
    for n in 0..next_node {
        if graph.node(n).is_some() {
            out.number(n);
        }
    }
    out.word(b"edges");
    for e in 0..next_edge {
        if graph.edge(e).is_some() {
            out.number(e);
        }
    }
    out.word(b"next");
    out.number(next_node);
    out.number(next_edge);
}

/// Whether two graphs have the same nodes and edges at the same numbers, and the same next numbers.
pub(crate) fn is_same(a: &Graph, b: &Graph) -> bool {
    let (nodes, edges) = a.next_numbers();
    (nodes, edges) == b.next_numbers()
        && (0..nodes).all(|n| same_nodes(a, b, n))
        && (0..edges).all(|e| same_edges(a, b, e))
}

fn same_nodes(a: &Graph, b: &Graph, n: u64) -> bool {
    match (a.node(n), b.node(n)) {
        (Some((v, mark, root)), Some((w, other_mark, other_root))) => {
            v.same(w) && mark == other_mark && root == other_root
        }
        (None, None) => true,
        _ => false,
    }
}

fn same_edges(a: &Graph, b: &Graph, e: u64) -> bool {
    match (a.edge(e), b.edge(e)) {
        (Some((source, target, v, mark)), Some((other_source, other_target, w, other_mark))) => {
            source == other_source && target == other_target && v.same(w) && mark == other_mark
        }
        (None, None) => true,
        _ => false,
    }
}
