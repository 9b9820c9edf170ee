//! Strings and lists.

use crate::rules::cases::put_label;
use crate::samples::host_of;
use gp_graph::Graph;
use gp_memory::NoMemory;
use gp_rows::{Answer, Wrong, field};
use gp_values::{Chars, List};
use std::alloc::Global;
use std::cmp::Ordering;

/// Whether bytes are taken for a string: the bytes.
pub(crate) fn characters(alloc: Global, fields: &[&[u8]], out: &mut Answer) {
    match Vec::from_slice(alloc, field(fields, 0)) {
        Ok(codes) => match Chars::new(codes) {
            Some(_) => out.word(b"taken"),
            None => out.word(b"refused"),
        },
        Err(error) => out.debug(&error),
    }
}

/// The order of two lists: a host, of which the labels of the first two nodes are compared.
pub(crate) fn order(alloc: Global, fields: &[&[u8]], out: &mut Answer) {
    match host_of(alloc, field(fields, 0)) {
        Ok(graph) => put_order(alloc, &graph, out),
        Err(fault) => out.debug(&fault),
    }
}

fn put_order(alloc: Global, graph: &Graph, out: &mut Answer) {
    let (Some((list, _, _)), Some((other, _, _))) = (graph.node(0), graph.node(1)) else {
        return;
    };
    let order = list.cmp(other);
    out.debug(&order);
    out.word_if(
        list.same(other) != order.is_eq(),
        b"but not so where sameness is tested",
    );
    match are_copies_so(alloc, list, other, order) {
        Ok(are_so) => out.word_if(!are_so, b"but not so by copies"),
        Err(error) => out.debug(&error),
    }
}

// Whether copies of the first list, and of its atom where both have one, have that order too.
fn are_copies_so(
    alloc: Global,
    list: &List,
    other: &List,
    order: Ordering,
) -> Result<bool, NoMemory> {
    let copy = list.copy(alloc)?;
    let is_so = copy.same(list) && copy.cmp(other) == order;
    match (list.atoms(), other.atoms()) {
        ([atom], [next]) => {
            let copy = atom.copy(alloc)?;
            Ok(is_so && copy.same(atom) && copy.cmp(next) == order)
        }
        _ => Ok(is_so),
    }
}

/// The label that lists make when they are joined: a host, of which all nodes' labels are joined.
pub(crate) fn join(alloc: Global, fields: &[&[u8]], out: &mut Answer) {
    match joined(alloc, field(fields, 0)) {
        Ok(list) => put_label(alloc, &list, out),
        Err(wrong) => out.wrong(wrong),
    }
}

fn joined(alloc: Global, host: &[u8]) -> Result<List, Wrong> {
    let graph = host_of(alloc, host)?;
    let mut whole = List::new(alloc);
    for n in 0..graph.node_count() {
        if let Some((list, _, _)) = graph.node(n) {
            whole.join(list)?;
        }
    }
    Ok(whole)
}
