//! Calls by chance on a graph, beside which lists are kept of what should be in it.

use crate::graphs::edits::make_edit;
use crate::graphs::there::{has_node, number_in};
use crate::graphs::told::sorted;
use gp_graph::{Graph, Walk};
use gp_memory::NoMemory;
use gp_rows::{Answer, number};
use std::alloc::Global;

// The number of a node's list, and whether it is a root.
type NodeBeside = (u64, bool);

// The source and the target of an edge, and the number of its list.
type EdgeBeside = (u64, u64, u64);

// A graph, and what should be there by its number.
struct Beside {
    graph: Graph,
    nodes: Vec<Option<NodeBeside>>,
    edges: Vec<Option<EdgeBeside>>,
}

impl Drop for Beside {
    fn drop(self) {
        let Beside {
            graph,
            nodes,
            edges,
        } = self;
        drop(graph);
        drop(nodes);
        drop(edges);
    }
}

/// How many calls agree with the lists: a seed, how many calls are made, and from which of them on the edges are indexed,
/// where they are.
pub(crate) fn answer(alloc: Global, fields: &[&[u8]], out: &mut Answer) {
    let mut beside = Beside {
        graph: Graph::new(alloc),
        nodes: Vec::new(alloc),
        edges: Vec::new(alloc),
    };
    let indexed = if fields.len() > 2 {
        Some(number(fields, 2))
    } else {
        None
    };
    match agreeing(
        alloc,
        &mut beside,
        number(fields, 0),
        number(fields, 1),
        indexed,
    ) {
        Ok(calls) => {
            out.number(calls);
            out.word(b"calls agree");
            out.word_if(!beside.agrees(), b"but not in the end");
        }
        Err(error) => out.debug(&error),
    }
}

// Makes so many calls as long as they agree, and indexes the edges before this one. How many agreed.
fn agreeing(
    alloc: Global,
    beside: &mut Beside,
    seed: u64,
    calls: u64,
    indexed: Option<u64>,
) -> Result<u64, NoMemory> {
    let mut state = seed;
    for call in 0..calls {
        state = drawn(state);
        if indexed == Some(call) {
            beside.graph.index_edges();
        }
        beside.call(alloc, state)?;
        if !beside.agrees_after(alloc, call, state)? {
            return Ok(call);
        }
    }
    Ok(calls)
}

// A number that looks random, from the one before.
fn drawn(state: u64) -> u64 {
    state
        .wrapping_mul(6364136223846793005)
        .wrapping_add(1442695040888963407)
}

// One of the last numbers that were used.
fn recent(next: usize, state: u64) -> u64 {
    (next as u64).saturating_sub(1 + (state >> 33) % 16)
}

// Puts an entry at its number, or behind the others.
fn put_at<T: Copy + Drop>(
    entries: &mut Vec<Option<T>>,
    n: u64,
    entry: Option<T>,
) -> Result<(), NoMemory> {
    match entries.get_mut(n as usize) {
        Some(place) => *place = entry,
        None => entries.push(entry)?,
    }
    Ok(())
}

fn root_or_not(is_root: bool) -> &'static [u8] {
    if is_root { b"None root" } else { b"None -" }
}

impl Beside {
    // Makes the edit of a word, numbers and a mark on the graph. Whether it may be made.
    fn is_made(&mut self, alloc: Global, word: &[u8], numbers: &[u64], mark: &[u8]) -> bool {
        let mut text = Answer::new(alloc);
        text.put(word);
        for number in numbers {
            text.number(*number);
        }
        text.word(mark);
        let mut given = Answer::new(alloc);
        make_edit(alloc, text.text(), &mut self.graph, &mut given).is_ok()
    }

    // The call that is drawn.
    fn call(&mut self, alloc: Global, state: u64) -> Result<(), NoMemory> {
        match (state >> 40) % 16 {
            0..=2 => self.add(alloc, (state >> 7) % 3 == 0),
            3..=6 => self.join(alloc, state),
            7..=9 => self.remove(alloc, state),
            10..=11 => self.relabel(alloc, state),
            12..=13 => self.put(alloc, state),
            _ => Ok(self.drop_vacant(alloc)),
        }
    }

    fn add(&mut self, alloc: Global, is_root: bool) -> Result<(), NoMemory> {
        let (n, _) = self.graph.next_numbers();
        if self.is_made(alloc, b"node", &[1], root_or_not(is_root)) {
            put_at(&mut self.nodes, n, Some((1, is_root)))?;
        }
        Ok(())
    }

    fn join(&mut self, alloc: Global, state: u64) -> Result<(), NoMemory> {
        let source = recent(self.nodes.len(), state);
        let target = recent(self.nodes.len(), drawn(state));
        let (_, e) = self.graph.next_numbers();
        if self.is_made(alloc, b"edge", &[source, target, 2], b"None") {
            put_at(&mut self.edges, e, Some((source, target, 2)))?;
        }
        Ok(())
    }

    fn remove(&mut self, alloc: Global, state: u64) -> Result<(), NoMemory> {
        let e = recent(self.edges.len(), state);
        if self.is_made(alloc, b"cut", &[e], b"") {
            put_at(&mut self.edges, e, None)?;
        }
        let n = recent(self.nodes.len(), drawn(state));
        if self.is_made(alloc, b"gone", &[n], b"") {
            put_at(&mut self.nodes, n, None)?;
        }
        Ok(())
    }

    fn relabel(&mut self, alloc: Global, state: u64) -> Result<(), NoMemory> {
        let n = recent(self.nodes.len(), state);
        let is_root = state % 2 == 0;
        if self.is_made(alloc, b"label", &[n, 3], root_or_not(is_root)) {
            put_at(&mut self.nodes, n, Some((3, is_root)))?;
        }
        Ok(())
    }

    fn put(&mut self, alloc: Global, state: u64) -> Result<(), NoMemory> {
        let n = recent(self.nodes.len(), state);
        let is_root = state % 2 == 0;
        if self.is_made(alloc, b"put-node", &[n, 4], root_or_not(is_root)) {
            put_at(&mut self.nodes, n, Some((4, is_root)))?;
        }
        let e = recent(self.edges.len(), drawn(state));
        if self.is_made(alloc, b"put-edge", &[e, n, n, 5], b"None") {
            put_at(&mut self.edges, e, Some((n, n, 5)))?;
        }
        Ok(())
    }

    fn drop_vacant(&mut self, alloc: Global) {
        self.is_made(alloc, b"drop", &[], b"");
        let (nodes, edges) = self.graph.next_numbers();
        if (nodes as usize) < self.nodes.len() {
            let _ = self.nodes.pop();
        }
        if (edges as usize) < self.edges.len() {
            let _ = self.edges.pop();
        }
    }

    // Whether the walks at a node, and between it and another, agree after a call; after each 500th all agrees, and a copy
    // takes the place of the graph.
    fn agrees_after(&mut self, alloc: Global, call: u64, state: u64) -> Result<bool, NoMemory> {
        let n = recent(self.nodes.len(), state);
        let m = recent(self.nodes.len(), drawn(state));
        if call % 500 == 0 {
            self.graph = self.graph.copy(alloc)?;
            return Ok(self.walks_agree(alloc, n, m) && self.agrees());
        }
        Ok(self.walks_agree(alloc, n, m))
    }

    // Whether the graph has what the lists have.
    fn agrees(&self) -> bool {
        let (nodes, edges) = self.graph.next_numbers();
        if nodes != self.nodes.len() as u64 || edges != self.edges.len() as u64 {
            return false;
        }
        for n in 0..nodes {
            if !self.node_agrees(n) {
                return false;
            }
        }
        for e in 0..edges {
            if !self.edge_agrees(e) {
                return false;
            }
        }
        self.are_counted()
    }

    // Whether the graph counts as many nodes and roots as the lists have.
    fn are_counted(&self) -> bool {
        let (mut nodes, mut roots) = (0u64, 0u64);
        for entry in self.nodes.iter() {
            if let Some(node) = entry {
                nodes = nodes.saturating_add(1);
                roots = roots.saturating_add(u64::from(node.1));
            }
        }
        (self.graph.node_count(), self.graph.root_count()) == (nodes, roots)
    }

    fn node_agrees(&self, n: u64) -> bool {
        let there = self.nodes.get(n as usize).copied().flatten();
        match self.graph.node(n) {
            Some((list, _, is_root)) => {
                let list = number_in(list).unwrap_or(0);
                there == Some((list, is_root))
            }
            None => there.is_none(),
        }
    }

    fn edge_agrees(&self, e: u64) -> bool {
        let there = self.edges.get(e as usize).copied().flatten();
        match self.graph.edge(e) {
            Some((source, target, list, _)) => {
                let list = number_in(list).unwrap_or(0);
                there == Some((source, target, list))
            }
            None => there.is_none(),
        }
    }

    // Whether the walks at a node, if it is there, and between it and another, if that is there too, give what the lists have.
    fn walks_agree(&self, alloc: Global, n: u64, m: u64) -> bool {
        if !has_node(&self.graph, n) {
            return true;
        }
        let leaving = self.walked(alloc, self.graph.out_edges(n), Some(n), None);
        let arriving = self.walked(alloc, self.graph.in_edges(n), None, Some(n));
        let (into, from) = self.graph.degrees(n);
        leaving == Some(from)
            && arriving == Some(into)
            && self.between_agrees(alloc, n, n)
            && self.between_agrees(alloc, n, m)
            && self.between_agrees(alloc, m, n)
    }

    // Whether the walk from a node to another, if both are there, gives what the lists have.
    fn between_agrees(&self, alloc: Global, n: u64, m: u64) -> bool {
        if !has_node(&self.graph, n) || !has_node(&self.graph, m) {
            return true;
        }
        let walk = self.graph.edges_between(n, m);
        self.walked(alloc, walk, Some(n), Some(m)).is_some()
    }

    // How many edges a walk meets, if they are those with this source and this target, where they are asked for.
    fn walked(
        &self,
        alloc: Global,
        walk: Walk<'_>,
        source: Option<u64>,
        target: Option<u64>,
    ) -> Option<u64> {
        let numbers = sorted(alloc, walk).ok()?;
        let mut met: usize = 0;
        for (e, entry) in self.edges.iter().enumerate() {
            if let Some(edge) = entry
                && is_asked(source, edge.0)
                && is_asked(target, edge.1)
            {
                if numbers.get(met).copied() != Some(e as u64) {
                    return None;
                }
                met = met.saturating_add(1);
            }
        }
        if met == numbers.len() {
            Some(met as u64)
        } else {
            None
        }
    }
}

// Whether a number is the one that is asked for, if one is.
fn is_asked(asked: Option<u64>, n: u64) -> bool {
    match asked {
        Some(number) => number == n,
        None => true,
    }
}
