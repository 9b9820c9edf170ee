//! Matches whose steps may be made in either order.

ghost use Rattle.std.specs.Prelude.{IsTrue};
ghost use Rattle.gp_syntax.specs.Step.{Applies};
ghost use Rattle.gp_syntax.specs.Tree.{rule_of_tree};

use crate::graphs::hub::hub;
use crate::runs::replay::go_on;
use gp_graph::Graph;
use gp_hostfile::read_host;
use gp_independence::independent;
use gp_journal::Trail;
use gp_match::{Verdict, check_match};
use gp_memory::NoMemory;
use gp_reader::read_rules;
use gp_rows::{Answer, Wrong, field, number};
use gp_syntax::{EdgeImage, Found, Item, Rule};
use gp_trace::read_trace;
use std::alloc::Global;

/// Whether two matches are independent: a program, a host, and the matches, as steps of a trace. Where they are, both
/// orders of their steps are made, and lead to one graph but for the numbers of what is new.
pub(crate) fn answer(alloc: Global, fields: &[&[u8]], out: &mut Answer) {
    match told(alloc, fields) {
        Ok(true) => out.word(b"true"),
        Ok(false) => out.word(b"false"),
        Err(wrong) => out.wrong(wrong),
    }
}

fn told(alloc: Global, fields: &[&[u8]]) -> Result<bool, Wrong> {
    let rules = read_rules(alloc, field(fields, 0))?;
    let host = read_host(alloc, field(fields, 1))?;
    let first = step_of(alloc, field(fields, 2))?;
    let second = step_of(alloc, field(fields, 3))?;
    if !are_independent(alloc, rules.as_slice(), &host, &first, &second)? {
        return Ok(false);
    }
    let one = make_both(alloc, rules.as_slice(), &host, &first, &second)?;
    let other = make_both(alloc, rules.as_slice(), &host, &second, &first)?;
    if are_same(&one, &other) {
        Ok(true)
    } else {
        Err(Wrong::new("the two orders lead to different graphs"))
    }
}

// The match of a step, by its line in a trace.
fn step_of(alloc: Global, line: &[u8]) -> Result<Found, Wrong> {
    let mut text = Answer::new(alloc);
    text.put(b"gp2-trace 2\n");
    text.put(line);
    text.put(b"\nend\n");
    let (_, mut items) = read_trace(alloc, text.text())?;
    match items.pop() {
        Some(Item::Step(found)) => Ok(found),
        _ => Err(Wrong::new("no step")),
    }
}

fn applies(alloc: Global, rule: &Rule, graph: &Graph, found: &Found) -> bool
    ensures { IsTrue result → Applies (rule_of_tree rule.now) graph.now.graph found.now }
{
    check_match(alloc, rule, graph, found) == Verdict::Applies
}

// Whether two matches are independent, each by the rule of its number.
fn are_independent(
    alloc: Global,
    rules: &[Rule],
    graph: &Graph,
    first: &Found,
    second: &Found,
) -> Result<bool, Wrong> {
    let (Some(one), Some(other)) = (
        rules.get(first.rule() as usize),
        rules.get(second.rule() as usize),
    ) else {
        return Err(Wrong::new("no such rule"));
    };
    if !applies(alloc, one, graph, first) || !applies(alloc, other, graph, second) {
        return Err(Wrong::new("a match does not apply"));
    }
    Ok(independent(alloc, one, other, graph, first, second)?)
}

// The graph after two steps, with the next numbers of nodes and edges before them, between them, and after both.
struct Made {
    trail: Trail,
    next: [(u64, u64); 3],
}

impl Drop for Made {
    fn drop(self) {
        let Made { trail, next: _ } = self;
        drop(trail);
    }
}

fn make_both(
    alloc: Global,
    rules: &[Rule],
    host: &Graph,
    first: &Found,
    second: &Found,
) -> Result<Made, Wrong> {
    let mut trail = Trail::new(alloc, host.copy(alloc)?);
    let before = trail.graph().next_numbers();
    if !go_on(alloc, rules, first, &mut trail)? {
        return Err(Wrong::new("the first step may not be made"));
    }
    let between = trail.graph().next_numbers();
    if !go_on(alloc, rules, second, &mut trail)? {
        return Err(Wrong::new("the second step may not be made"));
    }
    let next = [before, between, trail.graph().next_numbers()];
    Ok(Made { trail, next })
}

// The number that a node or an edge has in the other order: what the first step made comes behind what the second made.
fn exchanged(number: u64, next: (u64, u64, u64)) -> u64 {
    let (old, between, last) = next;
    if number < old {
        number
    } else if number < between {
        number.wrapping_add(last.wrapping_sub(between))
    } else {
        number.wrapping_sub(between.wrapping_sub(old))
    }
}

fn are_same(one: &Made, other: &Made) -> bool {
    let nodes = (one.next[0].0, one.next[1].0, one.next[2].0);
    let edges = (one.next[0].1, one.next[1].1, one.next[2].1);
    let mut same = one.next[2] == other.next[2];
    for n in 0..nodes.2 {
        same = same
            && is_node(
                one.trail.graph(),
                n,
                other.trail.graph(),
                exchanged(n, nodes),
            );
    }
    for e in 0..edges.2 {
        same = same
            && is_edge(
                one.trail.graph(),
                e,
                other.trail.graph(),
                exchanged(e, edges),
                nodes,
            );
    }
    same
}

fn is_node(one: &Graph, n: u64, other: &Graph, k: u64) -> bool {
    match (one.node(n), other.node(k)) {
        (None, None) => true,
        (Some((list, mark, root)), Some((there, its_mark, its_root))) => {
            list.same(there) && mark == its_mark && root == its_root
        }
        _ => false,
    }
}

fn is_edge(one: &Graph, e: u64, other: &Graph, k: u64, nodes: (u64, u64, u64)) -> bool {
    match (one.edge(e), other.edge(k)) {
        (None, None) => true,
        (Some((source, target, list, mark)), Some((from, to, there, its_mark))) => {
            exchanged(source, nodes) == from
                && exchanged(target, nodes) == to
                && list.same(there)
                && mark == its_mark
        }
        _ => false,
    }
}

/// Of a hub of so many edges, how many pairs of edges beside one another are matched independently by the first rule of a
/// program, which has an edge between two nodes.
pub(crate) fn pairs(alloc: Global, fields: &[&[u8]], out: &mut Answer) {
    match counted(alloc, fields) {
        Ok(count) => out.number(count),
        Err(wrong) => out.wrong(wrong),
    }
}

fn counted(alloc: Global, fields: &[&[u8]]) -> Result<u64, Wrong> {
    let rules = read_rules(alloc, field(fields, 0))?;
    let edges = number(fields, 1);
    let graph = hub(alloc, edges)?;
    let mut count = 0u64;
    for e in 2..edges {
        if e % 2 == 0 {
            let before = edge_match(alloc, e - 2)?;
            let here = edge_match(alloc, e)?;
            if are_independent(alloc, rules.as_slice(), &graph, &before, &here)? {
                count = count.saturating_add(1);
            }
        }
    }
    Ok(count)
}

// The match of an edge between the two nodes of a hub.
fn edge_match(alloc: Global, number: u64) -> Result<Found, NoMemory> {
    let mut found = Found::new(alloc, 0);
    found.push_node(0)?;
    found.push_node(1)?;
    found.push_edge(EdgeImage::new(number, false))?;
    Ok(found)
}
