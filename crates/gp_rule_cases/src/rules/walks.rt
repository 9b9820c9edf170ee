//! Steps by chance, taken back one after another to the very first graph.

ghost use Rattle.std.specs.Prelude.{◌≡◌, IfOk, OnOk};
ghost use Rattle.gp_step.specs.Undo.{Fits, Undoes, undone_by};

use crate::rules::cases::is_same;
use crate::rules::steps::make_step;
use crate::samples::{host_of, rules_of};
use gp_graph::Graph;
use gp_match::{Verdict, check_match};
use gp_memory::NoMemory;
use gp_rows::{Answer, Wrong, field, number};
use gp_step::{Undo, undo};
use gp_syntax::{EdgeImage, Found, Rule};
use rand_core::SeedableRng;
use rand_core::utils::NextWord;
use rand_pcg::Lcg64Xsh32;
use std::alloc::Global;

/// Whether a walk is taken back: some rules, a host, a seed, how many steps are made, and more than how many each rule has
/// to make.
pub(crate) fn answer(alloc: Global, fields: &[&[u8]], out: &mut Answer) {
    let mut taken = Vec::new(alloc);
    match walked(alloc, fields, &mut taken) {
        Ok(rules) => {
            out.word_if(taken.len() as u64 == number(fields, 3), b"taken back");
            put_rare(rules, &taken, number(fields, 4), out);
        }
        Err(wrong) => out.wrong(wrong),
    }
}

// Makes the walk, and tells how many rules there are.
fn walked(alloc: Global, fields: &[&[u8]], taken: &mut Vec<u32>) -> Result<usize, Wrong> {
    let mut graph = host_of(alloc, field(fields, 1))?;
    let rules = rules_of(alloc, field(fields, 0))?;
    let mut random = Lcg64Xsh32::seed_from_u64(number(fields, 2));
    let steps = number(fields, 3);
    let rules = rules.as_slice();
    walk_and_back(alloc, rules, &mut graph, &mut random, taken, steps)?;
    Ok(rules.len())
}

fn walk_and_back(
    alloc: Global,
    rules: &[Rule],
    graph: &mut Graph,
    random: &mut Lcg64Xsh32,
    taken: &mut Vec<u32>,
    steps: u64,
) -> Result<(), Wrong> {
    let first = graph.copy(alloc)?;
    walk(alloc, rules, graph, random, taken, steps)?;
    if is_same(graph, &first) {
        Ok(())
    } else {
        Err(Wrong::new("the walk is not taken back"))
    }
}

// Tells the rules that made no more than so many steps.
fn put_rare(rules: usize, taken: &[u32], few: u64, out: &mut Answer) {
    for rule in 0..rules {
        let count = taken
            .iter()
            .filter(|number| **number as usize == rule)
            .count();
        if count as u64 <= few {
            out.word(b"but few by rule");
            out.number(rule as u64);
        }
    }
}

// Makes so many steps, and takes them back in reverse order: after each the graph is the one from before it.
fn walk(
    alloc: Global,
    rules: &[Rule],
    graph: &mut Graph,
    random: &mut Lcg64Xsh32,
    taken: &mut Vec<u32>,
    left: u64,
) -> Result<(), Wrong>
    ensures { OnOk result (graph.new.graph ≡ graph.old.graph) }
{
    if left == 0 {
        return Ok(());
    }
    let made = make_one(alloc, rules, graph, random, taken)?;
    walk(alloc, rules, graph, random, taken, left - 1)?;
    made.take_back(graph)?;
    Ok(())
}

// What takes a step back, and the graph from before it.
struct Made {
    inverses: Undo,
    before: Graph,
}

impl Drop for Made {
    fn drop(self) {
        let Made { inverses, before } = self;
        drop(inverses);
        drop(before);
    }
}

impl Made {
    // Takes the step back.
    fn take_back(self, graph: &mut Graph) -> Result<(), Wrong>
        requires { Fits self.inverses graph.old.graph }
        ensures { graph.new.graph ≡ undone_by self.inverses graph.old.graph }
    {
        let Made { inverses, before } = self;
        undo(graph, inverses);
        if is_same(graph, &before) {
            Ok(())
        } else {
            Err(Wrong::new("a step is not taken back"))
        }
    }
}

// Makes one step, and puts the number of its rule into `taken`.
fn make_one(
    alloc: Global,
    rules: &[Rule],
    graph: &mut Graph,
    random: &mut Lcg64Xsh32,
    taken: &mut Vec<u32>,
) -> Result<Made, Wrong>
    ensures { IfOk result (λ m. Undoes m.inverses graph.new.graph graph.old.graph) }
{
    let found = drawn(alloc, rules, graph, random)?;
    taken.push(found.rule())?;
    match rules.get(found.rule() as usize) {
        Some(rule) => step_of(alloc, rule, graph, &found),
        None => Err(Wrong::new("there is no such rule")),
    }
}

fn step_of(alloc: Global, rule: &Rule, graph: &mut Graph, found: &Found) -> Result<Made, Wrong>
    ensures { IfOk result (λ m. Undoes m.inverses graph.new.graph graph.old.graph) }
{
    let before = graph.copy(alloc)?;
    let inverses = make_step(alloc, rule, graph, found)?;
    let made = Made { inverses, before };
    if is_same(graph, &made.before) {
        Err(Wrong::new("a step changes nothing"))
    } else {
        Ok(made)
    }
}

// ---- what is drawn

// A match that applies, of a rule that is drawn.
fn drawn(
    alloc: Global,
    rules: &[Rule],
    graph: &Graph,
    random: &mut Lcg64Xsh32,
) -> Result<Found, Wrong> {
    for _ in 0..100 {
        let number = below(random, rules.len() as u64);
        if let Ok(number) = u32::try_from(number)
            && let Some(rule) = rules.get(number as usize)
            && let Some(found) = guessed(alloc, number, rule, graph, random)?
        {
            return Ok(found);
        }
    }
    Err(Wrong::new("no match is found"))
}

// A match of this rule that applies, if one is found by guesses.
fn guessed(
    alloc: Global,
    number: u32,
    rule: &Rule,
    graph: &Graph,
    random: &mut Lcg64Xsh32,
) -> Result<Option<Found>, NoMemory> {
    for _ in 0..1000 {
        let mut found = Found::new(alloc, number);
        if rule.parts().left_edges.is_empty() {
            push_nodes(rule.parts().left_nodes.len(), graph, random, &mut found)?;
        } else {
            push_edge(rule.parts().left_nodes.len(), graph, random, &mut found)?;
        }
        if check_match(alloc, rule, graph, &found) == Verdict::Applies {
            return Ok(Some(found));
        }
    }
    Ok(None)
}

// Puts so many nodes into a match.
fn push_nodes(
    count: usize,
    graph: &Graph,
    random: &mut Lcg64Xsh32,
    found: &mut Found,
) -> Result<(), NoMemory> {
    for _ in 0..count {
        found.push_node(below(random, graph.next_numbers().0))?;
    }
    Ok(())
}

// Puts an edge into a match, and so many of its ends.
fn push_edge(
    count: usize,
    graph: &Graph,
    random: &mut Lcg64Xsh32,
    found: &mut Found,
) -> Result<(), NoMemory> {
    let number = below(random, graph.next_numbers().1);
    let reversed = below(random, 2) == 1;
    let Some((source, target, _, _)) = graph.edge(number) else {
        return Ok(());
    };
    found.push_node(if reversed { target } else { source })?;
    if count > 1 {
        found.push_node(if reversed { source } else { target })?;
    }
    found.push_edge(EdgeImage::new(number, reversed))
}

fn below(random: &mut Lcg64Xsh32, count: u64) -> u64 {
    u64::from(random.next_word())
        .checked_rem(count)
        .unwrap_or(0)
}
