//! Steppers over the items of journals, moved by chance.

ghost use Rattle.std.specs.Prelude.{map};
ghost use Rattle.gp_syntax.specs.Tree.{rule_of_tree};
ghost use Rattle.gp_derivation.specs.Stepper.{IsStepperOf};

use crate::runs::random::{below, note_more};
use crate::runs::replay::{are_alike, go, rules_of};
use gp_derivation::{Moved, Stepper};
use gp_graph::Graph;
use gp_hostfile::read_host;
use gp_journal::{Journal, Trail};
use gp_memory::NoMemory;
use gp_rows::{Answer, Wrong, field, number};
use gp_syntax::{Item, Rule};
use rand_core::SeedableRng;
use rand_pcg::Lcg64Xsh32;
use std::alloc::Global;

/// How many walks were right after each move: some rules, a host, a seed, how many items are noted for each walk, how many
/// walks there are, and how many moves each has.
pub(crate) fn answer(alloc: Global, fields: &[&[u8]], out: &mut Answer) {
    match right_walks(alloc, fields) {
        Ok(count) => {
            out.number(count);
            out.word(b"walks");
        }
        Err(wrong) => out.wrong(wrong),
    }
}

fn right_walks(alloc: Global, fields: &[&[u8]]) -> Result<u64, Wrong> {
    let host = read_host(alloc, field(fields, 1))?;
    let rules = rules_of(alloc, field(fields, 0))?;
    let mut random = Lcg64Xsh32::seed_from_u64(number(fields, 2));
    let mut count: u64 = 0;
    for _ in 0..number(fields, 4) {
        if is_right(alloc, rules.as_slice(), &host, fields, &mut random)? {
            count = count.saturating_add(1);
        }
    }
    Ok(count)
}

// Whether a walk over a journal of its own is right.
fn is_right(
    alloc: Global,
    rules: &[Rule],
    host: &Graph,
    fields: &[&[u8]],
    random: &mut Lcg64Xsh32,
) -> Result<bool, Wrong> {
    let mut journal = Journal::new(alloc, host.copy(alloc)?);
    note_more(alloc, rules, &mut journal, number(fields, 3), random)?;
    let graphs = graphs_of(alloc, rules, host, journal.items())?;
    let mut stepper = Stepper::new(alloc, journal);
    walk_on(
        alloc,
        rules,
        &mut stepper,
        &graphs,
        number(fields, 5),
        random,
    )
}

// The graphs that the items lead to from the host: before the first item, and after each.
fn graphs_of(
    alloc: Global,
    rules: &[Rule],
    host: &Graph,
    items: &[Item],
) -> Result<Vec<Graph>, Wrong> {
    let mut trail = Trail::new(alloc, host.copy(alloc)?);
    let mut graphs = Vec::new(alloc);
    graphs.push(trail.graph().copy(alloc)?)?;
    for item in items {
        if !go(alloc, rules, item, &mut trail)? {
            return Err(Wrong::new("an item may not be made"));
        }
        graphs.push(trail.graph().copy(alloc)?)?;
    }
    Ok(graphs)
}

// Makes so many moves. Whether after each the place is the one that is counted, and the graph the one that so many items
// lead to.
fn walk_on(
    alloc: Global,
    rules: &[Rule],
    stepper: &mut Stepper,
    graphs: &[Graph],
    moves: u64,
    random: &mut Lcg64Xsh32,
) -> Result<bool, Wrong>
    requires { IsStepperOf (map rule_of_tree rules.now) stepper.old }
{
    let last = graphs.len().saturating_sub(1);
    let mut place: usize = 0;
    for _ in 0..moves {
        if below(random, 4) == 0 {
            back(rules, stepper)?;
            place = place.saturating_sub(1);
        } else {
            forward(rules, stepper)?;
            place = place.saturating_add(1).min(last);
        }
        if !stands_at(alloc, stepper, place, graphs)? {
            return Ok(false);
        }
    }
    Ok(true)
}

fn forward(rules: &[Rule], stepper: &mut Stepper) -> Result<(), NoMemory>
    requires { IsStepperOf (map rule_of_tree rules.now) stepper.old }
    ensures { IsStepperOf (map rule_of_tree rules.now) stepper.new }
{
    match stepper.forward(rules) {
        Moved::Made | Moved::End => Ok(()),
        Moved::NoMemory => Err(NoMemory),
    }
}

fn back(rules: &[Rule], stepper: &mut Stepper) -> Result<(), NoMemory>
    requires { IsStepperOf (map rule_of_tree rules.now) stepper.old }
    ensures { IsStepperOf (map rule_of_tree rules.now) stepper.new }
{
    match stepper.back(rules) {
        Moved::Made | Moved::End => Ok(()),
        Moved::NoMemory => Err(NoMemory),
    }
}

fn stands_at(
    alloc: Global,
    stepper: &Stepper,
    place: usize,
    graphs: &[Graph],
) -> Result<bool, Wrong> {
    let graph = stepper.graph();
    match graphs.get(place) {
        Some(wanted) => Ok(
            stepper.place() == place
                && graph.next_numbers() == wanted.next_numbers()
                && are_alike(alloc, graph, wanted)?,
        ),
        None => Ok(false),
    }
}
