//! Items that are made on trails, each of which is asked first whether it may be made, and texts by which graphs are compared.

ghost use Rattle.std.specs.Prelude.{IsTrue, IfOk, map};
ghost use Rattle.gp_syntax.specs.Tree.{rule_of_tree, item_of};
ghost use Rattle.gp_journal.specs.Leads.{AppliesBy, Goes, Leads};
ghost use Rattle.gp_syntax.specs.Run.{Stepped};
ghost use Rattle.gp_journal.specs.Trail.{Trail as AnyTrail};
ghost use Rattle.gp_journal.specs.Journal.{items_of};

use gp_graph::Graph;
use gp_hostfile::write_graph;
use gp_journal::Trail;
use gp_match::{Verdict, check_match};
use gp_memory::NoMemory;
use gp_reader::read_rules;
use gp_rows::Wrong;
use gp_syntax::{Found, Item, Items, Rule};
use std::alloc::Global;

/// Whether the match applies, by the rule of its number.
pub(crate) fn applies(alloc: Global, rules: &[Rule], graph: &Graph, found: &Found) -> bool
    ensures { IsTrue result → AppliesBy (map rule_of_tree rules.now) graph.now.graph found.now }
{
    match rules.get(found.rule() as usize) {
        Some(rule) => check_match(alloc, rule, graph, found) == Verdict::Applies,
        None => false,
    }
}

/// Makes the step, if the match applies.
pub(crate) fn go_on(
    alloc: Global,
    rules: &[Rule],
    found: &Found,
    at: &mut Trail,
) -> Result<bool, NoMemory>
    ensures { IfOk result (λ b. IsTrue b → Goes (map rule_of_tree rules.now) (Stepped found.now) at.old at.new) }
{
    if !applies(alloc, rules, at.graph(), found) {
        return Ok(false);
    }
    at.advance(rules, found)?;
    Ok(true)
}

/// Makes what the item says, if it may be made.
pub(crate) fn go(
    alloc: Global,
    rules: &[Rule],
    item: &Item,
    at: &mut Trail,
) -> Result<bool, NoMemory>
    ensures { IfOk result (λ b. IsTrue b → Goes (map rule_of_tree rules.now) (item_of item.now) at.old at.new) }
{
    match item {
        Item::Turn => Ok(true),
        Item::Step(found) => go_on(alloc, rules, found, at),
        Item::Back(count) => {
            if *count > at.depth() {
                return Ok(false);
            }
            at.back(*count);
            Ok(true)
        }
    }
}

// Whether the items lead from the trail on, as found on a copy.
fn leads(alloc: Global, rules: &[Rule], items: &[Item], trail: &Trail) -> Result<bool, NoMemory>
    ensures { IfOk result (λ b. IsTrue b → (t : AnyTrail) × Leads (map rule_of_tree rules.now) (items_of items.now) trail.now t) }
{
    let mut at = trail.copy()?;
    for item in items {
        if !go(alloc, rules, item, &mut at)? {
            return Ok(false);
        }
    }
    Ok(true)
}

/// Makes the items on the trail. Whether they may be made; else none is made.
pub(crate) fn catch_up(
    alloc: Global,
    rules: &[Rule],
    items: &[Item],
    trail: &mut Trail,
) -> Result<bool, NoMemory> {
    if !leads(alloc, rules, items, trail)? {
        return Ok(false);
    }
    trail.catch_up(rules, items)?;
    Ok(true)
}

/// The text of a graph.
pub(crate) fn text_of(alloc: Global, graph: &Graph) -> Result<Vec<u8>, Wrong> {
    let mut text = Vec::new(alloc);
    write_graph(alloc, graph, &mut text)?;
    Ok(text)
}

/// Whether two graphs have the same text.
pub(crate) fn are_alike(alloc: Global, one: &Graph, other: &Graph) -> Result<bool, Wrong> {
    let text = text_of(alloc, one)?;
    Ok(text == text_of(alloc, other)?)
}

/// The rules of a program's text behind its commands, `Main = skip`.
pub(crate) fn rules_of(alloc: Global, text: &[u8]) -> Result<Items<Rule>, Wrong> {
    let mut program = Vec::from_slice(alloc, b"Main = skip ")?;
    program.extend_from_slice(text)?;
    Ok(read_rules(alloc, &program)?)
}
