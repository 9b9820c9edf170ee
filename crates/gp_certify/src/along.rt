//! A trail that goes along a trace.

ghost use Rattle.std.specs.Prelude.{◌≡◌, ◌≤◌, All, IfOk, IfSome, IfNone, OnOk, OnErr, length, map};
ghost use Rattle.std.specs.Bool.{Decides};
ghost use Rattle.gp_syntax.specs.Tree.{rule_of_tree, item_of};
ghost use Rattle.gp_syntax.specs.WellFormed.{IsWellFormed};
ghost use Rattle.gp_step.specs.Laws.{IsNumbered};
ghost use Rattle.gp_journal.specs.Leads.{AppliesBy, Goes};
ghost use Rattle.gp_certify.specs.inside.Along.{MayGo, after_item, AllGo, AreDepths, Stands, IsWalked, BreaksOff, trail_at};

use gp_graph::Graph;
use gp_journal::Trail;
use gp_match::{Verdict, check_match};
use gp_memory::NoMemory;
use gp_syntax::{Found, Item, Rule};
use std::alloc::Global;

/// A trail, and the place of the trace at which it stands.
#[derive(Drop)]
pub(crate) struct Standing {
    pub(crate) trail: Trail,
    pub(crate) place: usize,
}

/// A trail behind a whole trace, and how many steps are live at each place.
#[derive(Drop)]
pub(crate) struct Walked {
    pub(crate) depths: Vec<u64>,
    pub(crate) trail: Trail,
}

// Whether a match applies, by the rule of its number.
fn applies(alloc: Global, rules: &[Rule], found: &Found, graph: &Graph) -> Result<bool, NoMemory>
    ensures { IfOk result (λ b. Decides b (AppliesBy (map rule_of_tree rules.now) graph.now.graph found.now)) }
{
    let number = found.rule() as usize;
    if number >= rules.len() {
        return Ok(false);
    }
    let rule = &rules[number];
    let _well_formed = rule.parts();
    match check_match(alloc, rule, graph, found) {
        Verdict::Applies => Ok(true),
        Verdict::Faulty(_) => Ok(false),
        Verdict::No => Ok(false),
        Verdict::NoMemory => Err(NoMemory),
    }
}

// Whether an item goes from the trail.
fn may_go(alloc: Global, rules: &[Rule], item: &Item, trail: &Trail) -> Result<bool, NoMemory>
    ensures { IfOk result (λ b. Decides b (MayGo (map rule_of_tree rules.now) (item_of item.now) trail.now)) }
{
    match item {
        Item::Step(found) => applies(alloc, rules, found, trail.graph()),
        Item::Turn => Ok(true),
        Item::Back(count) => Ok(*count <= trail.depth()),
    }
}

// Makes an item that goes.
fn make(rules: &[Rule], item: &Item, trail: &mut Trail) -> Result<(), NoMemory>
    requires { MayGo (map rule_of_tree rules.now) (item_of item.now) trail.old }
    ensures made { OnOk result (trail.new ≡ after_item (map rule_of_tree rules.now) (item_of item.now) trail.old) }
    ensures goes { OnOk result (Goes (map rule_of_tree rules.now) (item_of item.now) trail.old trail.new) }
    ensures err { OnErr result (trail.new ≡ trail.old) }
{
    match item {
        Item::Step(found) => trail.advance(rules, found),
        Item::Turn => Ok(()),
        Item::Back(count) => {
            trail.back(*count);
            Ok(())
        }
    }
}

/// Goes along the whole trace from the host, where each item goes.
pub(crate) fn walk(
    alloc: Global,
    rules: &[Rule],
    host: &Graph,
    items: &[Item],
) -> Result<Option<Walked>, NoMemory>
    requires well_formed { All IsWellFormed (map rule_of_tree rules.now) }
    requires host { IsNumbered host.now.graph }
    ensures walked { IfOk result (λ o. IfSome o (λ w. IsWalked (map rule_of_tree rules.now) host.now.graph (map item_of items.now) (length items.now) w.depths.items w.trail)) }
    ensures none { IfOk result (λ o. IfNone o (BreaksOff (map rule_of_tree rules.now) host.now.graph (map item_of items.now))) }
{
    let mut depths = Vec::with_capacity(alloc, items.len() + 1)?;
    depths.push_reserved(0);
    let mut trail = Trail::new(alloc, host.copy(alloc)?);
    for (n, item) in items.iter().enumerate() {
        if !may_go(alloc, rules, item, &trail)? {
            return Ok(None);
        }
        make(rules, item, &mut trail)?;
        depths.push_reserved(trail.depth());
    }
    Ok(Some(Walked { depths, trail }))
}

/// Brings the trail to a place: along the items, or anew from the host where it stands behind the place.
pub(crate) fn stand_at(
    alloc: Global,
    rules: &[Rule],
    host: &Graph,
    items: &[Item],
    standing: &mut Standing,
    place: usize,
) -> Result<(), NoMemory>
    requires goes { AllGo (map rule_of_tree rules.now) host.now.graph (map item_of items.now) (length items.now) }
    requires stands { Stands (map rule_of_tree rules.now) host.now.graph (map item_of items.now) standing.old }
    requires place { place ≤ length items.now }
    ensures stands { Stands (map rule_of_tree rules.now) host.now.graph (map item_of items.now) standing.new }
    ensures there { OnOk result (standing.new.trail ≡ trail_at (map rule_of_tree rules.now) host.now.graph (map item_of items.now) place) }
{
    if place < standing.place {
        standing.trail = Trail::new(alloc, host.copy(alloc)?);
        standing.place = 0;
    }
    'items: while standing.place < place {
        make(rules, &items[standing.place], &mut standing.trail)?;
        standing.place += 1;
    }
    Ok(())
}
