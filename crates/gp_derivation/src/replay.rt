//! A trace of version 1 that is replayed by today's step.

ghost use Rattle.std.specs.Prelude.{◌≡◌, [], Some, length, map, IfOk, OnOk};
ghost use Rattle.std.specs.Bool.{Decides};
ghost use Rattle.gp_values.specs.Graph.{IsGraph};
ghost use Rattle.gp_syntax.specs.Run.{Stepped, Back};
ghost use Rattle.gp_syntax.specs.Step.{Applies};
ghost use Rattle.gp_syntax.specs.Tree.{rule_of_tree, item_of};
ghost use Rattle.gp_journal.specs.Leads.{AppliesBy};
ghost use Rattle.gp_derivation.specs.inside.Standing.{Follows, Makes, StandsIn};
ghost use Rattle.gp_derivation.specs.inside.Table.{found_today};

use crate::found::{found_today, right_numbers};
use crate::table::EdgeTable;
use gp_graph::Graph;
use gp_journal::Trail;
use gp_match::{Verdict, check_match};
use gp_memory::NoMemory;
use gp_syntax::{Found, Item, Rule};
use std::alloc::Global;

/// The items so far, brought up to date, with the graph that they lead to and the table of its edges.
pub(crate) struct Replay {
    trail: Trail,
    table: EdgeTable,
    items: Vec<Item>,
    alloc: Global,
}

// Written, so that a function that lets a replay go calls it.
impl Drop for Replay {
    fn drop(self) {
        let Replay {
            trail,
            table,
            items,
            alloc: _,
        } = self;
        drop(trail);
        drop(table);
        drop(items);
    }
}

impl Replay {
    /// The items.
    pub(crate) fn into_items(self) -> Vec<Item>
        ensures { result ≡ self.items }
    {
        let Replay {
            trail,
            table,
            items,
            alloc: _,
        } = self;
        drop(trail);
        drop(table);
        items
    }

    /// No items yet.
    pub(crate) fn new(alloc: Global, host: Graph) -> Result<Replay, NoMemory>
        ensures { IfOk result (λ x. (rules : _) → StandsIn rules host.graph [] x) }
    {
        let _sound = host.next_numbers();
        let table = EdgeTable::new(alloc, &host)?;
        Ok(Replay {
            trail: Trail::new(alloc, host),
            table,
            items: Vec::new(alloc),
            alloc,
        })
    }

    /// One item more, where it replays.
    pub(crate) fn follow(&mut self, rules: &[Rule], item: &Item) -> Result<bool, NoMemory>
        requires { length self.old.table.before ≡ length self.old.trail.before }
        ensures follows { IfOk result (Follows (map rule_of_tree rules.now) (item_of item.now) self.old self.new) }
    {
        match item {
            Item::Step(found) => self.step(rules, found),
            Item::Turn => {
                self.items.push(Item::Turn)?;
                Ok(true)
            }
            Item::Back(count) => self.back(*count),
        }
    }

    fn step(&mut self, rules: &[Rule], was: &Found) -> Result<bool, NoMemory>
        ensures { IfOk result (Follows (map rule_of_tree rules.now) (Stepped was.now) self.old self.new) }
    {
        let number = was.rule() as usize;
        if number >= rules.len() {
            return Ok(false);
        }
        let Some(found) = found_today(self.alloc, &self.table, was)? else {
            return Ok(false);
        };
        if !applies(self.alloc, &rules[number], self.trail.graph(), &found)? {
            return Ok(false);
        }
        self.make(rules, was, found)?;
        Ok(true)
    }

    // Makes the step of a match that applies.
    fn make(&mut self, rules: &[Rule], was: &Found, found: Found) -> Result<(), NoMemory>
        requires applies { AppliesBy (map rule_of_tree rules.now) self.old.trail.graph found }
        requires today { found_today self.old.table.now was.now ≡ Some found }
        ensures { OnOk result (Makes (map rule_of_tree rules.now) was.now found self.old self.new) }
    {
        let next = next_edge(self.trail.graph());
        let rule = &rules[found.rule() as usize];
        let _well_formed = rule.parts();
        self.trail.advance(rules, &found)?;
        let _next_after = next_edge(self.trail.graph());
        let made = right_numbers(self.alloc, rule, &found, next)?;
        self.table.step(was.edges(), found.edges(), &made)?;
        self.items.push(Item::Step(found))?;
        Ok(())
    }

    fn back(&mut self, count: u64) -> Result<bool, NoMemory>
        requires { length self.old.table.before ≡ length self.old.trail.before }
        ensures { IfOk result (λ b. (rules : _) → Follows rules (Back count) self.old self.new b) }
    {
        if count > self.trail.depth() {
            return Ok(false);
        }
        self.trail.back(count);
        self.table.back(count);
        self.items.push(Item::Back(count))?;
        Ok(true)
    }
}

// Whether a match applies.
fn applies(alloc: Global, rule: &Rule, graph: &Graph, found: &Found) -> Result<bool, NoMemory>
    ensures { IfOk result (λ b. Decides b (Applies (rule_of_tree rule.now) graph.now.graph found.now)) }
{
    let _well_formed = rule.parts();
    match check_match(alloc, rule, graph, found) {
        Verdict::Applies => Ok(true),
        Verdict::Faulty(_) => Ok(false),
        Verdict::No => Ok(false),
        Verdict::NoMemory => Err(NoMemory),
    }
}

// The next number of an edge.
fn next_edge(graph: &Graph) -> u64
    ensures number { result ≡ graph.now.graph.next_edge }
    ensures sound { IsGraph graph.now.graph }
{
    let (_, next) = graph.next_numbers();
    next
}
