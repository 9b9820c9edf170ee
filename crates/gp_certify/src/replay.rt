//! A trace of which each item goes, as a tape.

ghost use Rattle.std.specs.Prelude.{◌≡◌, ◌<◌, ◌↔◌, ℕ, All, IfOk, IfSome, IfNone, IsTrue, Contains, Some, length, map, slice_get};
ghost use Rattle.gp_syntax.specs.Rule.{Found as AnyFound};
ghost use Rattle.gp_syntax.specs.Run.{Stepped, Back};
ghost use Rattle.gp_syntax.specs.Tree.{program_of_tree, item_of};
ghost use Rattle.gp_certify.specs.inside.View.{IsTape};
ghost use Rattle.gp_certify.specs.inside.Along.{BreaksOff};
ghost use Rattle.gp_certify.specs.inside.Replay.{view_of};

use crate::along::{Standing, Walked, stand_at, walk};
use crate::laws::rules_are_well_formed;
use crate::tape::Tape;
use gp_blocked::is_set_blocked;
use gp_graph::Graph;
use gp_memory::NoMemory;
use gp_syntax::{Found, Item, Program};
use std::alloc::Global;
use std::marker::Model;

/// A trace of which each item goes, by a program and from a host. The trail stands where it was asked for last. Contracts
/// see the program, the host and the items.
pub(crate) struct Replay<'a> {
    program: &'a Program,
    host: &'a Graph,
    items: &'a [Item],
    depths: Vec<u64>,
    standing: Standing,
    alloc: Global,
}

// Written, so that a function that lets a replay go calls it.
impl Drop for Replay<'_> {
    fn drop(self) {
        let Replay {
            program: _,
            host: _,
            items: _,
            depths,
            standing,
            alloc: _,
        } = self;
        drop(depths);
        drop(standing);
    }
}

impl<'a> Model for Replay<'a> {
    ghost use Rattle.gp_certify.specs.inside.Replay.{Shown, shown_code, IsSound};

    ghost Value = { Shown };

    ghost coded = { shown_code };

    ghost view = { λ a. record { program = a.program.now; host = a.host.now.graph; items = a.items.now } };

    ghost invariant = { λ a. IsSound a.program.now a.host.now.graph a.items.now a.depths.items a.standing };
}

// The match of a place, where the item there is a step.
fn step_at(items: &[Item], place: usize) -> Option<&Found>
    ensures some { IfSome result (λ m. slice_get (map item_of items.now) place ≡ Some (Stepped m.now)) }
    ensures none { IfNone result ((m : AnyFound) → slice_get (map item_of items.now) place ≡ Some (Stepped m) → ⊥) }
{
    match items.get(place) {
        None => None,
        Some(item) => match item {
            Item::Step(found) => Some(found),
            Item::Turn => None,
            Item::Back(_) => None,
        },
    }
}

// How many steps the item of a place takes back, where it takes back.
fn back_at(items: &[Item], place: usize) -> Option<u64>
    ensures some { IfSome result (λ k. slice_get (map item_of items.now) place ≡ Some (Back k)) }
    ensures none { IfNone result ((k : ℕ) → slice_get (map item_of items.now) place ≡ Some (Back k) → ⊥) }
{
    match items.get(place) {
        None => None,
        Some(item) => match item {
            Item::Step(_) => None,
            Item::Turn => None,
            Item::Back(count) => Some(*count),
        },
    }
}

// The set of a call, by the numbers of its rules.
fn set_of(program: &Program, call: u32) -> &[u32]
    requires { call < length program.now.sets }
    ensures set { slice_get program.now.sets call ≡ Some result.now }
    ensures within { All (λ i. i < length program.now.rules) result.now }
{
    let parts = program.parts();
    parts.sets.as_slice()[call as usize].as_slice()
}

fn has_rule(set: &[u32], rule: u32) -> bool
    ensures { IsTrue result ↔ Contains set.now rule }
{
    set.contains(&rule)
}

impl<'a> Replay<'a> {
    /// The items from the host, where each goes.
    pub(crate) fn new(
        alloc: Global,
        program: &'a Program,
        host: &'a Graph,
        items: &'a [Item],
    ) -> Result<Option<Replay<'a>>, NoMemory>
        ensures shown { IfOk result (λ o. IfSome o (λ r. r ≡ record { program = program.now; host = host.now.graph; items = items.now })) }
        ensures tape { IfOk result (λ o. IfSome o (λ r. IsTape (view_of r))) }
        ensures none { IfOk result (λ o. IfNone o (BreaksOff (program_of_tree program.now).rules host.now.graph (map item_of items.now))) }
    {
        let rules = program.parts().rules.as_slice();
        rules_are_well_formed(rules);
        let _sound = host.next_numbers();
        match walk(alloc, rules, host, items)? {
            None => Ok(None),
            Some(Walked { depths, trail }) => Ok(Some(Replay {
                program,
                host,
                items,
                depths,
                standing: Standing {
                    trail,
                    place: items.len(),
                },
                alloc,
            })),
        }
    }

    /// The graph behind the last item.
    pub(crate) fn last_graph(&mut self) -> Result<Graph, NoMemory>
        ensures { IfOk result (λ g. g.graph ≡ (view_of self.old).graphs (length self.old.items)) }
    {
        let place = self.items.len();
        let rules = self.program.parts().rules.as_slice();
        stand_at(
            self.alloc,
            rules,
            self.host,
            self.items,
            &mut self.standing,
            place,
        )?;
        self.standing.trail.graph().copy(self.alloc)
    }
}

impl<'a> Tape for Replay<'a> {
    ghost view = { view_of };

    fn len(&self) -> usize {
        self.items.len()
    }

    fn steps(&self, call: u32, place: usize) -> bool {
        match step_at(self.items, place) {
            Some(found) => has_rule(set_of(self.program, call), found.rule()),
            None => false,
        }
    }

    fn is_blocked(&mut self, call: u32, place: usize) -> Result<bool, NoMemory> {
        let set = set_of(self.program, call);
        let rules = self.program.parts().rules.as_slice();
        stand_at(
            self.alloc,
            rules,
            self.host,
            self.items,
            &mut self.standing,
            place,
        )?;
        is_set_blocked(self.alloc, rules, set, self.standing.trail.graph())
    }

    fn is_turn(&self, place: usize) -> bool {
        matches!(self.items.get(place), Some(Item::Turn))
    }

    fn takes_back(&self, from: usize, place: usize) -> bool {
        match back_at(self.items, place) {
            Some(count) => {
                let depth = self.depths[place];
                let depth_before = self.depths[from];
                count == depth - depth_before
            }
            None => false,
        }
    }
}
