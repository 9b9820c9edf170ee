//! Through the items of a journal.

ghost use Rattle.std.specs.Prelude.{◌≡◌, ◌↔◌, ◌+◌, List, map, length, slice_get};
ghost use Rattle.std.specs.Option.{option_copied};
ghost use Rattle.gp_syntax.specs.Rule.{Rule as AnyRule};
ghost use Rattle.gp_syntax.specs.Tree.{rule_of_tree};
ghost use Rattle.gp_journal.specs.Trail.{Trail as AnyTrail, fresh};
ghost use Rattle.gp_journal.specs.Leads.{Leads};
ghost use Rattle.gp_journal.specs.Journal.{IsJournalOf, items_of};
ghost use Rattle.gp_derivation.specs.Stepper.{at_start, before_first, IsStepperOf, IsMoved};

use crate::backward::unmake;
use crate::forward::make;
use crate::standing::Standing;
use gp_graph::Graph;
use gp_journal::{Items, Journal, Trail};
use gp_syntax::{Item, Rule};
use std::alloc::Global;
use std::marker::Model;

/// What came of a move.
#[derive(Clone, Copy)]
pub enum Moved {
    /// The stepper stands at the next place, or at the one before.
    Made,
    /// There is no further place, and it stands where it stood.
    End,
    /// Memory was refused, and it stands where it stood.
    NoMemory,
}

/// The items of a run, and a trail at a place of them: before the item of that number, or behind the last one. Contracts
/// see the items, the place and the trail.
pub struct Stepper {
    items: Items,
    place: usize,
    standing: Standing,
}

// Written, so that a function that lets a stepper go calls it.
impl Drop for Stepper {
    fn drop(self) {
        let Stepper {
            items,
            place: _,
            standing,
        } = self;
        drop(items);
        drop(standing);
    }
}

impl Model for Stepper {
    ghost use Rattle.gp_derivation.specs.Stepper.{Stepper as Shown};
    ghost use Rattle.gp_derivation.specs.inside.Code.{stepper_code};

    ghost Value = { Shown };

    ghost coded = { stepper_code };

    ghost use Rattle.gp_derivation.specs.inside.StepperHeld.{stepper_of, IsSound};

    ghost view = { stepper_of };

    ghost invariant = { IsSound };
}

impl Stepper {
    /// The stepper of a journal, before the first item: all live steps are taken back. It takes no memory.
    pub fn new(alloc: Global, journal: Journal) -> Stepper
        ensures start { result ≡ at_start journal }
        ensures of_rules { (rules : List AnyRule) → IsJournalOf rules journal → IsStepperOf rules result }
    {
        let (mut trail, items) = journal.apart();
        let depth = trail.depth();
        trail.back(depth);
        starting(alloc, trail, items)
    }

    /// The stepper of items that lead from a host, before the first of them. It takes no memory.
    pub fn at_host(alloc: Global, host: Graph, items: Items) -> Stepper
        ensures start { result ≡ before_first (fresh host.graph) items.items }
        ensures of_rules { (rules : List AnyRule) → (end : AnyTrail) × Leads rules (items_of items.items) (fresh host.graph) end → IsStepperOf rules result }
    {
        starting(alloc, Trail::new(alloc, host), items)
    }

    /// Before which item the stepper stands: the number of the items that are made.
    pub fn place(&self) -> usize
        ensures { result ≡ self.now.place }
    {
        self.place
    }

    /// The item at the place, which `forward` makes; none behind the last one.
    pub fn item(&self) -> Option<&Item>
        ensures { option_copied result ≡ slice_get self.now.items self.now.place }
    {
        self.items.as_slice().get(self.place)
    }

    /// The graph at the place.
    pub fn graph(&self) -> &Graph
        ensures { result.now.graph ≡ self.now.trail.graph }
    {
        self.standing.trail.graph()
    }

    /// Makes what the item at the place says, and goes behind it.
    pub fn forward(&mut self, rules: &[Rule]) -> Moved
        requires { IsStepperOf (map rule_of_tree rules.now) self.old }
        ensures made { result ≡ Moved.Made → IsMoved (map rule_of_tree rules.now) self.old self.new (self.old.place + 1) }
        ensures end { (result ≡ Moved.End) ↔ (self.old.place ≡ length self.old.items) }
        ensures stays { result ≡ Moved.End → self.new ≡ self.old }
        ensures refused { result ≡ Moved.NoMemory → self.new ≡ self.old }
    {
        let items = self.items.as_slice();
        if self.place == items.len() {
            return Moved::End;
        }
        match make(&mut self.standing, rules, items, self.place) {
            Ok(()) => {
                self.place += 1;
                Moved::Made
            }
            Err(_) => Moved::NoMemory,
        }
    }

    /// Goes before the item before the place, and takes back what it says: the steps that a `Back` took back are made
    /// again.
    pub fn back(&mut self, rules: &[Rule]) -> Moved
        requires { IsStepperOf (map rule_of_tree rules.now) self.old }
        ensures made { result ≡ Moved.Made → (self.new.place + 1 ≡ self.old.place) × IsMoved (map rule_of_tree rules.now) self.old self.new self.new.place }
        ensures end { (result ≡ Moved.End) ↔ (self.old.place ≡ 0) }
        ensures stays { result ≡ Moved.End → self.new ≡ self.old }
        ensures refused { result ≡ Moved.NoMemory → self.new ≡ self.old }
    {
        if self.place == 0 {
            return Moved::End;
        }
        let place = self.place - 1;
        match unmake(&mut self.standing, rules, self.items.as_slice(), place) {
            Ok(()) => {
                self.place = place;
                Moved::Made
            }
            Err(_) => Moved::NoMemory,
        }
    }
}

// The stepper of a trail before the first of some items.
fn starting(alloc: Global, trail: Trail, items: Items) -> Stepper
    ensures { result ≡ before_first trail items.items }
{
    Stepper {
        items,
        place: 0,
        standing: Standing {
            trail,
            live: Vec::new(alloc),
            taken: Vec::new(alloc),
        },
    }
}
