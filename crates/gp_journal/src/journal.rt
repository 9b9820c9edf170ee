//! A trail with its items.

ghost use Rattle.std.specs.Prelude.{◌≡◌, ◌<◌, ◌≤◌, ◌+◌, [], OnOk, OnErr, IfOk, List, map, length};
ghost use Rattle.gp_syntax.specs.Rule.{Rule as AnyRule};
ghost use Rattle.gp_syntax.specs.Tree.{rule_of_tree};
ghost use Rattle.gp_journal.specs.Trail.{fresh, rooted};
ghost use Rattle.gp_journal.specs.Leads.{AppliesBy, Leads};
ghost use Rattle.gp_journal.specs.Journal.{with_step, with_turn, with_mark, without_mark, with_back, items_of, IsJournalOf};

use crate::items::Items;
use crate::trail::{Trail, push_spare};
use gp_graph::Graph;
use gp_memory::NoMemory;
use gp_syntax::{Found, Item, Rule};
use std::alloc::Global;
use std::marker::Model;

/// A trail with the items that led to it. Contracts see both, and for how many calls of `back` there is room.
pub struct Journal {
    trail: Trail,
    items: Vec<Item>,
    backs: u64,
}

// Written, so that a function that lets a journal go calls it.
impl Drop for Journal {
    fn drop(self) {
        let Journal {
            trail,
            items,
            backs: _,
        } = self;
        drop(trail);
        drop(items);
    }
}

impl Model for Journal {
    ghost use Rattle.gp_journal.specs.Journal.{Journal as Shown, journal_code};
    ghost use Rattle.std.specs.Prelude.{◌≤◌, ◌+◌, vec_len, vec_capacity};

    ghost Value = { Shown };

    ghost coded = { journal_code };

    ghost view = { λ a. record { trail = a.trail; items = a.items.items; backs = a.backs } };

    ghost invariant = { λ a. vec_len a.items + a.backs ≤ vec_capacity a.items };
}

impl Journal {
    /// The journal of a graph, with no items. It takes no memory.
    pub fn new(alloc: Global, graph: Graph) -> Journal
        ensures { result ≡ record { trail = fresh graph.graph; items = []; backs = 0 } }
    {
        Journal {
            trail: Trail::new(alloc, graph),
            items: Vec::new(alloc),
            backs: 0,
        }
    }

    /// The items, in order.
    pub fn items(&self) -> &[Item]
        ensures { result.now ≡ self.now.items }
    {
        self.items.as_slice()
    }

    /// The graph.
    pub fn graph(&self) -> &Graph
        ensures { result.now.graph ≡ self.now.trail.graph }
    {
        self.trail.graph()
    }

    /// How many steps are live.
    pub fn depth(&self) -> u64
        ensures { result ≡ length self.now.trail.before }
    {
        self.trail.depth()
    }

    /// Sets the hints of the graph for searches, which contracts do not see.
    pub fn set_hints(&mut self, start: u64, changed: Option<u64>)
        ensures { self.new ≡ self.old }
    {
        self.trail.set_hints(start, changed);
    }

    /// Makes the step of a match that applies. On refusal the journal is as before.
    pub fn step(&mut self, rules: &[Rule], found: &Found) -> Result<(), NoMemory>
        requires { AppliesBy (map rule_of_tree rules.now) self.old.trail.graph found.now }
        ensures ok { OnOk result (self.new ≡ with_step (map rule_of_tree rules.now) self.old found.now) }
        ensures err { OnErr result (self.new ≡ self.old) }
        ensures of_rules { IsJournalOf (map rule_of_tree rules.now) self.old → IsJournalOf (map rule_of_tree rules.now) self.new }
    {
        let item = Item::Step(found.copy(self.trail.allocator())?);
        let _told = self.items.capacity();
        self.items.reserve(self.backs as usize + 1)?;
        self.trail.advance(rules, found)?;
        push_spare(&mut self.items, item);
        Ok(())
    }

    /// Makes a turn. On refusal the journal is as before.
    pub fn turn(&mut self) -> Result<(), NoMemory>
        ensures ok { OnOk result (self.new ≡ with_turn self.old) }
        ensures err { OnErr result (self.new ≡ self.old) }
        ensures of_rules { (rules : List AnyRule) → IsJournalOf rules self.old → IsJournalOf rules self.new }
    {
        let _told = self.items.capacity();
        self.items.reserve(self.backs as usize + 1)?;
        push_spare(&mut self.items, Item::Turn);
        Ok(())
    }

    /// Makes room for one more `back`, and tells how many steps are live. On refusal the journal is as before.
    pub fn mark(&mut self) -> Result<u64, NoMemory>
        ensures ok { OnOk result (self.new ≡ with_mark self.old) }
        ensures live { IfOk result (λ n. n ≡ length self.old.trail.before) }
        ensures err { OnErr result (self.new ≡ self.old) }
        ensures of_rules { (rules : List AnyRule) → IsJournalOf rules self.old → IsJournalOf rules self.new }
    {
        let _told = self.items.capacity();
        self.items.reserve(self.backs as usize + 1)?;
        self.backs += 1;
        Ok(self.trail.depth())
    }

    /// Gives up the room of one mark. It takes no memory.
    pub fn unmark(&mut self)
        requires { 0 < self.old.backs }
        ensures unmarked { self.new ≡ without_mark self.old }
        ensures of_rules { (rules : List AnyRule) → IsJournalOf rules self.old → IsJournalOf rules self.new }
    {
        self.backs -= 1;
    }

    /// Takes back the last `k` steps. It takes no memory, but the room of one mark.
    pub fn back(&mut self, k: u64)
        requires room { 0 < self.old.backs }
        requires depth { k ≤ length self.old.trail.before }
        ensures back { self.new ≡ with_back k self.old }
        ensures of_rules { (rules : List AnyRule) → IsJournalOf rules self.old → IsJournalOf rules self.new }
    {
        self.trail.back(k);
        push_spare(&mut self.items, Item::Back(k));
        self.backs -= 1;
    }

    /// The trail and the items by themselves.
    pub fn apart(self) -> (Trail, Items)
        ensures trail { result.0 ≡ self.trail }
        ensures items { result.1 ≡ record { items = self.items; backs = self.backs } }
    {
        let Journal {
            trail,
            items,
            backs,
        } = self;
        (trail, Items { items, backs })
    }

    /// The journal of a trail and the items that led to it, by some rules. It is of each list of rules by which they did.
    pub fn whole(trail: Trail, items: Items) -> Journal
        requires { (rules : List AnyRule) × Leads rules (items_of items.items) (rooted trail) trail }
        ensures { result ≡ record { trail = trail; items = items.items; backs = items.backs } }
    {
        let Items { items: kept, backs } = items;
        Journal {
            trail,
            items: kept,
            backs,
        }
    }
}
