//! A graph with the inverses of its live steps.

ghost use Rattle.std.specs.Prelude.{◌≡◌, ◌<◌, ◌≤◌, ◌+◌, ◌++◌, ◌∷◌, [], List, map, length, OnOk, OnErr, IfOk, vec_len, vec_capacity};
ghost use Rattle.gp_values.specs.Graph.{Graph as AnyGraph};
ghost use Rattle.gp_syntax.specs.Rule.{Rule as AnyRule};
ghost use Rattle.gp_syntax.specs.Step.{Applies, Step};
ghost use Rattle.gp_syntax.specs.Tree.{rule_of_tree, item_of};
ghost use Rattle.gp_step.specs.After.{after};
ghost use Rattle.gp_step.specs.Undo.{Undoes};
ghost use Rattle.gp_journal.specs.Trail.{Trail as Shown, fresh, advanced, undone, back_by, forgotten};
ghost use Rattle.gp_journal.specs.Leads.{AppliesBy, AppliesWith, StepsBy, IsTrailOf, Goes, Leads, CaughtUp};
ghost use Rattle.gp_journal.specs.Journal.{items_of};

use gp_graph::Graph;
use gp_memory::NoMemory;
use gp_step::{Undo, apply, apply_told, undo};
use gp_syntax::{Assignment, Found, Item, Rule};
use std::alloc::Global;
use std::marker::Model;

/// A graph with the inverses of its live steps. Contracts see the graph, the graphs before its live steps, and how many
/// items the last catching up made.
pub struct Trail {
    graph: Graph,
    undos: Vec<Undo>,
    caught: u64,
    alloc: Global,
}

// Written, so that a function that lets a trail go calls it.
impl Drop for Trail {
    fn drop(self) {
        let Trail {
            graph,
            undos,
            caught: _,
            alloc: _,
        } = self;
        drop(graph);
        drop(undos);
    }
}

impl Model for Trail {
    ghost use Rattle.gp_journal.specs.Trail.{Trail as Shown, trail_code};

    ghost Value = { Shown };

    ghost coded = { trail_code };

    ghost use Rattle.gp_journal.specs.inside.Held.{trail_of, IsSound};

    ghost view = { trail_of };

    ghost invariant = { IsSound };
}

impl Trail {
    /// The trail of a graph, with no live steps. It takes no memory.
    pub fn new(alloc: Global, graph: Graph) -> Trail
        ensures { result ≡ fresh graph.graph }
    {
        Trail {
            graph,
            undos: Vec::new(alloc),
            caught: 0,
            alloc,
        }
    }

    /// The graph.
    pub fn graph(&self) -> &Graph
        ensures { result.now.graph ≡ self.now.graph }
    {
        &self.graph
    }

    /// How many steps are live.
    pub fn depth(&self) -> u64
        ensures { result ≡ length self.now.before }
    {
        self.undos.len() as u64
    }

    /// How many items the last catching up made.
    pub fn caught(&self) -> u64
        ensures { result ≡ self.now.caught }
    {
        self.caught
    }

    /// Forgets how many items the last catching up made, as a trail does not know that never caught up.
    pub fn settle(&mut self)
        ensures { self.new ≡ record self.old { caught = 0 } }
    {
        self.caught = 0;
    }

    /// Sets the hints of the graph for searches. They are no part of what contracts see; taking back leaves them.
    pub fn set_hints(&mut self, start: u64, changed: Option<u64>)
        ensures { self.new ≡ self.old }
    {
        self.graph.set_hints(start, changed);
    }

    // What new parts take their memory from.
    pub(crate) fn allocator(&self) -> Global {
        self.alloc
    }

    /// Makes the step of a match that applies. On refusal the trail is as before.
    pub fn advance(&mut self, rules: &[Rule], found: &Found) -> Result<(), NoMemory>
        requires { AppliesBy (map rule_of_tree rules.now) self.old.graph found.now }
        ensures ok { OnOk result (self.new ≡ advanced (map rule_of_tree rules.now) self.old found.now) }
        ensures step { OnOk result (StepsBy (map rule_of_tree rules.now) self.old.graph found.now self.new.graph) }
        ensures only { OnOk result ((h : AnyGraph) → StepsBy (map rule_of_tree rules.now) self.old.graph found.now h → h ≡ self.new.graph) }
        ensures err { OnErr result (self.new ≡ self.old) }
        ensures of_rules { IsTrailOf (map rule_of_tree rules.now) self.old → IsTrailOf (map rule_of_tree rules.now) self.new }
    {
        let _room = self.undos.capacity();
        self.undos.reserve(1)?;
        let rule = &rules[found.rule() as usize];
        let undo = step(self.alloc, rule, &mut self.graph, found)?;
        push_spare(&mut self.undos, undo);
        Ok(())
    }

    /// The same, where the assignment is known by which the match applies.
    pub fn advance_told(
        &mut self,
        rules: &[Rule],
        found: &Found,
        assignment: &Assignment,
    ) -> Result<(), NoMemory>
        requires { AppliesWith (map rule_of_tree rules.now) self.old.graph found.now assignment.now }
        ensures ok { OnOk result (self.new ≡ advanced (map rule_of_tree rules.now) self.old found.now) }
        ensures step { OnOk result (StepsBy (map rule_of_tree rules.now) self.old.graph found.now self.new.graph) }
        ensures err { OnErr result (self.new ≡ self.old) }
        ensures of_rules { IsTrailOf (map rule_of_tree rules.now) self.old → IsTrailOf (map rule_of_tree rules.now) self.new }
    {
        let _room = self.undos.capacity();
        self.undos.reserve(1)?;
        let rule = &rules[found.rule() as usize];
        let undo = apply_told(self.alloc, rule, &mut self.graph, found, assignment)?;
        push_spare(&mut self.undos, undo);
        Ok(())
    }

    // Takes the last step back.
    fn back_one(&mut self)
        requires { 0 < length self.old.before }
        ensures { self.new ≡ undone self.old }
    {
        match self.undos.pop() {
            Some(last) => undo(&mut self.graph, last),
            None => unreachable!(),
        }
    }

    /// Takes back the last `k` steps. It takes no memory.
    pub fn back(&mut self, k: u64)
        requires { k ≤ length self.old.before }
        ensures back { self.new ≡ back_by k self.old }
        ensures of_rules { (rules : List AnyRule) → IsTrailOf rules self.old → IsTrailOf rules self.new }
    {
        for _ in 0..k {
            self.back_one();
        }
    }

    /// Forgets what takes the live steps back: there is none to be taken back any more.
    pub fn forget(&mut self)
        ensures forgotten { self.new ≡ forgotten self.old }
        ensures of_rules { (rules : List AnyRule) → IsTrailOf rules self.new }
    {
        self.undos.clear();
    }

    /// The graph by itself.
    pub fn into_graph(self) -> Graph
        ensures { result.graph ≡ self.graph }
    {
        let Trail {
            graph,
            undos,
            caught: _,
            alloc: _,
        } = self;
        drop(undos);
        graph
    }

    // Makes what one item says.
    fn follow(&mut self, rules: &[Rule], item: &Item) -> Result<(), NoMemory>
        requires { (t : Shown) × Goes (map rule_of_tree rules.now) (item_of item.now) self.old t }
        ensures ok { OnOk result (Goes (map rule_of_tree rules.now) (item_of item.now) self.old self.new) }
        ensures only { OnOk result ((t : Shown) → Goes (map rule_of_tree rules.now) (item_of item.now) self.old t → t ≡ self.new) }
        ensures err { OnErr result (self.new ≡ self.old) }
        ensures caught { self.new.caught ≡ self.old.caught }
    {
        match item {
            Item::Step(found) => self.advance(rules, found),
            Item::Turn => Ok(()),
            Item::Back(k) => {
                self.back(*k);
                Ok(())
            }
        }
    }

    /// Makes what the items say, in order. On refusal the trail is as after so many of them as `caught` tells.
    pub fn catch_up(&mut self, rules: &[Rule], items: &[Item]) -> Result<(), NoMemory>
        requires { (t : Shown) × Leads (map rule_of_tree rules.now) (items_of items.now) self.old t }
        ensures all { OnOk result (self.new.caught ≡ length items.now) }
        ensures caught { CaughtUp (map rule_of_tree rules.now) (items_of items.now) self.old self.new }
        ensures of_rules { IsTrailOf (map rule_of_tree rules.now) self.old → IsTrailOf (map rule_of_tree rules.now) self.new }
    {
        for (n, item) in items.iter().enumerate() {
            match self.follow(rules, item) {
                Ok(()) => (),
                Err(refusal) => {
                    self.caught = n as u64;
                    return Err(refusal);
                }
            }
        }
        self.caught = items.len() as u64;
        Ok(())
    }

    /// The same trail in memory of its own.
    pub fn copy(&self) -> Result<Trail, NoMemory>
        ensures { IfOk result (λ t. t ≡ self.now) }
    {
        Ok(Trail {
            graph: self.graph.copy(self.alloc)?,
            undos: copy_all(&self.undos, self.alloc)?,
            caught: self.caught,
            alloc: self.alloc,
        })
    }
}

// Makes the step of a match of a rule that applies, the only one there is.
fn step(alloc: Global, rule: &Rule, graph: &mut Graph, found: &Found) -> Result<Undo, NoMemory>
    requires { Applies (rule_of_tree rule.now) graph.old.graph found.now }
    ensures after { OnOk result (graph.new.graph ≡ after (rule_of_tree rule.now) graph.old.graph found.now) }
    ensures step { OnOk result (Step (rule_of_tree rule.now) graph.old.graph found.now graph.new.graph) }
    ensures only { OnOk result ((h : AnyGraph) → Step (rule_of_tree rule.now) graph.old.graph found.now h → h ≡ graph.new.graph) }
    ensures undo { IfOk result (λ u. Undoes u graph.new.graph graph.old.graph) }
    ensures err { OnErr result (graph.new.graph ≡ graph.old.graph) }
{
    let _well_formed = rule.parts();
    let _sound = graph.next_numbers();
    apply(alloc, rule, graph, found)
}

/// Puts an item at the end, where there is a spare place.
pub(crate) fn push_spare<T: Drop>(items: &mut Vec<T>, item: T)
    requires { vec_len items.old < vec_capacity items.old }
    ensures items { items.new.items ≡ items.old.items ++ item ∷ [] }
    ensures len { vec_len items.new ≡ vec_len items.old + 1 }
    ensures room { vec_capacity items.old ≤ vec_capacity items.new }
{
    match items.push(item) {
        Ok(()) => (),
        Err(_) => unreachable!(),
    }
}

// The same inverses in memory of their own.
fn copy_all(undos: &[Undo], alloc: Global) -> Result<Vec<Undo>, NoMemory>
    ensures { IfOk result (λ v. v.items ≡ undos.now) }
{
    let mut copies = Vec::with_capacity(alloc, undos.len())?;
    for undo in undos {
        copies.push(undo.copy(alloc)?)?;
    }
    Ok(copies)
}
