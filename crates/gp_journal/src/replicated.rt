//! The trail of a run, and replicas of it for several workers.

ghost use Rattle.std.specs.Prelude.{◌≡◌, ◌<◌, ◌≤◌, ◌^◌, All, IfOk, List, map, length, vec_len, OnOk, OnErr};
ghost use Rattle.gp_syntax.specs.Tree.{rule_of_tree};
ghost use Rattle.gp_journal.specs.Trail.{fresh, advanced, back_by, forgotten};
ghost use Rattle.gp_journal.specs.Leads.{AppliesWith};

use crate::replicas::copies;
use crate::trail::Trail;
use gp_graph::Graph;
use gp_memory::NoMemory;
use gp_syntax::{Assignment, Found, Rule};
use std::alloc::Global;
use std::marker::Model;
use std::thread::Threads;

/// How many steps of the run replicas make too, before they are let go.
const FEW: u32 = 256;

/// The trail of a run, and replicas of it, which stand where it stands: none, or one for each worker. Contracts see the
/// trail.
pub struct Replicated {
    trail: Trail,
    replicas: Vec<Trail>,
    // how many steps more the replicas make too
    steps: u32,
    alloc: Global,
}

// Written, so that a function that lets one go calls it.
impl Drop for Replicated {
    fn drop(self) {
        let Replicated {
            trail,
            replicas,
            steps: _,
            alloc: _,
        } = self;
        drop(trail);
        drop(replicas);
    }
}

impl Model for Replicated {
    ghost use Rattle.gp_journal.specs.Trail.{Trail as Shown, trail_code};
    ghost use Rattle.std.specs.Prelude.{◌≡◌, ◌<◌, ◌^◌, All, vec_len};

    ghost Value = { Shown };

    ghost coded = { trail_code };

    ghost view = { λ a. a.trail };

    ghost invariant = { λ a. All (λ t. t ≡ a.trail) a.replicas.items × (vec_len a.replicas < 2 ^ 32) };
}

impl Replicated {
    /// The trail of a graph, with no live steps and no replicas. It takes no memory.
    pub fn new(alloc: Global, graph: Graph) -> Replicated
        ensures { result ≡ fresh graph.graph }
    {
        Replicated {
            trail: Trail::new(alloc, graph),
            replicas: Vec::new(alloc),
            steps: 0,
            alloc,
        }
    }

    /// The graph.
    pub fn graph(&self) -> &Graph
        ensures { result.now.graph ≡ self.now.graph }
    {
        self.trail.graph()
    }

    /// How many steps can be taken back.
    pub fn depth(&self) -> u64
        ensures { result ≡ length self.now.before }
    {
        self.trail.depth()
    }

    /// Sets the hints of the graph for searches, which contracts do not see.
    pub fn set_hints(&mut self, start: u64, changed: Option<u64>)
        ensures { self.new ≡ self.old }
    {
        self.trail.set_hints(start, changed);
    }

    /// Makes the step of a match that applies by this assignment. On refusal the trail is as before.
    pub fn advance(
        &mut self,
        rules: &[Rule],
        found: &Found,
        assignment: &Assignment,
    ) -> Result<(), NoMemory>
        requires { AppliesWith (map rule_of_tree rules.now) self.old.graph found.now assignment.now }
        ensures ok { OnOk result (self.new ≡ advanced (map rule_of_tree rules.now) self.old found.now) }
        ensures err { OnErr result (self.new ≡ self.old) }
    {
        if self.steps == 0 {
            self.replicas = Vec::new(self.alloc);
        } else {
            self.steps -= 1;
        }
        if advance_all(&mut self.replicas, &self.trail, rules, found, assignment).is_err() {
            self.replicas = Vec::new(self.alloc);
        }
        match self.trail.advance_told(rules, found, assignment) {
            Ok(()) => Ok(()),
            Err(refusal) => {
                self.replicas = Vec::new(self.alloc);
                Err(refusal)
            }
        }
    }

    /// Takes back the last `k` steps. It takes no memory.
    pub fn back(&mut self, k: u64)
        requires { k ≤ length self.old.before }
        ensures { self.new ≡ back_by k self.old }
    {
        back_all(&mut self.replicas, &self.trail, k);
        self.trail.back(k);
    }

    /// Forgets what takes the live steps back.
    pub fn forget(&mut self)
        ensures { self.new ≡ forgotten self.old }
    {
        forget_all(&mut self.replicas, &self.trail);
        self.trail.forget();
    }

    /// The trail by itself, and a replica for each worker: those that are kept, else copies, which are made in threads.
    pub fn apart<R: Threads + Sync>(
        self,
        rt: &R,
        workers: u32,
    ) -> Result<(Trail, Vec<Trail>), NoMemory>
        requires { 0 < workers }
        ensures trail { IfOk result (λ p. p.0 ≡ self) }
        ensures there { IfOk result (λ p. All (λ t. t ≡ self) p.1.items) }
        ensures some { IfOk result (λ p. 0 < vec_len p.1) }
        ensures few { IfOk result (λ p. vec_len p.1 < 2 ^ 32) }
    {
        let Replicated {
            trail,
            mut replicas,
            steps: _,
            alloc,
        } = self;
        if replicas.is_empty() {
            replicas = copies(rt, alloc, &trail, workers)?;
        } else {
            tell_hints(&mut replicas, &trail);
        }
        Ok((trail, replicas))
    }

    /// A trail with replicas that stand where it stands.
    pub fn whole(alloc: Global, trail: Trail, replicas: Vec<Trail>) -> Replicated
        requires there { All (λ t. t ≡ trail) replicas.items }
        requires few { vec_len replicas < 2 ^ 32 }
        ensures { result ≡ trail }
    {
        Replicated {
            trail,
            replicas,
            steps: FEW,
            alloc,
        }
    }

    /// The graph by itself.
    pub fn into_graph(self) -> Graph
        ensures { result.graph ≡ self.graph }
    {
        let Replicated {
            trail,
            replicas,
            steps: _,
            alloc: _,
        } = self;
        drop(replicas);
        trail.into_graph()
    }
}

// Makes the step on each replica, where all stand where the trail stands.
fn advance_all(
    replicas: &mut [Trail],
    trail: &Trail,
    rules: &[Rule],
    found: &Found,
    assignment: &Assignment,
) -> Result<(), NoMemory>
    requires there { All (λ t. t ≡ trail.now) replicas.old }
    requires applies { AppliesWith (map rule_of_tree rules.now) trail.now.graph found.now assignment.now }
    ensures all { OnOk result (All (λ t. t ≡ advanced (map rule_of_tree rules.now) trail.now found.now) replicas.new) }
    ensures len { length replicas.new ≡ length replicas.old }
{
    for replica in replicas.iter_mut() {
        replica.advance_told(rules, found, assignment)?;
    }
    Ok(())
}

// Takes back the last steps of each.
fn back_all(replicas: &mut [Trail], trail: &Trail, k: u64)
    requires there { All (λ t. t ≡ trail.now) replicas.old }
    requires depth { k ≤ length trail.now.before }
    ensures all { All (λ t. t ≡ back_by k trail.now) replicas.new }
    ensures len { length replicas.new ≡ length replicas.old }
{
    for replica in replicas.iter_mut() {
        replica.back(k);
    }
}

// Forgets what takes the steps of each back.
fn forget_all(replicas: &mut [Trail], trail: &Trail)
    requires there { All (λ t. t ≡ trail.now) replicas.old }
    ensures all { All (λ t. t ≡ forgotten trail.now) replicas.new }
    ensures len { length replicas.new ≡ length replicas.old }
{
    for replica in replicas.iter_mut() {
        replica.forget();
    }
}

// Tells the replicas the hints of the run's graph.
fn tell_hints(replicas: &mut [Trail], trail: &Trail)
    requires there { All (λ t. t ≡ trail.now) replicas.old }
    ensures all { All (λ t. t ≡ trail.now) replicas.new }
    ensures len { length replicas.new ≡ length replicas.old }
{
    for replica in replicas.iter_mut() {
        replica.set_hints(trail.graph().start(), trail.graph().changed());
    }
}
