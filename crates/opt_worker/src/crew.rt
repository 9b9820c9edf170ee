//! Pursuing a goal.

ghost use Rattle.std.specs.Prelude.{◌≡◌, ◌≤◌, ◌<◌, ◌+◌, ◌^◌, ℕ, [], None, Some, length, reverse, vec_len, vec_capacity};
ghost use Rattle.std.specs.List.{All, AllZip};
ghost use Rattle.opt_core.specs.Core.{Legal};
ghost use Rattle.opt_core.specs.Runs.{SameStart};
ghost use Rattle.opt_core.specs.declared.event.Ending.{Ending};
ghost use Rattle.opt_gate.specs.Pass.{IsPassOf, start_of};
ghost use Rattle.opt_worker.specs.Replica.{IsReplica, IsLater, ComeBack};
ghost use Rattle.opt_worker.specs.Entries.{AreSteps};
ghost use Rattle.opt_worker.specs.Events.{CameByEvents};
ghost use Rattle.opt_worker.specs.inside.Jobs.{IsReady, IsBack, counted_down, numbers_of, states_of};

use crate::pace::Pace;
use crate::worker::{Site, work_on};
use opt_core::{Core, Event};
use opt_gate::{Gate, Pass};
use opt_system::System;
use std::sync::Wait;
use std::thread;
use std::thread::Threads;

// The core, stopped.
fn stopped<S: System>(s: &S, mut core: Core<S>) -> Core<S>
    requires system { s.now ≡ core.system }
    requires running { core.ending ≡ None }
    ensures events { CameByEvents (S.means s.now) core result }
    ensures legal { Legal (S.means s.now) result }
    ensures start { SameStart core result }
    ensures ended { (x : Ending S.Reason) × (result.ending ≡ Some x) }
    ensures entries { result.entries ≡ core.entries }
{
    core.step(s, Event::Stop);
    core
}

// A pass for each replica, the last replica first. Each pass has the place of its replica for its number.
fn divide<S: System>(
    gate: &Gate<S>,
    pass: &mut Pass<S>,
    replicas: &mut Vec<S::State>,
    jobs: &mut Vec<(Pass<S>, S::State)>,
)
    requires gate { IsPassOf gate.now pass.old }
    requires told { pass.old.told ≡ 0 }
    requires room { pass.old.room ≡ vec_len replicas.old + 1 }
    requires few { vec_len replicas.old < 2 ^ 32 }
    requires base { All (λ at. at ≡ (start_of gate.now).base) replicas.old.items }
    requires empty { jobs.old.items ≡ [] }
    requires places { vec_len replicas.old ≤ vec_capacity jobs.old }
    ensures gate { IsPassOf gate.now pass.new }
    ensures len { vec_len jobs.new ≡ vec_len replicas.old }
    ensures ready { All (λ job. IsReady (S.means (start_of gate.now).system) gate.now job) jobs.new.items }
    ensures numbers { numbers_of jobs.new.items ≡ counted_down (vec_len replicas.old) }
    ensures states { states_of jobs.new.items ≡ reverse replicas.old.items }
    ensures emptied { replicas.new.items ≡ [] }
    ensures capacity { vec_capacity replicas.new ≡ vec_capacity replicas.old }
{
    while let Some(state) = replicas.pop() {
        let number = replicas.len() as u32;
        jobs.push_reserved((pass.split(gate, number), state));
    }
}

// Each worker works until the goal has ended.
fn run<S: System + Sync, P: Pace + Sync, R: Threads + Wait + Sync>(
    rt: &R,
    s: &S,
    gate: &Gate<S>,
    jobs: &mut [(Pass<S>, S::State)],
    pace: &P,
    batch: u32,
)
where
    S::State: Send,
    S::Found: Send,
    S::Goal: Send + Sync,
    S::Reason: Send,
    requires system { s.now ≡ (start_of gate.now).system }
    requires some { 0 < length jobs.old }
    requires ready { All (λ job. IsReady (S.means (start_of gate.now).system) gate.now job) jobs.old }
    ensures len { length jobs.new ≡ length jobs.old }
    ensures back { All (λ job. IsBack (S.means (start_of gate.now).system) gate.now job) jobs.new }
    ensures later { AllZip (λ before after. IsLater before.0 after.0) jobs.old jobs.new }
{
    let threads = jobs.len();
    thread::for_each_mut(
        rt,
        jobs,
        threads,
        &|_, job: &mut (Pass<S>, S::State)|
            requires { (s.now ≡ (start_of gate.now).system) × IsReady (S.means (start_of gate.now).system) gate.now job.now }
            ensures { IsBack (S.means (start_of gate.entry.now).system) gate.entry.now job.exit.now × IsLater job.entry.now.0 job.exit.now.0 }
        {
            let site = Site {
                system: s,
                gate,
                pace,
            };
            work_on(rt, &site, &mut job.0, &mut job.1, batch)
        },
    );
}

// Takes in what the workers gave back. The replicas are in their first order then.
fn gather<S: System>(
    gate: &Gate<S>,
    pass: &mut Pass<S>,
    jobs: &mut Vec<(Pass<S>, S::State)>,
    replicas: &mut Vec<S::State>,
)
    requires gate { IsPassOf gate.now pass.old }
    requires some { 0 < vec_len jobs.old }
    requires back { All (λ job. IsBack (S.means (start_of gate.now).system) gate.now job) jobs.old.items }
    requires empty { replicas.old.items ≡ [] }
    requires places { vec_len jobs.old ≤ vec_capacity replicas.old }
    ensures gate { IsPassOf gate.now pass.new }
    ensures ended { (x : Ending S.Reason) × (pass.new.ending ≡ Some x) }
    ensures len { vec_len replicas.new ≡ vec_len jobs.old }
    ensures follow { All (λ at. IsReplica (S.means (start_of gate.now).system) (start_of gate.now).base pass.new.knows at) replicas.new.items }
    ensures order { replicas.new.items ≡ reverse (states_of jobs.old.items) }
{
    while let Some((other, state)) = jobs.pop() {
        pass.join(gate, other);
        replicas.push_reserved(state);
    }
}

/// Pursues the goal of the core with a worker for each replica, until it has ended. The workers' passes have the places of
/// their replicas for their numbers, from 0; one pass more stays here, to close the gate. For a goal that goes on a worker
/// offers up to `batch` matches in one turn, and one where `batch` is 0.
pub fn pursue<S: System + Sync, P: Pace + Sync, R: Threads + Wait + Sync>(
    rt: &R,
    s: &S,
    core: Core<S>,
    mut replicas: Vec<S::State>,
    pace: &P,
    batch: u32,
) -> (Core<S>, Vec<S::State>)
where
    S::State: Send,
    S::Found: Send,
    S::Goal: Send + Sync,
    S::Reason: Send,
    requires system { s.now ≡ core.system }
    requires fresh { (core.entries ≡ []) × (core.ending ≡ None) }
    requires some { 0 < vec_len replicas }
    requires few { vec_len replicas < 2 ^ 32 }
    requires base { All (λ at. at ≡ core.base) replicas.items }
    ensures events { CameByEvents (S.means s.now) core result.0 }
    ensures legal { Legal (S.means s.now) result.0 }
    ensures start { SameStart core result.0 }
    ensures ended { (x : Ending S.Reason) × (result.0.ending ≡ Some x) }
    ensures steps { AreSteps (S.means s.now) core.goal core.base result.0.entries }
    ensures len { vec_len result.1 ≡ vec_len replicas }
    ensures order { ComeBack (S.means s.now) core replicas.items result.1.items }
    ensures follow { All (λ at. IsReplica (S.means s.now) core.base result.0.entries at) result.1.items }
{
    let alloc = *replicas.allocator();
    let count = replicas.len();
    let Ok(mut jobs) = Vec::with_capacity(alloc, count) else {
        return (stopped(s, core), replicas);
    };
    let (gate, mut pass) = match Gate::start(alloc, core, count as u64 + 1) {
        Ok(started) => started,
        Err(core) => return (stopped(s, core), replicas),
    };
    divide(&gate, &mut pass, &mut replicas, &mut jobs);
    run(rt, s, &gate, &mut jobs, pace, batch);
    gather(&gate, &mut pass, &mut jobs, &mut replicas);
    (gate.close(rt, pass), replicas)
}
