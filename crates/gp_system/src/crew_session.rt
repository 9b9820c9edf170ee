//! A run of a program whose calls are searched by several workers where one alone would search long.

ghost use Rattle.std.specs.Prelude.{◌≡◌, ◌<◌, ◌≤◌, ◌%◌, IfOk, length, map};
ghost use Rattle.gp_syntax.specs.Tree.{rule_of_tree};
ghost use Rattle.gp_plan.specs.Plan.{plan_of};
ghost use Rattle.gp_run.specs.Engine.{View, HasCalled, HasRepeated, HasTurned};
ghost use Rattle.gp_run.specs.declared.engine.Turned.TheVariants as turned;
ghost use Rattle.gp_system.specs.inside.Viewed.{view_of, begun, items_in, none_if};
ghost use Rattle.gp_system.specs.inside.Pursued.{HasPursued};
ghost use Rattle.gp_system.specs.inside.AfterTurn.{HasGone, still};

use crate::crew::{Crew, Terms};
use crate::goal::{CallGoal, Fault};
use crate::gp::Gp;
use crate::outcome::Ran;
use crate::pursuit::{Asked, pursue_goal};
use crate::session::{AfterTurn, Session};
use gp_graph::Graph;
use gp_memory::NoMemory;
use gp_plan::Plan;
use gp_run::{Called, Engine, Repeated, Turned};
use gp_syntax::Program;
use opt_core::Ending;
use opt_system::Mode;
use opt_worker::{Pacing, SHARES_OF_A_WORKER};
use std::alloc::Global;
use std::marker::Model;
use std::sync::Wait;
use std::thread::Threads;

// How many candidates a search may look at for each of the fan.
const CANDIDATES: u64 = 20_000;

// With how many counted items the crew has a loop first, from within a turn: eight steps, and the turns between them.
const FIRST_LEASE: u64 = 15;

// With how many at most: the workers keep the steps of a lease, and what takes them back.
const LAST_LEASE: u64 = 8191;

/// A run with a crew. Contracts see what they see of a `Session`. The workers' trails are made at the first call that goes
/// to the crew, and kept while few steps are made without them.
#[derive(Drop)]
pub struct CrewSession<'a> {
    session: Session<'a>,
    system: Gp<'a>,
    crew: Crew,
    pace: &'a Pacing,
}

impl<'a> Model for CrewSession<'a> {
    ghost use Rattle.gp_system.specs.inside.Viewed.{Shown, shown_code};
    ghost use Rattle.gp_system.specs.inside.Pursued.{IsCrewed};

    ghost Value = { Shown };

    ghost coded = { shown_code };

    ghost view = { λ a. a.session };

    ghost invariant = { λ a. IsCrewed a.session a.system a.crew.workers };
}

// How many shares a goal has: several for each worker, so that whoever is done early does little of another's work again;
// one where a worker may offer several matches of a share in a turn, and several shares have fewer nodes than that.
fn shares_for(crew: Crew, nodes: u64) -> u32
    requires { 0 < crew.workers }
    ensures { 0 < result }
{
    let several = crew.workers.saturating_mul(SHARES_OF_A_WORKER);
    if crew.batch > 1 && nodes < u64::from(several).saturating_mul(u64::from(crew.batch)) {
        return crew.workers;
    }
    several
}

// The lease after this one.
fn longer(lease: u64) -> u64
    requires { lease % 2 ≡ 1 }
    ensures { result % 2 ≡ 1 }
{
    if lease < LAST_LEASE {
        lease * 2 + 1
    } else {
        lease
    }
}

impl<'a> CrewSession<'a> {
    /// At the beginning of a run of the program on the host on these terms, with the plans of its rules.
    pub fn new(
        alloc: Global,
        program: &'a Program,
        plans: &'a [Plan],
        host: Graph,
        terms: Terms<'a>,
    ) -> CrewSession<'a>
        requires plans { plans.now ≡ map plan_of (map rule_of_tree program.now.rules) }
        requires workers { 0 < terms.crew.workers }
        ensures { result ≡ begun program.now host.graph terms.entry.bound (none_if terms.entry.keeps) }
    {
        let _sound = host.next_numbers();
        let crew = terms.crew;
        let shares = shares_for(crew, host.node_count());
        CrewSession {
            session: Session::new(alloc, program, plans, host, terms.bound, terms.keeps),
            system: Gp::new(alloc, program, plans, shares),
            crew,
            pace: terms.pace,
        }
    }

    /// What the run leaves.
    pub fn into_ran(self) -> Ran
        ensures graph { result.graph.graph ≡ self.entry.trail.graph }
        ensures live_steps { result.live ≡ self.entry.live }
        ensures items { items_in result.items ≡ self.entry.kept }
    {
        self.session.into_ran()
    }

    // Whether the call goes to the crew at once.
    fn is_wide(&self, call: u32) -> bool {
        let fan = self.crew.fan;
        fan <= 1 && self.system.is_wide(call, self.session.graph(), fan)
    }

    // How many candidates a search on the run's own graph may look at before it is given up, besides those for the parts of
    // the run: so many that turns at the gate are cheap beside it.
    fn patience(&self) -> Option<u64> {
        Some(u64::from(self.crew.fan.max(64)) * CANDIDATES)
    }

    // Lets the crew pursue the call, with so many of the items left. After a refusal nothing of the run is left.
    fn pursue_call<R: Threads + Wait + Sync>(
        &mut self,
        rt: &R,
        goal: CallGoal,
        given: u64,
    ) -> Result<Ending<Fault>, NoMemory>
        requires set { goal.call < length self.old.program.sets }
        requires given { given ≤ self.old.left }
        ensures { IfOk result (λ x. HasPursued goal given x self.old self.new) }
    {
        let trail = self.session.take_trail();
        let asked = Asked {
            goal,
            left: given,
            workers: self.crew.workers,
            batch: self.crew.batch,
        };
        let pursued = pursue_goal(rt, &self.system, trail, asked, self.pace)?;
        let used = given - pursued.left;
        self.session
            .take_in(pursued.trail, pursued.entries, goal.mode, used)?;
        Ok(pursued.ending)
    }

    fn pursue_one<R: Threads + Wait + Sync>(&mut self, rt: &R, call: u32) -> Called
        requires { call < length self.old.program.sets }
        ensures { HasCalled call result (view_of self.old) (view_of self.new) }
    {
        let mode = Mode::Once;
        let left = self.session.left();
        match self.pursue_call(rt, CallGoal { call, mode }, left) {
            Ok(Ending::Committed) => Called::Stepped,
            Ok(Ending::Blocked) => Called::Blocked,
            Ok(Ending::Bound) => Called::Bound,
            Ok(Ending::Fault(fault)) => Called::Fault(fault.rule, fault.kind),
            Ok(Ending::Stopped) | Err(NoMemory) => Called::NoMemory,
        }
    }

    // The loop over a call from within a turn that was begun: the crew has it with all items that are left, or as many of
    // them as the lease says, an odd number, so that the last is a step.
    fn pursue_turns<R: Threads + Wait + Sync>(&mut self, rt: &R, call: u32, lease: u64) -> AfterTurn
        requires set { call < length self.old.program.sets }
        requires lease { lease % 2 ≡ 1 }
        ensures going { (u : View) → HasTurned turned.Made u (view_of self.old) → HasGone call result u (view_of self.new) }
        ensures less { still result self.new.left ≤ self.old.left }
    {
        let mode = Mode::Saturate;
        let given = self.session.left().min(lease);
        match self.pursue_call(rt, CallGoal { call, mode }, given) {
            Ok(Ending::Bound) if self.session.left() > 0 => AfterTurn::On,
            Ok(Ending::Bound) => AfterTurn::Came(Repeated::Bound),
            Ok(Ending::Blocked) => AfterTurn::Came(self.session.end()),
            Ok(Ending::Fault(fault)) => AfterTurn::Came(Repeated::Fault(fault.rule, fault.kind)),
            Ok(Ending::Committed) => unreachable!(),
            Ok(Ending::Stopped) | Err(NoMemory) => AfterTurn::Came(Repeated::NoMemory),
        }
    }

    // How the loop over a call stands as it begins: where the crew is to have it at once, in its first turn.
    fn first_turn(&mut self, call: u32) -> AfterTurn
        ensures going { HasGone call result (view_of self.old) (view_of self.new) }
    {
        if !self.is_wide(call) {
            return AfterTurn::On;
        }
        match self.session.begin() {
            Turned::Made => AfterTurn::Dear,
            Turned::Bound => AfterTurn::Came(Repeated::Bound),
            Turned::NoMemory => AfterTurn::Came(Repeated::NoMemory),
        }
    }

    // The whole loop over a call. Each time that the crew has it, it has it for twice as many steps, up to those of the last
    // lease.
    fn take_loop<R: Threads + Wait + Sync>(&mut self, rt: &R, call: u32) -> Repeated
        requires { call < length self.old.program.sets }
        ensures { HasRepeated call result (view_of self.old) (view_of self.new) }
    {
        let patience = self.patience();
        let mut stands = self.first_turn(call);
        let mut lease = FIRST_LEASE;
        'turns: loop {
            match stands {
                AfterTurn::On => stands = self.session.take_turns(call, patience),
                AfterTurn::Dear => {
                    stands = self.pursue_turns(rt, call, lease);
                    lease = longer(lease);
                }
                AfterTurn::Came(repeated) => return repeated,
            }
        }
    }
}

impl<'a, R: Threads + Wait + Sync> Engine<R> for CrewSession<'a> {
    ghost use denote.Param.Send.{IsSync};

    ghost view = { view_of };

    ghost ready = { λ _. IsSync R.row };

    fn call(&mut self, rt: &R, call: u32) -> Called {
        if self.is_wide(call) {
            return self.pursue_one(rt, call);
        }
        let patience = self.patience();
        match self.session.take(call, patience) {
            Some(called) => called,
            None => self.pursue_one(rt, call),
        }
    }

    fn repeat(&mut self, rt: &R, call: u32) -> Repeated {
        self.take_loop(rt, call)
    }

    fn turn(&mut self, _rt: &R) -> Turned {
        self.session.begin()
    }

    fn mark(&mut self, _rt: &R) -> Result<u64, NoMemory> {
        self.session.mark_here()
    }

    fn back_to(&mut self, _rt: &R, mark: u64) {
        self.session.take_back(mark);
    }

    fn close_mark(&mut self, _rt: &R) {
        self.session.close_here();
    }
}
