//! The gate.

ghost use Rattle.std.specs.Prelude.{◌≡◌, ◌<◌, ◌^◌, ℕ, [], ◌∷◌, ◌++◌, None, Some, length, IfOk, IfErr};
ghost use Rattle.opt_core.specs.Core.{Legal, AllApply};
ghost use Rattle.opt_core.specs.Runs.{SameStart, EventsLead};
ghost use Rattle.opt_core.specs.declared.event.Ending.{Ending};
ghost use Rattle.opt_core.specs.declared.event.Ending.TheVariants.{Stopped};
ghost use Rattle.opt_core.specs.declared.event.Reply.TheVariants.{Closed};
ghost use Rattle.opt_gate.specs.Lists.{AllAt, StartsWith, times, once_below};
ghost use Rattle.opt_gate.specs.Pass.{IsPassOf, IsWhole, OwnsRightly, first_pass, start_of};
ghost use Rattle.opt_gate.specs.Turn.{MayAsk, IsOneEvent, IsTrueEnding, entries_told, news_of, pass_after};
ghost use Rattle.opt_gate.specs.inside.Seats.{told_and_handed};

use crate::ask::Ask;
use crate::bells::Bells;
use crate::key::Key;
use crate::pass::{Pass, PassOf};
use crate::rule::{GateRule, HasGoal};
use crate::steps::{act, take};
use crate::view::View;
use atomic_table::{Refused, Table, TableRule};
use opt_core::{Core, Reply};
use opt_system::System;
use std::alloc::Global;
use std::marker::Model;
use std::snapshot::Snapshot;
use std::sync::Wait;

/// The gate of a core `C`, over its matches `F`, reasons `R`, rule `P` and goal `G`.
#[derive(Drop)]
pub struct GateOf<
    C,
    F,
    R,
    P: TableRule<Option<C>, View<Key<C>, F, R>, Key<C>> + HasGoal<C, G>,
    G: Copy,
> {
    pub(crate) table: Table<Option<C>, View<Key<C>, F, R>, Key<C>, P, Global>,
    bells: Bells,
    goal: G,
}

impl<C, F, R, P: TableRule<Option<C>, View<Key<C>, F, R>, Key<C>> + HasGoal<C, G>, G: Copy> Model
    for GateOf<C, F, R, P, G> {
    ghost use Rattle.std.specs.Prelude.{◌≡◌};
    ghost use Rattle.opt_gate.specs.declared.key.Key.{Key as KeyData};
    ghost use Rattle.opt_gate.specs.Pass.{GateView};

    ghost Value = { GateView (KeyData C) };

    ghost view = { λ g. record { table = g.table.shared.table_id; key = g.table.shared.key } };

    ghost invariant = { λ g. (g.table.shared.table_id.words ≡ 2) × (g.table.shared.table_id.slots ≡ 1) × (g.goal ≡ P.goal_of g.table.shared.key.core.value) };
}

/// A ticket lock round a core. Who holds a pass takes a turn: one event of the core, which nobody else has meanwhile.
pub type Gate<S: System> = GateOf<Core<S>, S::Found, S::Reason, GateRule<S>, S::Goal>;

impl<S: System> GateOf<Core<S>, S::Found, S::Reason, GateRule<S>, S::Goal> {
    /// The goal of the core that the gate was started with.
    pub fn goal(&self) -> S::Goal
        ensures { result ≡ (start_of self.now).goal }
    {
        self.goal
    }

    /// A gate round this core, and its first pass, which has all the room: so many passes there may be. It takes all
    /// memory that turns need of the gate itself. For want of it the core comes back.
    pub fn start(alloc: Global, core: Core<S>, passes: u64) -> Result<(Gate<S>, Pass<S>), Core<S>>
        requires passes { 0 < passes }
        requires core { (core.entries ≡ []) × (core.ending ≡ None) }
        ensures ok { IfOk result (λ r. (start_of r.0 ≡ core) × (r.0.key.passes ≡ passes) × (r.1 ≡ first_pass r.0 passes)) }
        ensures err { IfErr result (λ c. c ≡ core) }
    {
        let goal = core.goal();
        let key = Key {
            core: Snapshot::of(&core),
            passes,
        };
        let Ok(mut slots) = Vec::with_capacity(alloc, 1) else {
            return Err(core);
        };
        let Ok(bells) = Bells::silent(alloc) else {
            return Err(core);
        };
        slots.push_reserved(Some(core));
        match Table::new(alloc, &[0, 0], slots, &key) {
            Ok((table, seat)) => Ok((
                GateOf { table, bells, goal },
                PassOf {
                    seat,
                    number: 0,
                    told: 0,
                    room: passes,
                },
            )),
            Err(Refused { slots }) => Err(only(slots)),
        }
    }

    /// One turn of the pass: it asks the core, and knows all entries then. It waits until its turn comes.
    pub fn turn<R: Wait>(
        &self,
        rt: &R,
        pass: &mut Pass<S>,
        s: &S,
        ask: Ask<S::Found>,
    ) -> Reply<S::Found, S::Reason>
        requires gate { IsPassOf self.now pass.old }
        requires system { s.now ≡ (start_of self.now).system }
        requires ask { MayAsk (S.means s.now) (start_of self.now) pass.old ask }
        ensures one_event { IsOneEvent (S.means s.now) (start_of self.now) pass.old ask result pass.new }
        ensures pass { pass.new ≡ pass_after pass.old ask result pass.new.knows pass.new.ending }
        ensures further { StartsWith pass.new.knows pass.old.knows }
        ensures told { entries_told pass.new ≡ entries_told pass.old ++ news_of result }
        ensures applies { AllApply (S.means s.now) (start_of self.now).goal (start_of self.now).base pass.new.knows }
        ensures ending { (x : Ending S.Reason) → pass.new.ending ≡ Some x → IsTrueEnding (S.means s.now) (start_of self.now) pass.new.knows x }
        ensures closed { (x : Ending S.Reason) → result ≡ Closed x → pass.new.ending ≡ Some x }
        ensures stays { (x : Ending S.Reason) → pass.old.ending ≡ Some x → (result ≡ Closed x) × (pass.new.ending ≡ Some x) × (pass.new.knows ≡ pass.old.knows) }
        ensures own { OwnsRightly pass.new }
        ensures whole { IsWhole self.now.key pass.new }
    {
        let event = ask.into_event(pass.told);
        let reply = act(
            rt,
            &self.table.shared,
            &self.bells,
            &mut pass.seat,
            s,
            event,
        );
        pass.told = told_then(pass.told, &reply);
        reply
    }

    /// A last turn, which keeps the core out. It waits until its turn comes, and takes no memory.
    pub fn close<R: Wait>(self, rt: &R, pass: Pass<S>) -> Core<S>
        requires { IsPassOf self pass }
        ensures start { SameStart (start_of self) result }
        ensures led { EventsLead (S.means (start_of self).system) (start_of self) result }
        ensures legal { Legal (S.means (start_of self).system) result }
        ensures knew { StartsWith result.entries pass.knows }
        ensures stands { (x : Ending S.Reason) → pass.ending ≡ Some x → (result.ending ≡ Some x) × (result.entries ≡ pass.knows) }
        ensures own { AllAt result.entries pass.own }
        ensures each_once { pass.room ≡ self.key.passes → (place : ℕ) → times place pass.own ≡ once_below place (length result.entries) }
        ensures stopped { pass.room ≡ self.key.passes → result.ending ≡ Some Stopped → 0 < pass.stops }
    {
        let GateOf {
            table,
            bells,
            goal: _,
        } = self;
        let PassOf {
            mut seat,
            number: _,
            told: _,
            room: _,
        } = pass;
        take(rt, &table.shared, &bells, &mut seat)
    }
}

// The number of entries that were handed over, after an answer.
fn told_then<F, R>(told: u64, reply: &Reply<F, R>) -> u64
    requires { told_and_handed told reply.now < 2 ^ 64 }
    ensures { result ≡ told_and_handed told reply.now }
{
    match reply {
        Reply::News { entries, task: _ } => told + entries.as_slice().len() as u64,
        _ => told,
    }
}

// The one value of the row.
fn only<T: Drop>(mut slots: Vec<Option<T>>) -> T
    requires { (x : T) × (slots.items ≡ Some x ∷ []) }
    ensures { slots.items ≡ Some result ∷ [] }
{
    slots.pop().unwrap().unwrap()
}
