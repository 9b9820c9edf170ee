//! The rule of the gate's table, and what each step does and shows. These types are for the proofs alone.

ghost use Rattle.opt_gate.specs.inside.Cores.{entries_of, ended_of, goal_of, IsOfKey, passes_of, first_view};
ghost use Rattle.opt_gate.specs.inside.Plays.{Drew, Watched, Passed, Shown, split_left, split_right, joined, spent};
ghost use Rattle.opt_gate.specs.inside.Rule.{Ruled};

use crate::key::Key;
use crate::view::View;
use atomic_table::{Join, Play, Split, TableRule};
use opt_core::Core;
use opt_system::System;
use std::marker::PhantomData;

// The rule.
pub struct GateRule<S> {
    marker: PhantomData<S>,
}

impl<S: System> TableRule<Option<Core<S>>, View<Key<Core<S>>, S::Found, S::Reason>, Key<Core<S>>>
    for GateRule<S> {
    ghost holds = { Ruled entries_of ended_of (IsOfKey S.means) passes_of };

    ghost first = { first_view };
}

/// The goal of a core. A gate keeps it beside its table.
pub trait HasGoal<C, G> {
    ghost goal_of: { C → G };
}

impl<S: System> HasGoal<Core<S>, S::Goal> for GateRule<S> {
    ghost goal_of = { goal_of };
}

// A ticket is drawn.
pub struct Draw;

impl<C, K, F, R> Play<Option<C>, View<K, F, R>> for Draw {
    ghost then = { Drew };
}

// The ticket that is served is read. Where it is that of the seat, the core is the seat's.
pub struct Watch<S> {
    marker: PhantomData<S>,
}

impl<S: System> Play<Option<Core<S>>, View<Key<Core<S>>, S::Found, S::Reason>> for Watch<S> {
    ghost then = { Watched entries_of ended_of (IsOfKey S.means) passes_of };
}

// The turn goes to the next ticket, and the core into its slot.
pub struct PassOn<S> {
    marker: PhantomData<S>,
}

impl<S: System> Play<Option<Core<S>>, View<Key<Core<S>>, S::Found, S::Reason>> for PassOn<S> {
    ghost then = { Passed entries_of ended_of (IsOfKey S.means) passes_of 0 };
}

// The same after a turn that asked to stop.
pub struct PassOnStop<S> {
    marker: PhantomData<S>,
}

impl<S: System> Play<Option<Core<S>>, View<Key<Core<S>>, S::Found, S::Reason>> for PassOnStop<S> {
    ghost then = { Passed entries_of ended_of (IsOfKey S.means) passes_of 1 };
}

// A pass is split.
pub struct SplitPass;

impl<K, F, R> Split<View<K, F, R>> for SplitPass {
    ghost left = { split_left };

    ghost right = { split_right };
}

// Two passes are joined.
pub struct JoinPasses;

impl<K, F, R> Join<View<K, F, R>> for JoinPasses {
    ghost both = { joined };

    ghost spent = { spent };
}

// The second load of a join, which shows what the pass that came of it knows.
pub struct Show<S> {
    marker: PhantomData<S>,
}

impl<S: System> Play<Option<Core<S>>, View<Key<Core<S>>, S::Found, S::Reason>> for Show<S> {
    ghost then = { Shown passes_of };
}
