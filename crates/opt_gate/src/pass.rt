//! Passes: who holds one may take turns at the gate.

ghost use Rattle.std.specs.Prelude.{◌≡◌, ◌≤◌, ◌<◌, ◌+◌, ℕ, Some, length};
ghost use Rattle.opt_core.specs.declared.event.Ending.{Ending};
ghost use Rattle.opt_gate.specs.Lists.{StartsWith, times};
ghost use Rattle.opt_gate.specs.Pass.{IsPassOf, IsWhole, OwnsRightly, pass_after_split, new_pass, joined_pass};

use crate::gate::Gate;
use crate::key::Key;
use crate::rule::SplitPass;
use crate::steps::unite;
use crate::view::View;
use atomic_table::Seat;
use opt_core::Core;
use opt_system::System;
use std::marker::Model;

/// A pass of the gate of a core `C`, over its matches `F` and reasons `R`.
#[derive(Drop)]
pub struct PassOf<C, F, R> {
    pub(crate) seat: Seat<Option<C>, View<Key<C>, F, R>>,
    pub(crate) number: u32,
    pub(crate) told: u64,
    pub(crate) room: u64,
}

impl<C, F, R> Model for PassOf<C, F, R> {
    ghost use Rattle.std.specs.Prelude.{◌≡◌, ◌<◌, ◌≤◌, [], length};
    ghost use Rattle.opt_gate.specs.inside.Plays.{resting};
    ghost use Rattle.opt_gate.specs.declared.key.Key.{Key as KeyData};
    ghost use Rattle.opt_gate.specs.Pass.{PassView};

    ghost Value = { PassView (KeyData C) F R };

    ghost view = { λ p. record { table = p.seat.table_id; key = p.seat.me.0.key; number = p.number; told = p.told; room = p.room; knows = p.seat.me.0.knows; ending = p.seat.me.0.ending; own = p.seat.me.0.own; stops = p.seat.me.0.stops } };

    ghost invariant = { λ p. (p.seat.me ≡ (resting p.seat.me.0, [])) × (p.room ≡ p.seat.me.0.room) × (0 < p.room) × (p.told ≤ length p.seat.me.0.knows) };
}

/// The leave to take turns at a gate. It knows what was committed up to its last turn.
pub type Pass<S: System> = PassOf<Core<S>, S::Found, S::Reason>;

impl<S: System> PassOf<Core<S>, S::Found, S::Reason> {
    /// The number of entries that were handed to it.
    pub fn told(&self) -> u64
        ensures value { result ≡ self.now.told }
        ensures known { self.now.told ≤ length self.now.knows }
    {
        self.told
    }

    /// The number of passes that it may become, itself counted.
    pub fn room(&self) -> u64
        ensures value { result ≡ self.now.room }
        ensures some { 0 < self.now.room }
    {
        self.room
    }

    /// Its number.
    pub fn number(&self) -> u32
        ensures { result ≡ self.now.number }
    {
        self.number
    }

    /// A new pass of room 1, with this number. It was told and knows the same, and has no commits and no stops.
    /// It takes no memory.
    pub fn split(&mut self, gate: &Gate<S>, number: u32) -> Pass<S>
        requires gate { IsPassOf gate.now self.old }
        requires room { 2 ≤ self.old.room }
        ensures left { self.new ≡ pass_after_split self.old }
        ensures new { result ≡ new_pass self.old number }
    {
        let seat = gate.table.shared.split_seat::<SplitPass>(&mut self.seat);
        self.room -= 1;
        PassOf {
            seat,
            number,
            told: self.told,
            room: 1,
        }
    }

    /// Takes in another pass of the gate. It takes no memory.
    pub fn join(&mut self, gate: &Gate<S>, other: Pass<S>)
        requires gate { IsPassOf gate.now self.old }
        requires other { IsPassOf gate.now other }
        ensures joined { self.new ≡ joined_pass self.old other }
        ensures prefix { StartsWith self.new.knows self.old.knows × StartsWith self.new.knows other.knows }
        ensures stays { (x : Ending S.Reason) → self.old.ending ≡ Some x → (self.new.ending ≡ Some x) × (self.new.knows ≡ self.old.knows) }
        ensures other_stays { (x : Ending S.Reason) → other.ending ≡ Some x → (self.new.ending ≡ Some x) × (self.new.knows ≡ other.knows) }
        ensures apart { (place : ℕ) → times place self.old.own + times place other.own ≤ 1 }
        ensures own { OwnsRightly self.new }
        ensures whole { IsWhole gate.now.key self.new }
    {
        let PassOf {
            seat,
            number: _,
            told: _,
            room,
        } = other;
        unite(&gate.table.shared, &mut self.seat, seat);
        self.room += room;
    }
}
