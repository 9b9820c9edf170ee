//! The steps of a turn on the table that passes share.
ghost use Rattle.std.specs.Prelude.{◌≡◌, ◌≤◌, ◌<◌, ◌^◌, ◌%◌, ℕ, [], ◌∷◌, None, Some, true, false, if◌then◌else◌};
ghost use Rattle.opt_gate.specs.inside.Plays.{resting, waiting, Takes, Took, passed, joined, Shows};
ghost use Rattle.opt_gate.specs.inside.Cores.{entries_of, ended_of, IsOfKey, passes_of};
ghost use Rattle.opt_gate.specs.inside.Follow.{MayFollow};
ghost use Rattle.opt_core.specs.Core.{Legal};
ghost use Rattle.opt_gate.specs.inside.Seats.{Acts, MayComeTo, is_stop};

use crate::bells::Bells;
use crate::key::Key;
use crate::rule::{Draw, GateRule, JoinPasses, PassOn, PassOnStop, Show, Watch};
use crate::view::View;
use atomic_table::{Seat, Shared};
use opt_core::{Core, Event, Reply};
use opt_system::System;
use std::sync::Wait;
use std::{hint, thread};

// How often a waiting pass looks at the ticket that is served before it lets other threads run between two looks, and how
// often it does that before it sleeps.
const LOOKS: u32 = 64;

const YIELDS: u32 = 8;

// The words and the slot of a gate.
type GateTable<S: System> = Shared<
    Option<Core<S>>,
    View<Key<Core<S>>, S::Found, S::Reason>,
    Key<Core<S>>,
    GateRule<S>,
>;

// What a pass takes steps with.
type GateSeat<S: System> = Seat<Option<Core<S>>, View<Key<Core<S>>, S::Found, S::Reason>>;

// Draws a ticket.
fn draw<S: System>(shared: &GateTable<S>, seat: &mut GateSeat<S>) -> u64
    requires table { (seat.old.table_id ≡ shared.now.table_id) × (shared.now.table_id.words ≡ 2) }
    requires idle { (seat.old.me.0.ticket ≡ None) × (seat.old.me.0.served ≡ false) × (0 < seat.old.me.0.room) }
    ensures same { seat.new.table_id ≡ seat.old.table_id }
    ensures drew { (t : ℕ) × (t % 2 ^ 64 ≡ result) × (seat.new.me ≡ (waiting seat.old.me.0 t, seat.old.me.1)) }
{
    shared.fetch_add::<Draw>(seat, 1, 1)
}

// Waits until the ticket is served. Then the seat has the core.
fn watch<S: System, R: Wait>(
    rt: &R,
    shared: &GateTable<S>,
    bells: &Bells,
    seat: &mut GateSeat<S>,
    ticket: u64,
)
    requires table { (seat.old.table_id ≡ shared.now.table_id) × (shared.now.table_id.words ≡ 2) }
    requires drawn { (seat.old.me.0.served ≡ false) × (seat.old.me.1 ≡ []) × ((t : ℕ) × (seat.old.me.0.ticket ≡ Some t) × (t % 2 ^ 64 ≡ ticket)) }
    ensures same { seat.new.table_id ≡ seat.old.table_id }
    ensures takes { Takes entries_of ended_of (IsOfKey S.means) passes_of seat.old.me seat.new.me }
{
    let mut looks = 0;
    for _ in rt.forever() {
        if shared.load::<Watch<S>>(seat, 0) == ticket {
            return;
        }
        if looks < LOOKS {
            looks += 1;
            hint::spin_loop();
        } else if looks < LOOKS + YIELDS {
            looks += 1;
            thread::yield_now();
        } else {
            bells.sleep(rt, ticket);
        }
    }
    unreachable!()
}

// Puts the core back, and passes the turn on.
fn hand_on<S: System>(
    shared: &GateTable<S>,
    bells: &Bells,
    seat: &mut GateSeat<S>,
    core: Core<S>,
    is_stop: bool,
)
    requires table { (seat.old.table_id ≡ shared.now.table_id) × (shared.now.table_id.words ≡ 2) × (shared.now.table_id.slots ≡ 1) }
    requires served { (seat.old.me.0.served ≡ true) × ((held : _) × (seat.old.me.1 ≡ (0, held) ∷ [])) }
    requires core { MayFollow entries_of ended_of (IsOfKey S.means) (if is_stop then 1 else 0) seat.old.me.0 core }
    ensures same { seat.new.table_id ≡ seat.old.table_id }
    ensures me { seat.new.me ≡ (passed entries_of ended_of (if is_stop then 1 else 0) seat.old.me.0 core, []) }
    ensures shows { Shows passes_of (passed entries_of ended_of (if is_stop then 1 else 0) seat.old.me.0 core) }
{
    drop(shared.exchange(seat, 0, Some(core)));
    if is_stop {
        bells.ring_behind(shared.fetch_add::<PassOnStop<S>>(seat, 0, 1));
    } else {
        bells.ring_behind(shared.fetch_add::<PassOn<S>>(seat, 0, 1));
    }
}

// Whether the event is Stop.
fn asks_stop<F>(event: &Event<F>) -> bool
    ensures { result ≡ is_stop event.now }
{
    match event {
        Event::Stop => true,
        _ => false,
    }
}

// Waits for a turn, and takes the core out.
pub(crate) fn take<S: System, R: Wait>(
    rt: &R,
    shared: &GateTable<S>,
    bells: &Bells,
    seat: &mut GateSeat<S>,
) -> Core<S>
    requires table { (seat.old.table_id ≡ shared.now.table_id) × (shared.now.table_id.words ≡ 2) }
    requires idle { (seat.old.me ≡ (resting seat.old.me.0, [])) × (0 < seat.old.me.0.room) }
    ensures same { seat.new.table_id ≡ seat.old.table_id }
    ensures took { Took entries_of ended_of (IsOfKey S.means) passes_of seat.old.me.0 result seat.new.me }
    ensures legal { Legal (S.means result.system) result }
{
    let ticket = draw(shared, seat);
    watch(rt, shared, bells, seat, ticket);
    let core = shared.exchange(seat, 0, None).unwrap();
    // Reads the core, so that what its type says is known of it.
    let _ = core.ending();
    core
}

// One event of the core.
pub(crate) fn act<S: System, R: Wait>(
    rt: &R,
    shared: &GateTable<S>,
    bells: &Bells,
    seat: &mut GateSeat<S>,
    s: &S,
    event: Event<S::Found>,
) -> Reply<S::Found, S::Reason>
    requires table { (seat.old.table_id ≡ shared.now.table_id) × (shared.now.table_id.words ≡ 2) × (shared.now.table_id.slots ≡ 1) }
    requires idle { (seat.old.me ≡ (resting seat.old.me.0, [])) × (0 < seat.old.me.0.room) }
    requires system { (k : _) × (seat.old.me.0.key ≡ Some k) × (s.now ≡ k.core.value.system) }
    requires event { MayComeTo (S.means s.now) seat.old.me.0 event }
    ensures same { seat.new.table_id ≡ seat.old.table_id }
    ensures acts { Acts (S.means s.now) seat.old.me.0 event result seat.new.me }
{
    let is_stop = asks_stop(&event);
    let mut core = take(rt, shared, bells, seat);
    let reply = core.step(s, event);
    hand_on(shared, bells, seat, core, is_stop);
    reply
}

// Joins two seats without tickets. The second load shows what the seat that comes of it knows.
pub(crate) fn unite<S: System>(shared: &GateTable<S>, seat: &mut GateSeat<S>, other: GateSeat<S>)
    requires table { (seat.old.table_id ≡ shared.now.table_id) × (other.table_id ≡ shared.now.table_id) × (shared.now.table_id.words ≡ 2) }
    requires idle { (seat.old.me ≡ (resting seat.old.me.0, [])) × (0 < seat.old.me.0.room) }
    requires other { other.me ≡ (resting other.me.0, []) }
    ensures same { seat.new.table_id ≡ seat.old.table_id }
    ensures me { seat.new.me ≡ (resting (joined seat.old.me.0 other.me.0), []) }
    ensures shows { Shows passes_of (joined seat.old.me.0 other.me.0) }
{
    shared.join_seat::<JoinPasses>(seat, other);
    shared.load::<Show<S>>(seat, 0);
}
