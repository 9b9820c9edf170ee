//! Events that are sent to a core, each of which is asked first whether it may come.

ghost use Rattle.std.specs.Prelude.{◌≡◌, ◌<◌, ◌≤◌, IsTrue, IfOk, IfSome, length};
ghost use Rattle.opt_system.specs.Meaning.{AllIndependent, applies};
ghost use Rattle.opt_core.specs.Core.{at_first};
ghost use Rattle.opt_core.specs.Runs.{SameStart};
ghost use Rattle.opt_core.specs.Steps.{MayCome};
ghost use Rattle.opt_core.specs.declared.event.Event.TheVariants as event;
ghost use Rattle.opt_tables.specs.inside.Told.{told_of};

use gp_memory::NoMemory;
use opt_core::{Core, Entries, Event, Reply};
use opt_system::{Mode, Sought, System, Verdict};
use std::alloc::Global;

// The number of entries that the sender was told of.
fn told_of<F>(event: &Event<F>) -> u64
    ensures { result ≡ told_of event.now }
{
    match event {
        Event::Look { told, from: _ } => *told,
        Event::Offer { told, found: _ } => *told,
        Event::Batch { told, founds: _ } => *told,
        Event::Fault { told, found: _ } => *told,
        Event::Quiet { told, share: _ } => *told,
        Event::Stop => 0,
    }
}

// Whether an event may come, whose sender was told of the entries up to this state.
fn may_come<S: System>(s: &S, core: &Core<S>, at: &S::State, event: &Event<S::Found>) -> bool
    requires told { told_of event.now ≤ length core.now.entries }
    requires at { at.now ≡ at_first (S.means s.now) core.now (told_of event.now) }
    ensures { IsTrue result → MayCome (S.means s.now) core.now event.now }
{
    let goal = core.goal();
    match event {
        Event::Offer { told: _, found } => matches!(s.check(goal, at, found), Verdict::Applies),
        Event::Fault { told: _, found } => matches!(s.check(goal, at, found), Verdict::Faulty(_)),
        Event::Quiet { told: _, share } => {
            *share < s.shares(goal) && matches!(s.seek(goal, *share, at), Sought::Barren)
        }
        // Whether its matches are independent cannot be asked: see `send_batch`.
        Event::Batch { told: _, founds: _ } => false,
        Event::Look { told: _, from: _ } => true,
        Event::Stop => true,
    }
}

// Makes the step of a match, if it applies. Whether it was made.
fn is_made<S: System>(s: &S, goal: S::Goal, at: &mut S::State, found: &S::Found) -> bool
    ensures { IsTrue result → at.new ≡ (S.means s.now).after at.old found.now }
{
    matches!(s.check(goal, at, found), Verdict::Applies) && s.apply(at, found).is_ok()
}

// The answer to an offer that may come. What it commits is made on the state that follows, if that is still known.
fn offer<S: System>(
    s: &S,
    core: &mut Core<S>,
    at: &mut S::State,
    count: &mut Option<u64>,
    told: u64,
    found: S::Found,
) -> Reply<S::Found, S::Reason>
    requires system { s.now ≡ core.old.system }
    requires offer { MayCome (S.means s.now) core.old (event.Offer told found) }
    requires at { IfSome count.old (λ n. (n ≡ length core.old.entries) × (at.old ≡ core.old.state)) }
    ensures start { SameStart core.old core.new }
    ensures at { IfSome count.new (λ n. (n ≡ length core.new.entries) × (at.new ≡ core.new.state)) }
{
    let goal = core.goal();
    let kept = s.copy(&found);
    let reply = core.step(s, Event::Offer { told, found });
    if let Reply::Committed(place) = &reply {
        *count = match &kept {
            Ok(found) if count.is_some() && is_made(s, goal, at, found) => place.checked_add(1),
            _ => None,
        };
    }
    reply
}

/// The answer to an event, if it may come. Its sender was told of no entry, where the state is the base, or of all, where
/// it is `at`, after `count` entries. What the event commits is made there; none is counted where that was refused.
pub(crate) fn send<S: System>(
    s: &S,
    core: &mut Core<S>,
    base: &S::State,
    at: &mut S::State,
    count: &mut Option<u64>,
    event: Event<S::Found>,
) -> Option<Reply<S::Found, S::Reason>>
    requires system { s.now ≡ core.old.system }
    requires base { base.now ≡ core.old.base }
    requires at { IfSome count.old (λ n. (n ≡ length core.old.entries) × (at.old ≡ core.old.state)) }
    ensures start { SameStart core.old core.new }
    ensures at { IfSome count.new (λ n. (n ≡ length core.new.entries) × (at.new ≡ core.new.state)) }
{
    let _legal = core.ending();
    let may_come = match told_of(&event) {
        0 => may_come(s, core, base, &event),
        told => *count == Some(told) && may_come(s, core, at, &event),
    };
    if !may_come {
        return None;
    }
    Some(match event {
        Event::Offer { told, found } => offer(s, core, at, count, told, found),
        Event::Batch { told, founds } => {
            *count = None;
            core.step(s, Event::Batch { told, founds })
        }
        Event::Look { told, from } => core.step(s, Event::Look { told, from }),
        Event::Fault { told, found } => core.step(s, Event::Fault { told, found }),
        Event::Quiet { told, share } => core.step(s, Event::Quiet { told, share }),
        Event::Stop => core.step(s, Event::Stop),
    })
}

// The match of the goal's first share, and of the others up to so many in all that may be offered together in this state.
fn held_with<S: System>(
    alloc: Global,
    s: &S,
    goal: S::Goal,
    at: &S::State,
    found: S::Found,
    limit: u32,
) -> Result<Entries<S::Found>, NoMemory>
    requires some { 0 < limit }
    requires share { (S.means s.now).share goal found ≡ 0 }
    requires applies { (S.means s.now).judged goal at.now found ≡ applies }
    ensures { IfOk result (λ fs. (0 < length fs) × AllIndependent (S.means s.now) goal at.now fs) }
{
    let mut held = Vec::new(alloc);
    held.push(found)?;
    s.more(goal, 0, at, &mut held, limit)?;
    Ok(Entries::from_vec(held))
}

// Up to so many matches of the goal's first share that may be offered together in this state, unless there is none or
// memory is refused.
fn held_in<S: System>(
    alloc: Global,
    s: &S,
    goal: S::Goal,
    at: &S::State,
    limit: u32,
) -> Result<Entries<S::Found>, NoMemory>
    requires { 0 < limit }
    ensures { IfOk result (λ fs. (0 < length fs) × AllIndependent (S.means s.now) goal at.now fs) }
{
    match s.seek(goal, 0, at) {
        Sought::Applies(found) => held_with(alloc, s, goal, at, found, limit),
        _ => Err(NoMemory),
    }
}

// The answer to a batch from a sender who was told of no entry, if the goal goes on.
fn send_held<S: System>(
    s: &S,
    core: &mut Core<S>,
    founds: Entries<S::Found>,
) -> Option<Reply<S::Found, S::Reason>>
    requires system { s.now ≡ core.old.system }
    requires some { 0 < length founds }
    requires independent { AllIndependent (S.means s.now) core.old.goal core.old.base founds }
    ensures { SameStart core.old core.new }
{
    match s.mode(core.goal()) {
        Mode::Saturate => Some(core.step(s, Event::Batch { told: 0, founds })),
        Mode::Once => None,
    }
}

/// The answer to a batch of up to so many matches of the first share, from a sender who was told of no entry, if it may
/// come.
pub(crate) fn send_batch<S: System>(
    alloc: Global,
    s: &S,
    core: &mut Core<S>,
    base: &S::State,
    limit: u32,
) -> Option<Reply<S::Found, S::Reason>>
    requires system { s.now ≡ core.old.system }
    requires base { base.now ≡ core.old.base }
    ensures { SameStart core.old core.new }
{
    if limit == 0 {
        return None;
    }
    match held_in(alloc, s, core.goal(), base, limit) {
        Ok(founds) => send_held(s, core, founds),
        Err(NoMemory) => None,
    }
}
