//! The core of a goal: a pure state machine over events.

ghost use Rattle.std.specs.Prelude.{◌≡◌, ◌≤◌, ◌<◌, None, length, drop, IfOk, IfErr};
ghost use Rattle.opt_system.specs.Meaning.{Barren, applies, faulty};
ghost use Rattle.opt_core.specs.Core.{Legal, at_first};
ghost use Rattle.opt_core.specs.Runs.{SameStart};
ghost use Rattle.opt_core.specs.Steps.{MayCome, Answers, AnswersLook, AnswersOffer, AnswersBatch, AnswersFault, AnswersQuiet, AnswersStop, IsFresh, left_after, ending_after};
ghost use Rattle.opt_core.specs.inside.Offers.{IsOffered, AllAppliedAt};

use crate::entries::Entries;
use crate::event::{Ending, Event, Reply, Rest};
use crate::shares::{are_all_quiet, empty, task_from};
use gp_memory::NoMemory;
use opt_system::{Mode, System, Verdict};
use std::alloc::Global;
use std::marker::Model;
use std::snapshot::Snapshot;

/// The core of one goal: the matches that were committed since the goal began, and whether and how it ended.
/// Every value of this type is legal.
#[derive(Drop)]
pub struct Core<S: System> {
    system: Snapshot<S>,
    base: Snapshot<S::State>,
    goal: S::Goal,
    given: u64,
    state: S::State,
    entries: Vec<S::Found>,
    quiet: Vec<bool>,
    left: u64,
    ending: Option<Ending<S::Reason>>,
}

impl<S: System> Model for Core<S> {
    ghost use Rattle.opt_core.specs.Core.{Core as Data, IsLegal};

    ghost Value = { Data S S.State S.Found S.Goal S.Reason };

    ghost view = { λ c. record { system = c.system.value; base = c.base.value; goal = c.goal; given = c.given; state = c.state; entries = c.entries.items; quiet = c.quiet.items; left = c.left; ending = c.ending } };

    ghost invariant = { λ c. IsLegal (S.means c.system.value) c.goal c.base.value c.state c.entries.items c.quiet.items c.given c.left c.ending };
}

impl<S: System> Core<S> {
    /// A core with no entries, no quiet share, no ending and `left` items. For want of memory the state comes back.
    pub fn start(
        alloc: Global,
        s: &S,
        base: S::State,
        goal: S::Goal,
        left: u64,
    ) -> Result<Core<S>, S::State>
        ensures ok { IfOk result (λ c. IsFresh (S.means s.now) c s.now base goal left) }
        ensures legal { IfOk result (Legal (S.means s.now)) }
        ensures err { IfErr result (λ b. b ≡ base) }
    {
        let shares = s.shares(goal) as usize;
        let Ok(quiet) = Vec::from_elem(alloc, false, shares) else {
            return Err(base);
        };
        Ok(Core {
            system: Snapshot::of(s),
            base: Snapshot::of(&base),
            goal,
            given: left,
            state: base,
            entries: Vec::new(alloc),
            quiet,
            left,
            ending: None,
        })
    }

    /// Takes one event, whose condition holds, and answers it. It takes no memory for `Quiet` and `Stop`.
    pub fn step(&mut self, s: &S, event: Event<S::Found>) -> Reply<S::Found, S::Reason>
        requires system { s.now ≡ self.old.system }
        requires event { MayCome (S.means s.now) self.old event }
        ensures answers { Answers (S.means s.now) self.old event result self.new }
        ensures start { SameStart self.old self.new }
        ensures legal { Legal (S.means self.new.system) self.new }
    {
        if let Some(ending) = self.ending {
            return Reply::Closed(ending);
        }
        let reply = match event {
            Event::Look { told, from } => self.look(s, told, from),
            Event::Offer { told, found } => self.offer(s, told, found),
            Event::Batch { told, founds } => self.batch(s, told, founds),
            Event::Fault { told, found } => self.fault(s, told, &found),
            Event::Quiet { told, share } => self.quieten(told, share),
            Event::Stop => self.stop(),
        };
        // Reads the core once more, so that what its type says is known of it as it is left.
        let _ = &self.left;
        reply
    }

    /// How the goal ended, if it did.
    pub fn ending(&self) -> Option<Ending<S::Reason>>
        ensures value { result ≡ self.now.ending }
        ensures legal { Legal (S.means self.now.system) self.now }
    {
        self.ending
    }

    /// The goal that the core was started with.
    pub fn goal(&self) -> S::Goal
        ensures { result ≡ self.now.goal }
    {
        self.goal
    }

    /// The state, the entries, the items left and the ending.
    pub fn into_parts(self) -> (S::State, Vec<S::Found>, u64, Option<Ending<S::Reason>>)
        ensures state { result.0 ≡ self.state }
        ensures entries { result.1.items ≡ self.entries }
        ensures left { result.2 ≡ self.left }
        ensures ending { result.3 ≡ self.ending }
        ensures legal { Legal (S.means self.system) self }
    {
        let Core {
            system: _,
            base: _,
            goal: _,
            given: _,
            state,
            entries,
            quiet: _,
            left,
            ending,
        } = self;
        (state, entries, left, ending)
    }
}

impl<S: System> Core<S> {
    fn look(&self, s: &S, told: u64, from: u32) -> Reply<S::Found, S::Reason>
        requires system { s.now ≡ self.now.system }
        requires running { self.now.ending ≡ None }
        requires told { told ≤ length self.now.entries }
        ensures { AnswersLook (S.means s.now) self.now told from result self.now }
    {
        let Ok(entries) = copies(s, *self.entries.allocator(), &self.entries, told as usize) else {
            return Reply::NoMemory;
        };
        match task_from(&self.quiet, from) {
            Some(task) => Reply::News { entries, task },
            None => unreachable!(),
        }
    }

    fn offer(&mut self, s: &S, told: u64, found: S::Found) -> Reply<S::Found, S::Reason>
        requires system { s.now ≡ self.old.system }
        requires running { self.old.ending ≡ None }
        requires told { told ≤ length self.old.entries }
        requires applied { (S.means s.now).judged self.old.goal (at_first (S.means s.now) self.old told) found ≡ applies }
        ensures { AnswersOffer (S.means s.now) self.old told found result self.new }
    {
        match s.check(self.goal, &self.state, &found) {
            Verdict::NoMemory => Reply::NoMemory,
            Verdict::Applies => {
                if self.left == 0 {
                    self.ending = Some(Ending::Bound);
                    return Reply::Closed(Ending::Bound);
                }
                if self.entries.reserve(1).is_err() {
                    return Reply::NoMemory;
                }
                let Ok(()) = s.apply(&mut self.state, &found) else {
                    return Reply::NoMemory;
                };
                let place = self.entries.len() as u64;
                self.entries.push_reserved(found);
                empty(&mut self.quiet);
                let (left, ending) = after_commit(s.mode(self.goal), self.left);
                self.left = left;
                self.ending = ending;
                Reply::Committed(place)
            }
            _ => Reply::Stale(self.entries.len() as u64),
        }
    }

    // One match of a batch: nothing where it is committed, else what it is answered.
    fn offer_next(&mut self, s: &S, told: u64, found: S::Found) -> Option<Rest<S::Reason>>
        requires system { s.now ≡ self.old.system }
        requires told { told ≤ length self.old.entries }
        requires applied { (S.means s.now).judged self.old.goal (at_first (S.means s.now) self.old told) found ≡ applies }
        ensures { IsOffered (S.means s.now) self.old told found result self.new }
    {
        if let Some(ending) = self.ending {
            return Some(Rest::Closed(ending));
        }
        match self.offer(s, told, found) {
            Reply::Committed(_) => None,
            Reply::Stale(count) => Some(Rest::Stale(count)),
            Reply::Closed(ending) => Some(Rest::Closed(ending)),
            Reply::NoMemory => Some(Rest::NoMemory),
            Reply::News { .. } | Reply::Batched(..) | Reply::Noted => unreachable!(),
        }
    }

    fn batch(&mut self, s: &S, told: u64, founds: Entries<S::Found>) -> Reply<S::Found, S::Reason>
        requires system { s.now ≡ self.old.system }
        requires told { told ≤ length self.old.entries }
        requires applied { AllAppliedAt (S.means s.now) self.old told founds }
        ensures answers { AnswersBatch (S.means s.now) self.old told founds result self.new }
        ensures start { SameStart self.old self.new }
    {
        let place = self.entries.len() as u64;
        for found in founds.into_vec() {
            if let Some(rest) = self.offer_next(s, told, found) {
                return Reply::Batched(place, self.entries.len() as u64 - place, Some(rest));
            }
        }
        Reply::Batched(place, self.entries.len() as u64 - place, None)
    }

    fn fault(&mut self, s: &S, told: u64, found: &S::Found) -> Reply<S::Found, S::Reason>
        requires system { s.now ≡ self.old.system }
        requires running { self.old.ending ≡ None }
        requires told { told ≤ length self.old.entries }
        requires faulty { (r : S.Reason) × ((S.means s.now).judged self.old.goal (at_first (S.means s.now) self.old told) found.now ≡ faulty r) }
        ensures { AnswersFault (S.means s.now) self.old told found.now result self.new }
    {
        match s.check(self.goal, &self.state, found) {
            Verdict::NoMemory => Reply::NoMemory,
            Verdict::Faulty(reason) => {
                self.ending = Some(Ending::Fault(reason));
                Reply::Closed(Ending::Fault(reason))
            }
            Verdict::Applies | Verdict::No => Reply::Stale(self.entries.len() as u64),
        }
    }

    fn quieten(&mut self, told: u64, share: u32) -> Reply<S::Found, S::Reason>
        requires running { self.old.ending ≡ None }
        requires told { told ≤ length self.old.entries }
        requires share { share < length self.old.quiet }
        requires barren { Barren (S.means self.old.system) self.old.goal share (at_first (S.means self.old.system) self.old told) }
        ensures { AnswersQuiet (S.means self.old.system) self.old told share result self.new }
    {
        let count = self.entries.len() as u64;
        if told < count {
            return Reply::Stale(count);
        }
        self.quiet[share as usize] = true;
        if are_all_quiet(&self.quiet) {
            self.ending = Some(Ending::Blocked);
            return Reply::Closed(Ending::Blocked);
        }
        Reply::Noted
    }

    fn stop(&mut self) -> Reply<S::Found, S::Reason>
        requires { self.old.ending ≡ None }
        ensures { AnswersStop (S.means self.old.system) self.old result self.new }
    {
        self.ending = Some(Ending::Stopped);
        Reply::Closed(Ending::Stopped)
    }
}

// The items left and the ending after a commit.
fn after_commit<R: Copy>(mode: Mode, left: u64) -> (u64, Option<Ending<R>>)
    requires { 0 < left }
    ensures left { result.0 ≡ left_after mode left }
    ensures ending { result.1 ≡ ending_after mode left }
{
    match mode {
        Mode::Once => (left - 1, Some(Ending::Committed)),
        Mode::Saturate => {
            if left == 1 {
                (0, Some(Ending::Bound))
            } else {
                (left - 2, None)
            }
        }
    }
}

// The entries past the first `told`, copied.
fn copies<S: System>(
    s: &S,
    alloc: Global,
    entries: &Vec<S::Found>,
    told: usize,
) -> Result<Entries<S::Found>, NoMemory>
    requires { told ≤ length entries.now.items }
    ensures { IfOk result (λ es. es ≡ drop told entries.now.items) }
{
    let mut all = Entries::new(alloc);
    for i in told..entries.len() {
        all.push(s.copy(&entries[i])?)?;
    }
    Ok(all)
}
