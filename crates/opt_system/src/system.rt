//! The trait of systems.

ghost use Rattle.std.specs.Prelude.{◌≡◌, ◌<◌, ◌≤◌, OnOk, OnErr, IfOk};
ghost use Rattle.opt_system.specs.Meaning.{Meaning, IsLawful, applies, undone_by};
ghost use Rattle.opt_system.specs.Answers.{IsVerdictOf, IsSoughtIn};
ghost use Rattle.opt_system.specs.Batch.{AreHeld, IsFull, StartsWith};

use crate::answers::{Mode, Sought, Verdict};
use gp_memory::NoMemory;

/// A system of states, in which matches of goals apply.
///
/// Its meaning is plain data: what a match is in a state, the state after a step and with a step taken back, the shares of
/// a goal, and which matches are independent. Each call answers by it.
pub trait System {
    /// What steps change. It keeps what taking steps back needs.
    type State: Drop;
    /// A match: where a step may be made.
    type Found: Drop;
    /// What is searched for.
    type Goal: Copy;
    /// Why a match is faulty.
    type Reason: Copy;

    ghost means: { Self → Meaning Self.State Self.Found Self.Goal Self.Reason };

    /// What the match is for the goal in this state.
    fn check(
        &self,
        goal: Self::Goal,
        at: &Self::State,
        found: &Self::Found,
    ) -> Verdict<Self::Reason>
        ensures { IsVerdictOf result ((means self.now).judged goal at.now found.now) };

    /// Makes the step of a match that applies for some goal. Refused memory leaves the state as it was.
    fn apply(&self, at: &mut Self::State, found: &Self::Found) -> Result<(), NoMemory>
        requires { (goal : Self.Goal) × ((means self.now).judged goal at.old found.now ≡ applies) }
        ensures ok { OnOk result (at.new ≡ (means self.now).after at.old found.now) }
        ensures err { OnErr result (at.new ≡ at.old) };

    /// Takes back the last `k` steps, which are at most the state's depth. It takes no memory.
    fn back(&self, at: &mut Self::State, k: u64)
        requires { k ≤ (means self.now).depth at.old }
        ensures { at.new ≡ undone_by (means self.now) k at.old };

    /// A match of this share of the goal that applies or is faulty, or that there is none.
    fn seek(
        &self,
        goal: Self::Goal,
        share: u32,
        at: &Self::State,
    ) -> Sought<Self::Found, Self::Reason>
        requires { share < (means self.now).shares goal }
        ensures { IsSoughtIn (means self.now) goal share at.now result };

    /// Further matches of this share, behind those that are held: all apply in this state, and any two are independent. It
    /// stops where `limit` are held, or where no further one fits. Refused memory may leave some of them.
    fn more(
        &self,
        goal: Self::Goal,
        share: u32,
        at: &Self::State,
        held: &mut Vec<Self::Found>,
        limit: u32,
    ) -> Result<(), NoMemory>
        requires { AreHeld (means self.now) goal share at.now limit held.old.items }
        ensures held { AreHeld (means self.now) goal share at.now limit held.new.items }
        ensures first { StartsWith held.new.items held.old.items }
        ensures full { OnOk result (IsFull (means self.now) goal share at.now limit held.new.items) };

    /// The number of the goal's shares, at least 1.
    fn shares(&self, goal: Self::Goal) -> u32
        ensures { result ≡ (means self.now).shares goal };

    /// How often the goal's matches are taken.
    fn mode(&self, goal: Self::Goal) -> Mode
        ensures { result ≡ (means self.now).mode goal };

    /// An equal match.
    fn copy(&self, found: &Self::Found) -> Result<Self::Found, NoMemory>
        ensures { IfOk result (λ f. f ≡ found.now) };

    ghost lawful: { (it : Self) → IsLawful (means it) };
}
