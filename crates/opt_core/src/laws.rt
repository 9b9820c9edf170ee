//! What holds of every list of events. Each function does nothing: its contract is the law, over the definitions
//! that `Core::start` and `Core::step` cite.

ghost use Rattle.opt_core.specs.Runs.{EveryRunIsSound, EveryRunFromStart, BaseIsBack, LateOffersAreSteps, ToldBatchesAreNotStale};

use opt_system::System;

/// Whatever events come, in whatever order, from any number of senders who were told of any number of entries: where the
/// condition of each holds, the core stays legal and each answer is true.
pub fn every_run_is_sound<S: System>()
    ensures legal_core { (s : S) → EveryRunIsSound S (S.means s) }
    ensures from_start { (s : S) → EveryRunFromStart S (S.means s) }
{}

/// The base of a legal core is its state with all entries taken back.
pub fn base_is_the_state_taken_back<S: System>()
    ensures { (s : S) → BaseIsBack S (S.means s) }
{}

/// A commit is a step from the state that the entries before it reach, however few of them its search saw.
pub fn a_late_offer_commits_a_step<S: System>()
    ensures { (s : S) → LateOffersAreSteps S (S.means s) }
{}

/// Where the entries are just those that its sender was told of, no match of a batch is answered that it does not apply any
/// more: independent matches apply after one another.
pub fn a_told_batch_is_not_stale<S: System>()
    ensures { (s : S) → ToldBatchesAreNotStale S (S.means s) }
{}
