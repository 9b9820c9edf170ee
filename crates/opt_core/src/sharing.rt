//! That threads may take and share a core, its events and its answers, shown for every system whose parts allow it.

use crate::entries::Entries;
use crate::event::{Ending, Event, Reply};
use crate::machine::Core;
use opt_system::System;

fn may_be_taken<T: Send>(_value: &T) {}

fn may_be_shared<T: Sync>(_value: &T) {}

/// A thread may take a core.
pub fn core_may_be_taken<S: System>(core: &Core<S>)
where
    S::State: Send,
    S::Found: Send,
    S::Goal: Send,
    S::Reason: Send,
{
    may_be_taken(core);
}

/// Threads may share a core.
pub fn core_may_be_shared<S: System>(core: &Core<S>)
where
    S::State: Sync,
    S::Found: Sync,
    S::Goal: Sync,
    S::Reason: Sync,
{
    may_be_shared(core);
}

/// A thread may take an event.
pub fn event_may_be_taken<F: Send>(event: &Event<F>) {
    may_be_taken(event);
}

/// A thread may take an answer, with its entries and its ending.
pub fn reply_may_be_taken<F: Send, R: Send>(reply: &Reply<F, R>) {
    may_be_taken(reply);
}

/// A thread may take entries.
pub fn entries_may_be_taken<F: Send>(entries: &Entries<F>) {
    may_be_taken(entries);
}

/// A thread may take an ending.
pub fn ending_may_be_taken<R: Send>(ending: &Ending<R>) {
    may_be_taken(ending);
}
