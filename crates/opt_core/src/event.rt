//! What a core is told and what it answers.

use crate::entries::Entries;

/// How a goal ended.
#[derive(Clone, Copy)]
pub enum Ending<R> {
    /// A goal of one match has it.
    Committed,
    /// No match of the goal applies or is faulty.
    Blocked,
    /// No item is left for what has to be done next.
    Bound,
    /// A match of the goal is faulty, for this reason.
    Fault(R),
    /// A sender stopped it.
    Stopped,
}

/// What a sender asks or reports. `told` is the number of entries that were handed to it.
#[derive(Drop)]
pub enum Event<F> {
    /// Asks for the entries past `told`, and for a share to search, from `from` on.
    Look { told: u64, from: u32 },
    /// A match that applied at the first `told` entries.
    Offer { told: u64, found: F },
    /// Some matches for a goal whose matches are taken until none is left: at the first `told` entries each applied, and any
    /// two were independent.
    Batch { told: u64, founds: Entries<F> },
    /// A match that was faulty at the first `told` entries.
    Fault { told: u64, found: F },
    /// A share that was barren at the first `told` entries.
    Quiet { told: u64, share: u32 },
    /// Ends the goal.
    Stop,
}

/// Why a batch was not committed whole: what the first match that was not committed was answered.
#[derive(Clone, Copy)]
pub enum Rest<R> {
    /// It does not apply any more: there are so many entries, more than the sender was told of.
    Stale(u64),
    /// The goal has ended.
    Closed(Ending<R>),
    /// Memory was refused, and nothing changed since the matches before it were committed.
    NoMemory,
}

/// What a core answers.
#[derive(Drop)]
pub enum Reply<F, R> {
    /// The entries past `told`, and a share that is not quiet.
    News { entries: Entries<F>, task: u32 },
    /// The offered match is the entry with this number, from 0.
    Committed(u64),
    /// The first matches of the batch, so many, are the entries from this number on. It tells why they are not all.
    Batched(u64, u64, Option<Rest<R>>),
    /// The report does not hold any more: there are so many entries, more than the sender was told of.
    Stale(u64),
    /// The share is quiet.
    Noted,
    /// The goal has ended.
    Closed(Ending<R>),
    /// Memory was refused, and nothing changed.
    NoMemory,
}
