//! What may hold workers, and hears of what they do.

use crate::commits::Commits;
use crate::held::Held;
use std::sync::Wait;

/// What is called as workers search and report. All workers share one value, and a call may wait. It answers nothing, so
/// no worker's answer depends on it.
pub trait Pace {
    /// After each search, outside any turn: the number of the worker's pass, and the number of entries that it was told.
    fn searched(&self, rt: &impl Wait, worker: u32, told: u64);

    /// After the turn of the report of that search. Whether it committed a match.
    fn turned(&self, rt: &impl Wait, worker: u32, told: u64, committed: bool);
}

/// The pace that holds nobody.
#[derive(Clone, Copy)]
pub struct Free;

impl Pace for Free {
    fn searched(&self, _rt: &impl Wait, _worker: u32, _told: u64) {}

    fn turned(&self, _rt: &impl Wait, _worker: u32, _told: u64, _committed: bool) {}
}

/// The paces that a program hands to its runs: one that holds nobody, one that holds two workers to an order, or one that
/// counts.
#[derive(Drop)]
pub enum Pacing {
    Free,
    Held(Held),
    Counted(Commits),
}

impl Pacing {
    /// What holds the workers, if there is such.
    pub fn held(&self) -> Option<&Held> {
        match self {
            Pacing::Held(held) => Some(held),
            Pacing::Free | Pacing::Counted(_) => None,
        }
    }

    /// How many turns committed a match, where that is counted.
    pub fn commits(&self) -> Option<u64> {
        match self {
            Pacing::Counted(commits) => Some(commits.count()),
            Pacing::Free | Pacing::Held(_) => None,
        }
    }
}

impl Pace for Pacing {
    fn searched(&self, rt: &impl Wait, worker: u32, told: u64) {
        match self {
            Pacing::Free => {}
            Pacing::Held(held) => held.searched(rt, worker, told),
            Pacing::Counted(commits) => commits.searched(rt, worker, told),
        }
    }

    fn turned(&self, rt: &impl Wait, worker: u32, told: u64, committed: bool) {
        match self {
            Pacing::Free => {}
            Pacing::Held(held) => held.turned(rt, worker, told, committed),
            Pacing::Counted(commits) => commits.turned(rt, worker, told, committed),
        }
    }
}
