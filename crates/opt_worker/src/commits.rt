//! A pace that counts.

use crate::pace::Pace;
use std::sync::Wait;
use std::sync::atomic::{AtomicU64, Ordering};

/// Holds nobody, and counts the turns that committed a match.
#[derive(Drop)]
pub struct Commits {
    count: AtomicU64,
}

impl Commits {
    /// None yet.
    pub fn new() -> Commits {
        Commits {
            count: AtomicU64::new(0),
        }
    }

    /// How many turns committed.
    pub fn count(&self) -> u64 {
        self.count.load(Ordering::SeqCst)
    }
}

impl Pace for Commits {
    fn searched(&self, _rt: &impl Wait, _worker: u32, _told: u64) {}

    fn turned(&self, _rt: &impl Wait, _worker: u32, _told: u64, committed: bool) {
        if committed {
            self.count.fetch_add(1, Ordering::SeqCst);
        }
    }
}
