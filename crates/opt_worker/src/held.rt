//! A pace that holds two workers to an order.

use crate::pace::Pace;
use std::sync::Wait;
use std::sync::atomic::{AtomicBool, AtomicU64, Ordering};
use std::thread;

/// Holds worker 0 in its searches until worker 1 has committed, and worker 1 in its searches until worker 0 searches too,
/// so that the two search at the same time. It holds them for so many looks: where these are spent, they did not.
#[derive(Drop)]
pub struct Held {
    looks: u64,
    zero_searched: AtomicBool,
    one_searched: AtomicBool,
    one_committed: AtomicBool,
    late: AtomicBool,
    // Of the first report of worker 0: 1 where it committed, else 2.
    first_of_zero: AtomicU64,
}

impl Held {
    /// Nobody has searched yet.
    pub fn new(looks: u64) -> Held {
        Held {
            looks,
            zero_searched: AtomicBool::new(false),
            one_searched: AtomicBool::new(false),
            one_committed: AtomicBool::new(false),
            late: AtomicBool::new(false),
            first_of_zero: AtomicU64::new(0),
        }
    }

    /// Whether the looks were spent: the two did not search at the same time.
    pub fn was_late(&self) -> bool {
        self.late.load(Ordering::SeqCst)
    }

    /// Whether a search of each of the two was heard of, and they searched at the same time.
    pub fn met(&self) -> bool {
        let zero = self.zero_searched.load(Ordering::SeqCst);
        let one = self.one_searched.load(Ordering::SeqCst);
        zero && one && !self.was_late()
    }

    /// Whether no search was heard of.
    pub fn is_untold(&self) -> bool {
        let zero = self.zero_searched.load(Ordering::SeqCst);
        let one = self.one_searched.load(Ordering::SeqCst);
        !zero && !one
    }

    /// Whether the first report of worker 0 committed a match.
    pub fn first_of_zero(&self) -> Option<bool> {
        match self.first_of_zero.load(Ordering::SeqCst) {
            0 => None,
            first => Some(first == 1),
        }
    }

    fn wait_for(&self, flag: &AtomicBool) {
        for _ in 0..self.looks {
            if flag.load(Ordering::SeqCst) {
                return;
            }
            thread::yield_now();
        }
        self.late.store(true, Ordering::SeqCst);
    }
}

impl Pace for Held {
    fn searched(&self, _rt: &impl Wait, worker: u32, _told: u64) {
        if worker == 0 {
            self.zero_searched.store(true, Ordering::SeqCst);
            self.wait_for(&self.one_committed);
        } else {
            self.one_searched.store(true, Ordering::SeqCst);
            self.wait_for(&self.zero_searched);
        }
    }

    fn turned(&self, _rt: &impl Wait, worker: u32, _told: u64, committed: bool) {
        if worker == 1 && committed {
            self.one_committed.store(true, Ordering::SeqCst);
        }
        if worker == 0 && self.first_of_zero.load(Ordering::SeqCst) == 0 {
            let first = if committed { 1 } else { 2 };
            self.first_of_zero.store(first, Ordering::SeqCst);
        }
    }
}
