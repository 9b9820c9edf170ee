//! That threads may take matches, inverses, trails and journals, and share trails.

use crate::items::Items;
use crate::journal::Journal;
use crate::trail::Trail;
use gp_step::Undo;
use gp_syntax::Found;

fn may_be_taken<T: Send>(_value: &T) {}

fn may_be_shared<T: Sync>(_value: &T) {}

/// A thread may take a match.
pub fn found_may_be_taken(found: &Found) {
    may_be_taken(found);
}

/// A thread may take what takes a step back.
pub fn undo_may_be_taken(undo: &Undo) {
    may_be_taken(undo);
}

/// A thread may take a trail.
pub fn trail_may_be_taken(trail: &Trail) {
    may_be_taken(trail);
}

/// Threads may share a trail.
pub fn trail_may_be_shared(trail: &Trail) {
    may_be_shared(trail);
}

/// A thread may take a journal, and its items.
pub fn journal_may_be_taken(journal: &Journal, items: &Items) {
    may_be_taken(journal);
    may_be_taken(items);
}
