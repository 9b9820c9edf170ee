//! What a loop has reached.

ghost use Rattle.std.specs.Prelude.{◌≡◌, ◌↔◌, [], ℕ, IfOk, OnOk, IfSome, IfNone, Contains};
ghost use Rattle.gp_certify.specs.inside.Grows.{Grows, Has, IsTaken};

use crate::end::End;
use gp_memory::NoMemory;
use std::alloc::Global;
use std::collections::BTreeSet;

/// The places at which turns of a loop may begin that are still to be looked at, and the ends that were found.
#[derive(Drop)]
pub(crate) struct Reached {
    pub(crate) starts: BTreeSet<usize>,
    pub(crate) ends: Vec<End>,
}

/// One place at which a turn may begin.
pub(crate) fn reached_first(alloc: Global, place: usize) -> Result<Reached, NoMemory>
    ensures starts { IfOk result (λ r. (k : ℕ) → Has r.starts k ↔ (k ≡ place)) }
    ensures ends { IfOk result (λ r. r.ends.items ≡ []) }
{
    let mut starts = BTreeSet::new(alloc);
    match starts.insert(place) {
        Ok(_) => Ok(Reached {
            starts,
            ends: Vec::new(alloc),
        }),
        Err(_) => Err(NoMemory),
    }
}

/// The least place, which is taken out.
pub(crate) fn take_least(starts: &mut BTreeSet<usize>) -> Option<usize>
    ensures some { IfSome result (IsTaken starts.old starts.new) }
    ensures none { IfNone result ((k : ℕ) → Has starts.old k → ⊥) }
{
    starts.pop_first()
}

/// Puts a place in.
pub(crate) fn put_start(starts: &mut BTreeSet<usize>, place: usize) -> Result<(), NoMemory>
    ensures { OnOk result (Grows (Has starts.old) (Has starts.new) (λ k. k ≡ place)) }
{
    match starts.insert(place) {
        Ok(_) => Ok(()),
        Err(_) => Err(NoMemory),
    }
}

/// Puts an end in, once.
pub(crate) fn put_end(ends: &mut Vec<End>, end: End) -> Result<(), NoMemory>
    ensures { OnOk result (Grows (Contains ends.old.items) (Contains ends.new.items) (λ e. e ≡ end)) }
{
    if !ends.contains(&end) {
        ends.push(end)?;
    }
    Ok(())
}

/// Puts more ends in.
pub(crate) fn put_ends(ends: &mut Vec<End>, more: &[End]) -> Result<(), NoMemory>
    ensures { OnOk result (Grows (Contains ends.old.items) (Contains ends.new.items) (Contains more.now)) }
{
    'more: for end in more {
        put_end(ends, *end)?;
    }
    Ok(())
}
