//! Ranks of procedures: those that reach each other have one rank, and every other call goes down (Tarjan 1972,
//! "Depth-first search and linear graph algorithms"). Contracts say nothing of the ranks but how many they are: whoever
//! uses them tests them.

ghost use Rattle.std.specs.Prelude.{◌≡◌, length, IfOk, OnOk};

use gp_memory::NoMemory;
use gp_syntax::Items;
use std::alloc::Global;

// What a walk in depth has found, with 0 for none: when each procedure was met, the earliest one that it leads back to,
// and the rank of those that are done; those that wait for a rank; and the way to where the walk is, with how many calls
// of each were followed.
struct Walk {
    met: Vec<u64>,
    earliest: Vec<u64>,
    ranks: Vec<u64>,
    waiting: Vec<usize>,
    path: Vec<(usize, usize)>,
    clock: u64,
    rank: u64,
}

impl Drop for Walk {
    fn drop(self) {
        let Walk {
            met,
            earliest,
            ranks,
            waiting,
            path,
            clock: _,
            rank: _,
        } = self;
        drop(met);
        drop(earliest);
        drop(ranks);
        drop(waiting);
        drop(path);
    }
}

impl Walk {
    // Before the first step, over so many procedures.
    fn new(alloc: Global, count: usize) -> Result<Walk, NoMemory>
        ensures { IfOk result (λ w. length w.ranks.items ≡ count) }
    {
        let met = vec![in alloc; 0; count]?;
        let earliest = vec![in alloc; 0; count]?;
        let ranks = vec![in alloc; 0; count]?;
        Ok(Walk {
            met,
            earliest,
            ranks,
            waiting: Vec::new(alloc),
            path: Vec::new(alloc),
            clock: 0,
            rank: 0,
        })
    }

    fn into_ranks(self) -> Vec<u64>
        ensures { result ≡ self.ranks }
    {
        let Walk {
            met: _,
            earliest: _,
            ranks,
            waiting: _,
            path: _,
            clock: _,
            rank: _,
        } = self;
        ranks
    }
}

/// The rank of each procedure.
pub(crate) fn components(alloc: Global, callees: &[Items<u32>]) -> Result<Vec<u64>, NoMemory>
    ensures { IfOk result (λ v. length v.items ≡ length callees.now) }
{
    let count = callees.len();
    let mut walk = Walk::new(alloc, count)?;
    for root in 0..count {
        walk_from(callees, root, &mut walk)?;
    }
    Ok(walk.into_ranks())
}

fn number_at(numbers: &[u64], place: usize) -> u64 {
    if place < numbers.len() {
        numbers[place]
    } else {
        0
    }
}

fn put_at(numbers: &mut [u64], place: usize, number: u64) {
    if place < numbers.len() {
        numbers[place] = number;
    }
}

// Lowers the number of a place to another one.
fn lower_at(numbers: &mut [u64], place: usize, number: u64) {
    if number < number_at(numbers, place) {
        put_at(numbers, place, number);
    }
}

// The callee of this number, if there is one.
fn callee_at(callees: &[Items<u32>], place: usize, number: usize) -> Option<usize> {
    if place >= callees.len() {
        return None;
    }
    let called = callees[place].as_slice();
    if number < called.len() {
        Some(called[number] as usize)
    } else {
        None
    }
}

// Walks to all that are not met yet.
fn walk_from(callees: &[Items<u32>], root: usize, walk: &mut Walk) -> Result<(), NoMemory>
    ensures { OnOk result (length walk.new.ranks.items ≡ length walk.old.ranks.items) }
{
    if number_at(&walk.met, root) > 0 {
        return Ok(());
    }
    enter(root, walk)?;
    for _ in 0..u64::MAX {
        let Some((at, followed)) = walk.path.pop() else {
            break;
        };
        match callee_at(callees, at, followed) {
            Some(callee) => follow(at, followed, callee, walk)?,
            None => leave(at, walk),
        }
    }
    Ok(())
}

fn enter(place: usize, walk: &mut Walk) -> Result<(), NoMemory>
    ensures { OnOk result (length walk.new.ranks.items ≡ length walk.old.ranks.items) }
{
    walk.clock = walk.clock.saturating_add(1);
    put_at(&mut walk.met, place, walk.clock);
    put_at(&mut walk.earliest, place, walk.clock);
    walk.waiting.push(place)?;
    walk.path.push((place, 0))?;
    Ok(())
}

// Follows one call.
fn follow(at: usize, followed: usize, callee: usize, walk: &mut Walk) -> Result<(), NoMemory>
    ensures { OnOk result (length walk.new.ranks.items ≡ length walk.old.ranks.items) }
{
    walk.path.push((at, followed.saturating_add(1)))?;
    let met = number_at(&walk.met, callee);
    if met == 0 {
        return enter(callee, walk);
    }
    if number_at(&walk.ranks, callee) == 0 {
        lower_at(&mut walk.earliest, at, met);
    }
    Ok(())
}

// Goes back: where nothing leads back to before it, those that wait from it on are one component.
fn leave(place: usize, walk: &mut Walk)
    ensures { length walk.new.ranks.items ≡ length walk.old.ranks.items }
{
    let earliest = number_at(&walk.earliest, place);
    if earliest == number_at(&walk.met, place) {
        walk.rank = walk.rank.saturating_add(1);
        rank_waiting(place, walk);
    }
    if let Some((caller, _)) = walk.path.last() {
        let caller = *caller;
        lower_at(&mut walk.earliest, caller, earliest);
    }
}

fn rank_waiting(place: usize, walk: &mut Walk)
    ensures { length walk.new.ranks.items ≡ length walk.old.ranks.items }
{
    while let Some(done) = walk.waiting.pop() {
        put_at(&mut walk.ranks, done, walk.rank);
        if done == place {
            return;
        }
    }
}
