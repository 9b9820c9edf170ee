//! Workers over Cells: one alone, by how many matches it may offer in one turn, and one that is stopped by hand while it is
//! held in its search.

ghost use Rattle.std.specs.Prelude.{◌≡◌};
ghost use Rattle.opt_gate.specs.Pass.{IsPassOf, start_of};

use super::answers::Answer;
use super::spelled::{put_core, put_founds};
use super::starting::{opened, opened_for, true_cells};
use gp_memory::NoMemory;
use opt_cells::{Cells, CellsGoal};
use opt_gate::{Ask, Gate, Pass};
use opt_system::Mode;
use opt_worker::{Commits, Free, Pace, Site, job_may_be_taken, work};
use std::alloc::Global;
use std::sync::Wait;
use std::sync::atomic::{AtomicBool, Ordering};
use std::test::Fail;
use std::thread;
use std::thread::Threads;

#[test]
fn a_worker_alone_commits_each_place_and_finds_no_more(rt: HostRuntime) -> Result<(), Fail> {
    let at = true_cells(rt.alloc(), 3)?;
    let (gate, pass) = opened(rt.alloc(), 3, 10, 1)?;
    let job = (pass, at);
    job_may_be_taken::<Cells>(&job);
    let (pass, mut at) = job;
    let site = Site {
        system: &Cells,
        gate: &gate,
        pace: &Free,
    };
    let pass = work(&rt, &site, pass, &mut at, 1);
    let mut told = Answer::new(rt.alloc());
    put_founds::<Cells>(at.taken(), &mut told);
    put_core(gate.close(&rt, pass), &mut told);
    told.expect("[0, 2, 1][0, 2, 1] 4 blocked")
}

// The mode, the items, and the most matches of a turn; and what a worker alone leaves of eight true cells in one share:
// how many turns committed, the entries, the items left and the ending.
const BY_BATCH: [(Mode, u64, u32, &str); 7] = [
    (
        Mode::Saturate,
        100,
        0,
        "8 by [0, 1, 2, 3, 4, 5, 6, 7] 84 blocked",
    ),
    (
        Mode::Saturate,
        100,
        1,
        "8 by [0, 1, 2, 3, 4, 5, 6, 7] 84 blocked",
    ),
    (
        Mode::Saturate,
        100,
        3,
        "3 by [0, 1, 2, 3, 4, 5, 6, 7] 84 blocked",
    ),
    (
        Mode::Saturate,
        100,
        8,
        "1 by [0, 1, 2, 3, 4, 5, 6, 7] 84 blocked",
    ),
    // the goal ends in the midst of a batch, and before one
    (Mode::Saturate, 5, 8, "1 by [0, 1, 2] 0 bound"),
    (Mode::Saturate, 0, 8, "0 by [] 0 bound"),
    // a goal of one match gets no batch
    (Mode::Once, 100, 8, "1 by [0] 99 committed"),
];

// What is told of a worker alone.
fn told_by_batch<R: Wait>(
    rt: &R,
    alloc: Global,
    mode: Mode,
    items: u64,
    batch: u32,
) -> Result<Answer, NoMemory> {
    let mut told = Answer::new(alloc);
    let mut at = true_cells(alloc, 8)?;
    let (gate, pass) = opened_for(alloc, CellsGoal { mode, shares: 1 }, 8, items, 1)?;
    let pace = Commits::new();
    let site = Site {
        system: &Cells,
        gate: &gate,
        pace: &pace,
    };
    let pass = work(rt, &site, pass, &mut at, batch);
    told.put_number(pace.count());
    told.put(" by ");
    put_core(gate.close(rt, pass), &mut told);
    Ok(told)
}

#[test]
fn a_worker_commits_as_many_in_a_turn_as_it_may(rt: HostRuntime) -> Result<(), Fail> {
    for (mode, items, batch, wanted) in &BY_BATCH {
        told_by_batch(&rt, rt.alloc(), *mode, *items, *batch)?.expect(wanted)?;
    }
    Ok(())
}

// Looks at the flag for a long while. Whether it was set.
fn was_set(flag: &AtomicBool) -> bool {
    for _ in 0..100_000_000u64 {
        if flag.load(Ordering::SeqCst) {
            return true;
        }
        thread::yield_now();
    }
    false
}

// Holds a worker in its search until the goal was stopped. Whether either waited in vain is told.
#[derive(Drop)]
struct UntilStopped {
    searched: AtomicBool,
    stopped: AtomicBool,
    is_late: AtomicBool,
}

impl UntilStopped {
    // Waits until the flag is set.
    fn wait_for(&self, flag: &AtomicBool) {
        if !was_set(flag) {
            self.is_late.store(true, Ordering::SeqCst);
        }
    }
}

impl Pace for UntilStopped {
    fn searched(&self, _rt: &impl Wait, _worker: u32, _told: u64) {
        self.searched.store(true, Ordering::SeqCst);
        self.wait_for(&self.stopped);
    }

    fn turned(&self, _rt: &impl Wait, _worker: u32, _told: u64, _committed: bool) {}
}

// Sends Stop once the worker was in its search, and lets it go on then.
fn stop_by_hand<R: Wait>(
    rt: &R,
    s: &Cells,
    gate: &Gate<Cells>,
    mut pass: Pass<Cells>,
    pace: &UntilStopped,
) -> Pass<Cells>
    requires gate { IsPassOf gate.now pass }
    requires system { s.now ≡ (start_of gate.now).system }
    ensures { IsPassOf gate.now result }
{
    pace.wait_for(&pace.searched);
    gate.turn(rt, &mut pass, s, Ask::Stop);
    pace.stopped.store(true, Ordering::SeqCst);
    pass
}

// What the core is where a worker on two true cells is stopped by hand.
fn stopped_in_search<R: Threads + Wait + Sync>(rt: &R, alloc: Global) -> Result<Answer, NoMemory> {
    let mut told = Answer::new(alloc);
    let mut at = true_cells(alloc, 2)?;
    let (gate, mut p) = opened(alloc, 2, 10, 2)?;
    let q = p.split(&gate, 1);
    let pace = UntilStopped {
        searched: AtomicBool::new(false),
        stopped: AtomicBool::new(false),
        is_late: AtomicBool::new(false),
    };
    let (door, held) = (&gate, &pace);
    let (mut p, q) = thread::join(
        rt,
        move || {
            let site = Site {
                system: &Cells,
                gate: door,
                pace: held,
            };
            work(rt, &site, p, &mut at, 1)
        },
        move || stop_by_hand(rt, &Cells, door, q, held),
    );
    p.join(&gate, q);
    put_core(gate.close(rt, p), &mut told);
    if !pace.is_late.load(Ordering::SeqCst) {
        told.put(", in time");
    }
    Ok(told)
}

#[test]
fn a_stop_by_hand_ends_a_worker_that_is_held_in_its_search(rt: HostRuntime) -> Result<(), Fail> {
    stopped_in_search(&rt, rt.alloc())?.expect("[] 10 stopped, in time")
}
