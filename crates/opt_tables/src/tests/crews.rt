//! Crews over Cells: orders that a pace forces, and many workers at the same time.

mod on_rules;

use super::answers::Answer;
use super::spelled::word_of;
use super::starting::{core_of, opened, rows, true_cells};
use gp_memory::NoMemory;
use opt_cells::{CellRow, Cells, CellsGoal};
use opt_core::Core;
use opt_system::Mode;
use opt_worker::{Free, Held, Pace, Site, pursue, work_on};
use std::alloc::Global;
use std::sync::Wait;
use std::test::Fail;
use std::thread::Threads;

// Whether the entries are each place below the number, once.
fn are_each_once(entries: &[usize], count: usize) -> bool {
    for place in 0..count {
        if !entries.contains(&place) {
            return false;
        }
    }
    entries.len() == count
}

// Whether each replica made the steps of a beginning of the entries.
fn are_beginnings(entries: &[usize], replicas: &[CellRow]) -> bool {
    for row in replicas {
        if !entries.starts_with(row.taken()) {
            return false;
        }
    }
    true
}

// Tells what a crew of so many workers left of so many cells: the entries, the items left, the ending and the replicas.
fn put_left(
    core: Core<Cells>,
    replicas: &[CellRow],
    workers: u32,
    count: usize,
    told: &mut Answer,
) {
    let (_, entries, items, ending) = core.into_parts();
    told.put_number(entries.len() as u64);
    told.put(if are_each_once(&entries, count) {
        " of all, "
    } else {
        " of more, "
    });
    told.put_number(items);
    told.put(" left, ");
    told.put(word_of(ending.as_ref()));
    if replicas.len() == workers as usize && are_beginnings(&entries, replicas) {
        told.put(", all follow");
    }
}

// What is told of a crew of so many workers, with as many shares and so many matches of a turn, that pursues a goal on so
// many true cells.
fn pursued<P: Pace + Sync, R: Threads + Wait + Sync>(
    rt: &R,
    alloc: Global,
    crew: (u32, Mode, u32),
    count: usize,
    items: u64,
    pace: &P,
) -> Result<Answer, NoMemory> {
    let (workers, mode, batch) = crew;
    let mut told = Answer::new(alloc);
    if workers > 0 && workers < 100 {
        let goal = CellsGoal {
            mode,
            shares: workers,
        };
        let replicas = rows(alloc, workers as usize, count)?;
        let core = core_of(alloc, goal, count, items)?;
        let (core, replicas) = pursue(rt, &Cells, core, replicas, pace, batch);
        put_left(core, &replicas, workers, count, &mut told);
    }
    Ok(told)
}

// Pursues a goal on 64 true cells 200 times, of which this is told each time.
fn pursue_often<R: Threads + Wait + Sync>(
    rt: &R,
    alloc: Global,
    crew: (u32, Mode, u32),
    wanted: &str,
) -> Result<(), Fail> {
    for _ in 0..200 {
        pursued(rt, alloc, crew, 64, 200, &Free)?.expect(wanted)?;
    }
    Ok(())
}

const EACH: &str = "64 of all, 72 left, blocked, all follow";

#[test]
fn each_place_is_committed_once_by_up_to_four_workers(rt: HostRuntime) -> Result<(), Fail> {
    for workers in [1, 2, 3, 4] {
        for batch in [1, 8] {
            pursue_often(&rt, rt.alloc(), (workers, Mode::Saturate, batch), EACH)?;
        }
    }
    Ok(())
}

#[test]
fn each_place_is_committed_once_by_eight_workers(rt: HostRuntime) -> Result<(), Fail> {
    pursue_often(&rt, rt.alloc(), (8, Mode::Saturate, 1), EACH)
}

#[test]
fn a_goal_of_one_match_gets_one_by_any_number_of_workers(rt: HostRuntime) -> Result<(), Fail> {
    for workers in [1, 2, 3, 4, 8] {
        let crew = (workers, Mode::Once, 8);
        pursue_often(
            &rt,
            rt.alloc(),
            crew,
            "1 of more, 199 left, committed, all follow",
        )?;
    }
    Ok(())
}

// Tells whether two workers searched at the same time, as the pace that held them heard.
fn put_held(pace: &Held, told: &mut Answer) {
    told.put(if pace.met() { ", met" } else { ", apart" });
}

// What is told of two workers that are held to search at the same time and whether they did; and whether the first report
// of worker 0 committed its match, if it made one.
fn held<R: Threads + Wait + Sync>(
    rt: &R,
    alloc: Global,
    count: usize,
    items: u64,
) -> Result<(Answer, Option<bool>), NoMemory> {
    let pace = Held::new(1_000_000_000);
    let mut told = pursued(rt, alloc, (2, Mode::Saturate, 1), count, items, &pace)?;
    put_held(&pace, &mut told);
    Ok((told, pace.first_of_zero()))
}

#[test]
fn two_workers_search_at_the_same_time(rt: HostRuntime) -> Result<(), Fail> {
    let (told, _) = held(&rt, rt.alloc(), 2, 10)?;
    told.expect("2 of all, 6 left, blocked, all follow, met")
}

#[test]
fn a_worker_whose_share_is_barren_is_given_the_other_share(rt: HostRuntime) -> Result<(), Fail> {
    let (mut told, first) = held(&rt, rt.alloc(), 1, 2)?;
    if first == Some(false) {
        told.put(", first stale");
    }
    told.expect("1 of all, 0 left, blocked, all follow, met, first stale")
}

#[test]
fn workers_one_after_another_are_found(rt: HostRuntime) -> Result<(), Fail> {
    let (mut at_zero, mut at_one) = (true_cells(rt.alloc(), 2)?, true_cells(rt.alloc(), 2)?);
    let (gate, mut pass) = opened(rt.alloc(), 2, 10, 3)?;
    let (mut zero, mut one) = (pass.split(&gate, 0), pass.split(&gate, 1));
    let pace = Held::new(1000);
    let site = Site {
        system: &Cells,
        gate: &gate,
        pace: &pace,
    };
    work_on(&rt, &site, &mut zero, &mut at_zero, 1);
    work_on(&rt, &site, &mut one, &mut at_one, 1);
    assert!(rt; pace.was_late());
    Ok(())
}
