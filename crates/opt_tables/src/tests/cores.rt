//! Cores over cells and traps, and over the rules of programs: events of senders who were told of few entries, and their answers.

pub(crate) mod rules;
mod sending;

ghost use Rattle.std.specs.Prelude.{◌≡◌, [], IfOk};
ghost use Rattle.opt_cells.specs.Row.{row};

use super::answers::Answer;
use super::spelled::{Spelled, event_of, number_of, put_core, put_reply};
use gp_memory::NoMemory;
use opt_cells::{CellRow, Cells, CellsGoal, Traps};
use opt_core::sharing::{
    core_may_be_shared, core_may_be_taken, ending_may_be_taken, entries_may_be_taken,
    event_may_be_taken, reply_may_be_taken,
};
use opt_core::{Core, Ending, Event, Reply};
use opt_system::Mode;
use sending::{send, send_batch};
use std::alloc::Global;
use std::test::Fail;

type CellsRow = (&'static str, Mode, u32, u64, &'static str, &'static str);

// Cells, true or false, with the mode, the shares and the items of a goal; the events that are sent to its core, each
// with the number of entries that its sender was told of, and then the share to look from, the place of a match, or the
// share that is barren; and the answers, with the entries, the items and the ending that the core has then. The sender of a
// batch was told of none: it has up to so many matches of the first share.
const ON_CELLS: [CellsRow; 16] = [
    // a commit makes older reports stale
    (
        "t",
        Mode::Saturate,
        2,
        10,
        "look 0 0, quiet 0 0, quiet 0 1, look 0 1, offer 0 0, offer 0 0, quiet 0 1, look 0 1, offer 1 0, quiet 1 0, quiet 1 1, look 1 0",
        "news [] 0, may not come, noted, news [] 0, committed 0, stale 1, stale 1, news [0] 1, may not come, noted, closed blocked, closed blocked, [0] 8 blocked",
    ),
    // a goal of one match ends with its commit
    (
        "tt",
        Mode::Once,
        1,
        10,
        "offer 0 1, offer 0 0",
        "committed 0, closed committed, [1] 9 committed",
    ),
    (
        "tt",
        Mode::Once,
        2,
        5,
        "offer 0 0, offer 0 1",
        "committed 0, closed committed, [0] 4 committed",
    ),
    (
        "t",
        Mode::Once,
        1,
        1,
        "offer 0 0",
        "committed 0, [0] 0 committed",
    ),
    // a goal ends where no item is left
    (
        "tt",
        Mode::Once,
        1,
        0,
        "offer 0 0",
        "closed bound, [] 0 bound",
    ),
    (
        "tt",
        Mode::Saturate,
        2,
        0,
        "offer 0 1",
        "closed bound, [] 0 bound",
    ),
    (
        "tt",
        Mode::Saturate,
        2,
        1,
        "offer 0 0, look 0 0, look 1 0",
        "committed 0, closed bound, closed bound, [0] 0 bound",
    ),
    (
        "tt",
        Mode::Saturate,
        1,
        2,
        "offer 0 0, offer 0 1",
        "committed 0, closed bound, [0] 0 bound",
    ),
    // a stopped goal stays stopped
    (
        "t",
        Mode::Saturate,
        1,
        10,
        "stop, offer 0 0",
        "closed stopped, closed stopped, [] 10 stopped",
    ),
    (
        "t",
        Mode::Saturate,
        2,
        3,
        "stop, look 0 0, quiet 0 1",
        "closed stopped, closed stopped, closed stopped, [] 3 stopped",
    ),
    // a blocked goal needs no item
    (
        "",
        Mode::Saturate,
        2,
        0,
        "quiet 0 0, quiet 0 0, look 0 0, quiet 0 1",
        "noted, noted, news [] 1, closed blocked, [] 0 blocked",
    ),
    (
        "ff",
        Mode::Once,
        3,
        0,
        "quiet 0 1, look 0 4, quiet 0 2, look 0 5, quiet 0 0",
        "noted, news [] 2, noted, news [] 0, closed blocked, [] 0 blocked",
    ),
    // a batch is committed whole
    (
        "ttt",
        Mode::Saturate,
        1,
        10,
        "batch 3, quiet 0 0",
        "batched 0 3, may not come, [0, 1, 2] 4 running",
    ),
    // up to where the items are spent
    (
        "ttt",
        Mode::Saturate,
        1,
        3,
        "batch 3, batch 3",
        "batched 0 2 closed bound, closed bound, [0, 1] 0 bound",
    ),
    // or up to a match that does not apply any more
    (
        "ttt",
        Mode::Saturate,
        1,
        10,
        "offer 0 1, batch 3, batch 2",
        "committed 0, batched 1 1 stale 2, batched 2 0 stale 2, [1, 0] 6 running",
    ),
    // a goal of one match gets none
    (
        "ttt",
        Mode::Once,
        1,
        10,
        "batch 3",
        "may not come, [] 10 running",
    ),
];

// The same of traps: the items, the events and the answers. A fault ends a goal unless it is stale.
const ON_TRAPS: [(u64, &str, &str); 3] = [
    (10, "fault 0 7", "closed fault 7, [] 10 fault 7"),
    (
        0,
        "offer 0 7, fault 0 7",
        "may not come, closed fault 7, [] 0 fault 7",
    ),
    (
        9,
        "offer 0 0, fault 0 7, quiet 1 0",
        "committed 0, stale 1, closed blocked, [0] 7 blocked",
    ),
];

// Sends the events to a new core. Two states like its own are lent: one that stays, and one that follows its entries.
fn told_by<S: Spelled>(
    alloc: Global,
    s: &S,
    mut core: Core<S>,
    base: &S::State,
    at: &mut S::State,
    events: &str,
) -> Answer
    requires system { s.now ≡ core.system }
    requires entries { core.entries ≡ [] }
    requires base { base.now ≡ core.base }
    requires at { at.old ≡ core.state }
{
    let mut told = Answer::new(alloc);
    let mut count = Some(0);
    for event in events.split(',') {
        let text = event.trim();
        let reply = if let Some(limit) = text.strip_prefix("batch ") {
            count = None;
            send_batch(alloc, s, &mut core, base, number_of(limit))
        } else if let Some(event) = event_of::<S>(alloc, text) {
            send(s, &mut core, base, at, &mut count, event)
        } else {
            None
        };
        match reply {
            Some(reply) => put_reply::<S>(&reply, &mut told),
            None => told.put("may not come"),
        }
        told.put(", ");
    }
    put_core(core, &mut told);
    told
}

fn cells_of(alloc: Global, text: &str) -> Result<Vec<bool>, NoMemory> {
    let mut cells = Vec::new(alloc);
    for letter in text.as_bytes() {
        cells.push(*letter == b't')?;
    }
    Ok(cells)
}

fn row_of(alloc: Global, cells: &[bool]) -> Result<CellRow, NoMemory>
    ensures { IfOk result (λ r. r ≡ row cells.now []) }
{
    Ok(CellRow::new(alloc, cells.to_vec(alloc)?))
}

// What the events of a row over cells are answered.
fn told_of_cells(alloc: Global, row: &CellsRow) -> Result<Answer, NoMemory> {
    let (cells, mode, shares, items, events, _) = *row;
    if shares == 0 {
        return Err(NoMemory);
    }
    let goal = CellsGoal { mode, shares };
    let cells = cells_of(alloc, cells)?;
    let (base, mut at) = (row_of(alloc, &cells)?, row_of(alloc, &cells)?);
    match Core::start(alloc, &Cells, row_of(alloc, &cells)?, goal, items) {
        Ok(core) => Ok(told_by(alloc, &Cells, core, &base, &mut at, events)),
        Err(_) => Err(NoMemory),
    }
}

// What the events of a row over traps are answered.
fn told_of_traps(alloc: Global, items: u64, events: &str) -> Result<Answer, NoMemory> {
    match Core::start(alloc, &Traps, 0, (), items) {
        Ok(core) => Ok(told_by(alloc, &Traps, core, &0, &mut 0, events)),
        Err(_) => Err(NoMemory),
    }
}

#[test]
fn cores_answer_each_event_as_their_senders_were_told(rt: HostRuntime) -> Result<(), Fail> {
    for row in &ON_CELLS {
        told_of_cells(rt.alloc(), row)?.expect(row.5)?;
    }
    for (items, events, answers) in &ON_TRAPS {
        told_of_traps(rt.alloc(), *items, events)?.expect(answers)?;
    }
    Ok(())
}

#[test]
fn threads_may_take_cores_events_and_answers(rt: HostRuntime) -> Result<(), Fail> {
    let Ok(mut core) = Core::start(rt.alloc(), &Traps, 0, (), 0) else {
        return Err(Fail::from("no core was made"));
    };
    core_may_be_taken(&core);
    core_may_be_shared(&core);
    event_may_be_taken(&Event::<u64>::Stop);
    ending_may_be_taken(&Ending::<u64>::Blocked);
    let _legal = core.ending();
    let reply = core.step(&Traps, Event::Look { told: 0, from: 0 });
    if let Reply::News { entries, task: _ } = &reply {
        entries_may_be_taken(entries);
    }
    reply_may_be_taken(&reply);
    Ok(())
}
