//! Cells and traps, through the trait's bound and outright, and what workers take and share of them.

ghost use Rattle.std.specs.Prelude.{◌≡◌, ◌<◌};

use super::answers::Answer;
use super::spelled::{Spelled, put_founds, put_verdict};
use opt_cells::{CellRow, Cells, CellsGoal, Never, Traps};
use opt_system::{Mode, Sought, System, Verdict};
use std::alloc::Global;
use std::test::Fail;

// Searches a share, makes the step that is found, and takes it back. What was found is told.
fn there_and_back<S: Spelled>(
    s: &S,
    goal: S::Goal,
    share: u32,
    at: &mut S::State,
    told: &mut Answer,
)
    requires { share < (S.means s.now).shares goal }
    ensures { at.new ≡ at.old }
{
    match s.seek(goal, share, at) {
        Sought::Applies(found) => {
            S::put_found(&found, told);
            if s.apply(at, &found).is_ok() {
                s.back(at, 1);
            }
        }
        _ => told.put("none"),
    }
}

// A row of cells, of which those are true that have the letter `t`.
fn row_of(alloc: Global, letters: &str) -> CellRow {
    let mut cells = Vec::new(alloc);
    for letter in letters.as_bytes() {
        let _ = cells.push(*letter == b't');
    }
    CellRow::new(alloc, cells)
}

// Of the cells `fttft`, the shares, the share that is looked at, and what is told: how many shares the goal has, and
// the least true place of the share, twice.
const LEAST: [(u32, u32, &str); 8] = [
    (1, 0, "1: 1, 1"),
    (2, 0, "2: 2, 2"),
    (2, 1, "2: 1, 1"),
    (3, 0, "3: none, none"),
    (3, 1, "3: 1, 1"),
    (4, 0, "4: 4, 4"),
    (5, 3, "5: none, none"),
    (9, 8, "9: none, none"),
];

// What is told of a share of the row.
fn told_of_share(alloc: Global, row: &mut CellRow, shares: u32, share: u32) -> Answer {
    let mut told = Answer::new(alloc);
    if share < shares {
        let goal = CellsGoal {
            mode: Mode::Saturate,
            shares,
        };
        told.put_number(u64::from(Cells.shares(goal)));
        told.put(": ");
        there_and_back(&Cells, goal, share, row, &mut told);
        told.put(", ");
        there_and_back(&Cells, goal, share, row, &mut told);
    }
    told
}

#[test]
fn the_least_true_place_of_a_share_is_found_until_it_is_taken(rt: HostRuntime) -> Result<(), Fail> {
    let mut row = row_of(rt.alloc(), "fttft");
    for (shares, share, wanted) in &LEAST {
        told_of_share(rt.alloc(), &mut row, *shares, *share).expect(wanted)?;
    }
    Ok(())
}

const ONCE: CellsGoal = CellsGoal {
    mode: Mode::Once,
    shares: 1,
};

// How often the goal's matches are taken, and of each place of a row of three, and the one behind them, whether its
// match applies. The match is a copy.
fn told_of_places(alloc: Global, row: &CellRow) -> Answer {
    let mut told = Answer::new(alloc);
    told.put(if Cells.mode(ONCE) == Mode::Once {
        "once, "
    } else {
        "on, "
    });
    for place in 0..4usize {
        if let Ok(found) = Cells.copy(&place) {
            told.put_number(found as u64);
            told.put(" ");
            put_verdict::<Cells>(&Cells.check(ONCE, row, &found), &mut told);
            told.put(", ");
        }
    }
    told
}

#[test]
fn a_step_applies_where_its_cell_is_true(rt: HostRuntime) -> Result<(), Fail> {
    let row = row_of(rt.alloc(), "tft");
    told_of_places(rt.alloc(), &row).expect("once, 0 applies, 1 no, 2 applies, 3 no, ")
}

// The cells of a row of three, and the places that steps made false.
fn put_row(row: &CellRow, told: &mut Answer) {
    for place in 0..3usize {
        told.put(if row.is_true(place) { "t" } else { "f" });
    }
    told.put(" ");
    put_founds::<Cells>(row.taken(), told);
    told.put(", ");
}

// Makes the step at the place, if it may be made, and tells the row.
fn step(row: &mut CellRow, place: usize, told: &mut Answer) {
    if let Verdict::Applies = Cells.check(ONCE, row, &place) {
        if Cells.apply(row, &place).is_ok() {
            put_row(row, told);
        }
    }
}

// Makes the step at the place, if it may be made, tells the row, takes the step back, and tells the row.
fn step_and_back(row: &mut CellRow, place: usize, told: &mut Answer) {
    if let Verdict::Applies = Cells.check(ONCE, row, &place) {
        if Cells.apply(row, &place).is_ok() {
            put_row(row, told);
            Cells.back(row, 1);
            put_row(row, told);
        }
    }
}

#[test]
fn a_step_makes_its_cell_false_and_back_makes_it_true(rt: HostRuntime) -> Result<(), Fail> {
    let mut told = Answer::new(rt.alloc());
    let mut row = row_of(rt.alloc(), "tft");
    step(&mut row, 0, &mut told);
    step_and_back(&mut row, 2, &mut told);
    told.expect("fft [0], fff [0, 2], fft [0], ")
}

// Of steps made and matches, what each match is then.
const TRAPPED: [(u64, u64, &str); 4] = [
    (0, 0, "applies"),
    (0, 7, "faulty 7"),
    (1, 0, "no"),
    (1, 7, "no"),
];

// What a search finds before the first step, and after it, and whether the goal goes on; and its shares.
fn told_of_traps(alloc: Global) -> Answer {
    let mut told = Answer::new(alloc);
    let mut at = 0;
    told.put_number(u64::from(Traps.shares(())));
    told.put(if Traps.mode(()) == Mode::Saturate {
        " on, "
    } else {
        " once, "
    });
    there_and_back(&Traps, (), 0, &mut at, &mut told);
    told.put(if matches!(Traps.seek((), 0, &1), Sought::Barren) {
        ", barren"
    } else {
        ", more"
    });
    told
}

#[test]
fn a_trap_is_faulty_before_the_first_step_alone(rt: HostRuntime) -> Result<(), Fail> {
    for (at, found, wanted) in &TRAPPED {
        let mut told = Answer::new(rt.alloc());
        if let Ok(found) = Traps.copy(found) {
            put_verdict::<Traps>(&Traps.check((), at, &found), &mut told);
        }
        told.expect(wanted)?;
    }
    told_of_traps(rt.alloc()).expect("1 on, 0, barren")
}

fn may_be_taken<T: Send>(_value: &T) {}

fn may_be_shared<T: Sync>(_value: &T) {}

#[test]
fn workers_may_take_states_and_matches_and_share_the_system(rt: HostRuntime) {
    may_be_shared(&Cells);
    may_be_shared(&Traps);
    may_be_shared(&ONCE);
    may_be_taken(&ONCE);
    may_be_taken(&CellRow::new(rt.alloc(), Vec::new(rt.alloc())));
    may_be_taken(&Verdict::<Never>::No);
    may_be_taken(&Sought::<usize, Never>::Barren);
}
