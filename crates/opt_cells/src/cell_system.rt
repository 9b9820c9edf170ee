//! A small system for tests: a match is a place whose cell is true, and its step makes the cell false.

ghost use Rattle.std.specs.Prelude.{◌≡◌};
ghost use Rattle.opt_system.specs.Answers.{IsSoughtIn};
ghost use Rattle.opt_cells.specs.Cells.{cells_means, IsLeastSought};

use crate::cell_row::CellRow;
use crate::cells_goal::{CellsGoal, Never};
use gp_memory::NoMemory;
use opt_system::{Mode, Sought, System, Verdict};

/// The system of rows of cells. Share j of S holds the places that are j modulo S, and no match is faulty.
#[derive(Clone, Copy)]
pub struct Cells;

impl System for Cells {
    ghost use Rattle.opt_cells.specs.Cells.{cells_means};
    ghost use Rattle.opt_cells.specs.inside.Laws.{cells_lawful};

    type State = CellRow;

    type Found = usize;

    type Goal = CellsGoal;

    type Reason = Never;

    ghost means = { λ _. cells_means };

    fn check(&self, _goal: CellsGoal, at: &CellRow, found: &usize) -> Verdict<Never> {
        if at.is_true(*found) {
            Verdict::Applies
        } else {
            Verdict::No
        }
    }

    fn apply(&self, at: &mut CellRow, found: &usize) -> Result<(), NoMemory> {
        at.put_out(*found)
    }

    fn back(&self, at: &mut CellRow, k: u64) {
        for _ in 0..k {
            at.take_back();
        }
    }

    /// The least place of the share that applies.
    fn seek(&self, goal: CellsGoal, share: u32, at: &CellRow) -> Sought<usize, Never>
        ensures sought { IsSoughtIn cells_means goal share at.now result }
        ensures least { IsLeastSought goal share at.now result }
    {
        match at.least_true(goal.shares, share) {
            Some(place) => Sought::Applies(place),
            None => Sought::Barren,
        }
    }

    /// The places of the share from 0 on.
    fn more(
        &self,
        goal: CellsGoal,
        share: u32,
        at: &CellRow,
        held: &mut Vec<usize>,
        limit: u32,
    ) -> Result<(), NoMemory> {
        for place in 0..at.len() {
            if held.len() >= limit as usize {
                return Ok(());
            }
            let is_of_share = place % goal.shares as usize == share as usize;
            if is_of_share && at.is_true(place) && !held.contains(&place) {
                held.push(place)?;
            }
        }
        Ok(())
    }

    fn shares(&self, goal: CellsGoal) -> u32 {
        goal.shares
    }

    fn mode(&self, goal: CellsGoal) -> Mode {
        goal.mode
    }

    fn copy(&self, found: &usize) -> Result<usize, NoMemory> {
        Ok(*found)
    }

    ghost lawful = { λ _. cells_lawful };
}
