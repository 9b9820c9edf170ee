//! Rows of true cells, and cores and gates over them.

ghost use Rattle.std.specs.Prelude.{◌≡◌, ◌<◌, [], None, IfOk, replicate, true, vec_len};
ghost use Rattle.std.specs.List.{All};
ghost use Rattle.opt_cells.specs.Row.{row};
ghost use Rattle.opt_gate.specs.Pass.{first_pass, start_of};

use gp_memory::NoMemory;
use opt_cells::{CellRow, Cells, CellsGoal};
use opt_core::Core;
use opt_gate::{Gate, Pass};
use opt_system::Mode;
use std::alloc::Global;

/// A row of so many true cells.
pub(crate) fn true_cells(alloc: Global, count: usize) -> Result<CellRow, NoMemory>
    ensures { IfOk result (λ r. r ≡ row (replicate count true) []) }
{
    Ok(CellRow::new(alloc, Vec::from_elem(alloc, true, count)?))
}

/// So many rows of so many true cells.
pub(crate) fn rows(alloc: Global, workers: usize, count: usize) -> Result<Vec<CellRow>, NoMemory>
    ensures len { IfOk result (λ v. vec_len v ≡ workers) }
    ensures all { IfOk result (λ v. All (λ r. r ≡ row (replicate count true) []) v.items) }
{
    let mut all = Vec::new(alloc);
    for _ in 0..workers {
        all.push(true_cells(alloc, count)?)?;
    }
    Ok(all)
}

/// The core of a goal on so many true cells.
pub(crate) fn core_of(
    alloc: Global,
    goal: CellsGoal,
    count: usize,
    items: u64,
) -> Result<Core<Cells>, NoMemory>
    ensures { IfOk result (λ c. (c.base ≡ row (replicate count true) []) × (c.entries ≡ []) × (c.ending ≡ None)) }
{
    match Core::start(alloc, &Cells, true_cells(alloc, count)?, goal, items) {
        Ok(core) => Ok(core),
        Err(_) => Err(NoMemory),
    }
}

/// A gate for so many passes, with the first of them, round the core of a goal that makes all cells false, in two shares.
pub(crate) fn opened(
    alloc: Global,
    count: usize,
    items: u64,
    passes: u64,
) -> Result<(Gate<Cells>, Pass<Cells>), NoMemory>
    requires { 0 < passes }
    ensures passes { IfOk result (λ r. (r.0.key.passes ≡ passes) × (r.1 ≡ first_pass r.0 passes)) }
    ensures base { IfOk result (λ r. (start_of r.0).base ≡ row (replicate count true) []) }
{
    let goal = CellsGoal {
        mode: Mode::Saturate,
        shares: 2,
    };
    opened_for(alloc, goal, count, items, passes)
}

/// The same for any goal.
pub(crate) fn opened_for(
    alloc: Global,
    goal: CellsGoal,
    count: usize,
    items: u64,
    passes: u64,
) -> Result<(Gate<Cells>, Pass<Cells>), NoMemory>
    requires { 0 < passes }
    ensures passes { IfOk result (λ r. (r.0.key.passes ≡ passes) × (r.1 ≡ first_pass r.0 passes)) }
    ensures base { IfOk result (λ r. (start_of r.0).base ≡ row (replicate count true) []) }
{
    let core = core_of(alloc, goal, count, items)?;
    match Gate::start(alloc, core, passes) {
        Ok(opened) => Ok(opened),
        Err(_) => Err(NoMemory),
    }
}
