//! The states of `Cells`.

ghost use Rattle.std.specs.Prelude.{◌≡◌, ℕ, ◌<◌, ◌∷◌, [], length, slice_index_or, slice_set, reverse, false, true, OnOk, OnErr, IfSome, IfNone};
ghost use Rattle.opt_cells.specs.Row.{row, undone_of, IsLeastTrue, NoneTrue};

use gp_memory::NoMemory;
use std::alloc::Global;
use std::marker::Model;

/// A row of truth values, with the places that steps made false.
#[derive(Drop)]
pub struct CellRow {
    cells: Vec<bool>,
    taken: Vec<usize>,
}

impl Model for CellRow {
    ghost use Rattle.std.specs.Prelude.{reverse, length};
    ghost use Rattle.opt_cells.specs.Row.{Row, row, AreBelow};

    ghost Value = { Row };

    ghost view = { λ r. row r.cells.items (reverse r.taken.items) };

    ghost invariant = { λ r. AreBelow (length r.cells.items) (reverse r.taken.items) };
}

impl CellRow {
    /// A row in which no step was made.
    pub fn new(alloc: Global, cells: Vec<bool>) -> CellRow
        ensures { result ≡ row cells.items [] }
    {
        CellRow {
            cells,
            taken: Vec::new(alloc),
        }
    }

    /// How many places it has.
    pub fn len(&self) -> usize
        ensures { result ≡ length self.now.cells }
    {
        self.cells.len()
    }

    /// Whether the place is in the row and true.
    pub fn is_true(&self, place: usize) -> bool
        ensures { result ≡ slice_index_or self.now.cells place false }
    {
        if place < self.cells.len() {
            self.cells[place]
        } else {
            false
        }
    }

    /// The places that steps made false, in the order of the steps.
    pub fn taken(&self) -> &[usize]
        ensures { self.now.taken ≡ reverse result.now }
    {
        self.taken.as_slice()
    }

    // Makes a true cell false.
    pub(crate) fn put_out(&mut self, place: usize) -> Result<(), NoMemory>
        requires { slice_index_or self.old.cells place false ≡ true }
        ensures ok { OnOk result (self.new ≡ row (slice_set self.old.cells place false) (place ∷ self.old.taken)) }
        ensures err { OnErr result (self.new ≡ self.old) }
    {
        if self.taken.push(place).is_err() {
            return Err(NoMemory);
        }
        self.cells[place] = false;
        Ok(())
    }

    // Makes the cell true again that was made false last.
    pub(crate) fn take_back(&mut self)
        requires { 0 < length self.old.taken }
        ensures { self.new ≡ undone_of self.old.cells self.old.taken }
    {
        if let Some(place) = self.taken.pop() {
            self.cells[place] = true;
        }
    }

    // The least true place of a share.
    pub(crate) fn least_true(&self, shares: u32, share: u32) -> Option<usize>
        requires { 0 < shares }
        ensures some { IfSome result (IsLeastTrue self.now.cells shares share) }
        ensures none { IfNone result (NoneTrue self.now.cells shares share (length self.now.cells)) }
    {
        for place in 0..self.cells.len() {
            if place % shares as usize == share as usize && self.cells[place] {
                return Some(place);
            }
        }
        None
    }
}
