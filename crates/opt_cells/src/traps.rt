//! A small system with faulty matches.

ghost use Rattle.std.proofs.Common.{rules};
ghost use Rattle.opt_cells.specs.Traps.{traps_means};
ghost use Rattle.opt_cells.specs.inside.Traps.{traps_follow};

use gp_memory::NoMemory;
use opt_system::{Mode, Sought, System, Verdict};

/// A state is the number of steps made. Before the first step 0 applies, and any other number is faulty, with itself as
/// the reason.
#[derive(Clone, Copy)]
pub struct Traps;

impl System for Traps {
    type State = u64;

    type Found = u64;

    type Goal = ();

    type Reason = u64;

    ghost means = { λ _. traps_means };

    fn check(&self, _goal: (), at: &u64, found: &u64) -> Verdict<u64> {
        if *at > 0 {
            Verdict::No
        } else if *found == 0 {
            Verdict::Applies
        } else {
            Verdict::Faulty(*found)
        }
    }

    fn apply(&self, at: &mut u64, _found: &u64) -> Result<(), NoMemory> {
        match at.checked_add(1) {
            Some(more) => {
                *at = more;
                Ok(())
            }
            None => Err(NoMemory),
        }
    }

    fn back(&self, at: &mut u64, k: u64) {
        *at -= k;
    }

    fn seek(&self, _goal: (), _share: u32, at: &u64) -> Sought<u64, u64> {
        if *at > 0 {
            Sought::Barren
        } else {
            Sought::Applies(0)
        }
    }

    /// None: no other match is independent of the one that is held.
    fn more(
        &self,
        _goal: (),
        _share: u32,
        _at: &u64,
        _held: &mut Vec<u64>,
        _limit: u32,
    ) -> Result<(), NoMemory> {
        Ok(())
    }

    fn shares(&self, _goal: ()) -> u32 {
        1
    }

    fn mode(&self, _goal: ()) -> Mode {
        Mode::Saturate
    }

    fn copy(&self, found: &u64) -> Result<u64, NoMemory> {
        Ok(*found)
    }

    ghost lawful = { λ _. record {
      deeper = λ goal at f e. Prim.search rules;
      undoes = λ goal at f e. Prim.search rules;
      some_share = λ goal. Prim.search rules;
      all_shares = λ goal f. Prim.search rules;
      other_way = λ at f h both. both;
      follows = traps_follow;
    } };
}
