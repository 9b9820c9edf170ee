//! What was found for a command and a place.

ghost use Rattle.std.specs.Prelude.{ℕ, List, IfOk, IfSome};
ghost use Rattle.gp_certify.specs.inside.Memory.{Knows, Learns};

use crate::end::End;
use gp_memory::NoMemory;
use std::alloc::Global;
use std::collections::BTreeMap;

/// The ends of some commands from some places.
#[derive(Drop)]
pub(crate) struct Memory {
    pub(crate) alloc: Global,
    found: BTreeMap<(usize, u32), Vec<End>>,
}

impl Memory {
    /// Nothing.
    pub(crate) fn new(alloc: Global) -> Memory
        ensures { (node place : ℕ) (ends : List End) → Knows result.found node place ends → ⊥ }
    {
        Memory {
            alloc,
            found: BTreeMap::new(alloc),
        }
    }

    /// What is known of a command and a place.
    pub(crate) fn recall(&self, node: u32, place: usize) -> Result<Option<Vec<End>>, NoMemory>
        ensures { IfOk result (λ o. IfSome o (λ es. Knows self.now.found node place es.items)) }
    {
        match self.found.get(&(place, node)) {
            Some(ends) => Ok(Some(Vec::from_slice(self.alloc, ends)?)),
            None => Ok(None),
        }
    }

    /// Keeps what was found.
    pub(crate) fn keep(&mut self, node: u32, place: usize, ends: &[End]) -> Result<(), NoMemory>
        ensures { Learns self.old.found self.new.found node place ends.now }
    {
        let kept = Vec::from_slice(self.alloc, ends)?;
        match self.found.insert((place, node), kept) {
            Ok(_) => Ok(()),
            Err(_) => Err(NoMemory),
        }
    }
}
