//! What takes a step back.

ghost use Rattle.std.specs.Prelude.{◌≡◌, ◌++◌, reverse, replicate, IfOk};
ghost use Rattle.gp_step.specs.declared.inverse.Inverse.TheVariants as inverses;

use crate::inverse::Inverse;
use gp_memory::NoMemory;
use std::alloc::Global;
use std::marker::Model;

/// What takes a step back. Contracts see a list of inverse edits, the first of which is made first: so many edges and
/// nodes that were made go, and then what was overwritten and taken out comes again, the last of it first.
#[derive(Drop)]
pub struct Undo {
    pub(crate) edges: u64,
    pub(crate) nodes: u64,
    pub(crate) taken: Vec<Inverse>,
}

impl Model for Undo {
    ghost use Rattle.std.specs.Prelude.{◌++◌, reverse, replicate, List};
    ghost use Rattle.gp_step.specs.declared.inverse.Inverse.{Inverse};
    ghost use Rattle.gp_step.specs.declared.inverse.Inverse.TheVariants as inverses;

    ghost Value = { List Inverse };

    ghost view = { λ u. replicate u.edges inverses.DropEdge ++ (replicate u.nodes inverses.DropNode ++ reverse u.taken.items) };
}

impl Undo {
    pub(crate) fn new(edges: u64, nodes: u64, taken: Vec<Inverse>) -> Undo
        ensures { result ≡ replicate edges inverses.DropEdge ++ (replicate nodes inverses.DropNode ++ reverse taken.items) }
    {
        Undo {
            edges,
            nodes,
            taken,
        }
    }

    /// An equal one, in memory of its own.
    pub fn copy(&self, alloc: Global) -> Result<Undo, NoMemory>
        ensures { IfOk result (λ u. u ≡ self.now) }
    {
        Ok(Undo {
            edges: self.edges,
            nodes: self.nodes,
            taken: copy_all(&self.taken, alloc)?,
        })
    }
}

// The same inverses in memory of their own.
fn copy_all(inverses: &[Inverse], alloc: Global) -> Result<Vec<Inverse>, NoMemory>
    ensures { IfOk result (λ v. v.items ≡ inverses.now) }
{
    let mut copies = Vec::with_capacity(alloc, inverses.len())?;
    for inverse in inverses {
        copies.push(inverse.copy(alloc)?)?;
    }
    Ok(copies)
}
