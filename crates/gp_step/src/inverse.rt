//! Edits of a graph that take other edits back.

ghost use Rattle.std.specs.Prelude.{◌≡◌, IfOk};

use gp_memory::NoMemory;
use gp_values::{EdgeMark, List, NodeMark};
use std::alloc::Global;

/// What takes one edit of a graph back.
#[derive(Drop)]
pub enum Inverse {
    /// The last node goes, with its number.
    DropNode,
    /// The last edge goes, with its number.
    DropEdge,
    /// The node of this number comes again.
    PutNode(u64, List, NodeMark, bool),
    /// The edge of this number comes again, from this node to that.
    PutEdge(u64, u64, u64, List, EdgeMark),
    /// The node of this number carries again what it did.
    Relabel(u64, List, NodeMark, bool),
    /// The edge of this number carries again what it did.
    RelabelEdge(u64, List, EdgeMark),
    /// Walks over the edges at both ends of the edge of this number begin at it again.
    BeginAt(u64),
}

impl Inverse {
    /// An equal inverse, in memory of its own.
    pub(crate) fn copy(&self, alloc: Global) -> Result<Inverse, NoMemory>
        ensures { IfOk result (λ x. x ≡ self.now) }
    {
        Ok(match self {
            Inverse::DropNode => Inverse::DropNode,
            Inverse::DropEdge => Inverse::DropEdge,
            Inverse::PutNode(n, label, mark, root) => {
                Inverse::PutNode(*n, label.copy(alloc)?, *mark, *root)
            }
            Inverse::PutEdge(e, source, target, label, mark) => {
                Inverse::PutEdge(*e, *source, *target, label.copy(alloc)?, *mark)
            }
            Inverse::Relabel(n, label, mark, root) => {
                Inverse::Relabel(*n, label.copy(alloc)?, *mark, *root)
            }
            Inverse::RelabelEdge(e, label, mark) => {
                Inverse::RelabelEdge(*e, label.copy(alloc)?, *mark)
            }
            Inverse::BeginAt(e) => Inverse::BeginAt(*e),
        })
    }
}
