//! The commands of a program as a table of nodes, in which each part of a command has a lower number than the command.
//!
//! What nodes mean stands in `specs/Code`: they stand for commands, each for that of its number (`IsCode`), and the root's
//! is Main (`IsCodeOf`). A chain is a node for each two parts, grouped from the left, and the call of a procedure names the
//! node of its body. So numbers fall from a command to its parts and from a call to the body, and whoever goes down from a
//! node needs no other measure than its number.
//!
//! A body is put in at the first call of its procedure alone, so that a table has no more nodes than the program has
//! commands. No contract says that.

ghost use Rattle.std.specs.Prelude.{IfOk};
ghost use Rattle.gp_syntax.specs.Tree.{program_of_tree};
ghost use Rattle.gp_certify.specs.Code.{IsCodeOf};

use crate::lower::lower;
use crate::node::Node;
use crate::table::{Table, no_roots};
use gp_memory::NoMemory;
use gp_syntax::Program;
use std::alloc::Global;

/// A chain of calls has at most so many procedures.
const MOST_CALLS: u32 = 64;

/// The commands of a program, and the number of Main's.
#[derive(Drop)]
pub struct Code {
    pub nodes: Vec<Node>,
    pub root: u32,
}

/// The commands of the program as a table. One of more than 2^32 nodes counts as a want of memory.
pub fn code_of(alloc: Global, program: &Program) -> Result<Code, NoMemory>
    ensures { IfOk result (λ c. IsCodeOf (program_of_tree program.now) c.nodes.items c.root) }
{
    let parts = program.parts();
    let mut table = Table {
        nodes: Vec::new(alloc),
        roots: no_roots(alloc, parts.procedures.as_slice().len())?,
    };
    let root = lower(program, MOST_CALLS, &parts.main, &mut table)?;
    Ok(Code {
        nodes: table.nodes,
        root,
    })
}
