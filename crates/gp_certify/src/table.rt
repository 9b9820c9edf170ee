//! A table that grows.

ghost use Rattle.std.specs.Prelude.{◌≡◌, IfOk, replicate, None};
ghost use Rattle.gp_certify.specs.inside.Table.{HasPut, joined_node};

use crate::node::Node;
use gp_memory::NoMemory;
use std::alloc::Global;

/// The nodes so far, and for each procedure that of its body, where the table has it.
#[derive(Drop)]
pub(crate) struct Table {
    pub(crate) nodes: Vec<Node>,
    pub(crate) roots: Vec<Option<u32>>,
}

/// The operator of a chain.
#[derive(Clone, Copy)]
pub(crate) enum Chain {
    Sequence,
    Choice,
}

/// Two parts of a chain.
pub(crate) fn joined(chain: Chain, first: u32, second: u32) -> Node
    ensures { result ≡ joined_node chain first second }
{
    match chain {
        Chain::Sequence => Node::Seq(first, second),
        Chain::Choice => Node::Or(first, second),
    }
}

/// So many procedures of which no body is in the table.
pub(crate) fn no_roots(alloc: Global, count: usize) -> Result<Vec<Option<u32>>, NoMemory>
    ensures { IfOk result (λ v. v.items ≡ replicate count None) }
{
    Ok(vec![in alloc; None; count]?)
}

/// Puts a node at the end, and tells its number. Where that is no `u32`, the table has 2^32 nodes: that is a want of
/// memory.
pub(crate) fn put(table: &mut Table, node: Node) -> Result<u32, NoMemory>
    ensures roots { table.new.roots ≡ table.old.roots }
    ensures put { IfOk result (λ n. HasPut table.old table.new node n) }
{
    let Ok(number) = u32::try_from(table.nodes.len()) else {
        return Err(NoMemory);
    };
    table.nodes.push(node)?;
    Ok(number)
}
