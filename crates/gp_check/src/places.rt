//! Places in place of names.

ghost use Rattle.std.specs.Prelude.{◌≡◌, IfOk};
ghost use Rattle.std.specs.Option.{option_copied};
ghost use Rattle.gp_values.specs.Names.{place_of, has_name};
ghost use Rattle.gp_syntax.specs.Declaration.{node_names, edge_names, place_in};
ghost use Rattle.gp_syntax.specs.Tree.{side_of, pattern_of};

use gp_memory::NoMemory;
use gp_syntax::{GraphDecl, Name};
use gp_values::NameTable;

/// Where the variables of left labels and the left nodes stand.
#[derive(Clone, Copy)]
pub struct Places<'a> {
    pub variables: &'a NameTable,
    pub left: &'a GraphDecl,
}

// A place as a rule holds it. One past 32 bits, which no text is long enough for, counts as want of memory.
fn narrow(place: usize) -> Result<u32, NoMemory>
    ensures { IfOk result (λ p. p ≡ place) }
{
    if place < 0x1_0000_0000 {
        Ok(place as u32)
    } else {
        Err(NoMemory)
    }
}

// The place of a name among those of the nodes of a side.
fn node_position(side: &GraphDecl, name: &Name) -> Option<usize>
    ensures { result ≡ place_of (node_names (side_of side.now)) name.now }
{
    for (at, node) in side.nodes.as_slice().iter().enumerate() {
        if name.same(&node.name) {
            return Some(at);
        }
    }
    None
}

fn edge_position(side: &GraphDecl, name: &Name) -> Option<usize>
    ensures { result ≡ place_of (edge_names (side_of side.now)) name.now }
{
    for (at, edge) in side.edges.as_slice().iter().enumerate() {
        if name.same(&edge.name) {
            return Some(at);
        }
    }
    None
}

/// The place of a node of a side; 0, where it has none of this name.
pub fn node_place(side: &GraphDecl, name: &Name) -> Result<u32, NoMemory>
    ensures { IfOk result (λ p. p ≡ place_in (node_names (side_of side.now)) name.now) }
{
    match node_position(side, name) {
        Some(at) => narrow(at),
        None => Ok(0),
    }
}

/// The place of a left node, if there is one of this name.
pub fn node_origin(side: &GraphDecl, name: &Name) -> Result<Option<u32>, NoMemory>
    ensures { IfOk result (λ o. o ≡ place_of (node_names (side_of side.now)) name.now) }
{
    match node_position(side, name) {
        Some(at) => Ok(Some(narrow(at)?)),
        None => Ok(None),
    }
}

/// The place of a left edge, if there is one of this name.
pub fn edge_origin(side: &GraphDecl, name: &Name) -> Result<Option<u32>, NoMemory>
    ensures { IfOk result (λ o. o ≡ place_of (edge_names (side_of side.now)) name.now) }
{
    match edge_position(side, name) {
        Some(at) => Ok(Some(narrow(at)?)),
        None => Ok(None),
    }
}

impl Places<'_> {
    /// The place of a variable of left labels; 0, where there is none of this name.
    pub fn variable(self, name: &Name) -> Result<u32, NoMemory>
        ensures { IfOk result (λ p. p ≡ place_in self.entry.variables.now name.now) }
    {
        match self.variables.place(name.as_bytes()) {
            Some(at) => narrow(at),
            None => Ok(0),
        }
    }

    /// The place of a left node; 0, where there is none of this name.
    pub fn node(self, name: &Name) -> Result<u32, NoMemory>
        ensures { IfOk result (λ p. p ≡ place_in (node_names (side_of self.entry.left.now)) name.now) }
    {
        node_place(self.left, name)
    }
}
