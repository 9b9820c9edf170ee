//! The faults of a host that is spelled as one, from the first to the last.

ghost use Rattle.std.specs.Prelude.{◌≡◌, ◌++◌, ◌∷◌, [], map, IfOk, OnOk, option_map};
ghost use Rattle.std.specs.Option.{option_or};
ghost use Rattle.gp_tokens.specs.Numerals.{signed};
ghost use Rattle.gp_values.specs.Names.{place_of, first_doubled, same_name};
ghost use Rattle.gp_hostfile.specs.Host.{node_mark, edge_mark, first_found, first_fault, first_out_of_range, first_wrong_mark, node_names};
ghost use Rattle.std.specs.List.{AllZip};
ghost use Rattle.gp_hostfile.specs.inside.Stages.{Checks, Finds, HasEnds, tree_in, atom_fault, label_fault, ends_fault, node_mark_fault, edge_mark_fault};
ghost use Rattle.gp_hostfile.specs.declared.fault.HostFault.TheVariants as faults;
ghost use Rattle.gp_hostfile.specs.declared.tree.NodeTree.{NodeTree};
ghost use Rattle.gp_hostfile.specs.declared.tree.EdgeTree.{EdgeTree};

use crate::fault::HostFault;
use crate::names::TextNames;
use crate::tree::{AtomTree, EdgeTree, Halves, HostTree, NodeTree};
use gp_memory::NoMemory;
use gp_tokens::{Numeral, Slice};
use gp_values::{EdgeMark, NodeMark};
use std::alloc::Global;

/// The numbers of the nodes that the ends of an edge name.
#[derive(Clone, Copy)]
pub(crate) struct Ends {
    pub(crate) source: u64,
    pub(crate) target: u64,
}

/// The names of a host: those of its nodes, and which nodes the ends of each edge name, in order.
pub(crate) struct HostNames<'t> {
    pub(crate) nodes: TextNames<'t>,
    pub(crate) ends: Vec<Ends>,
}

impl<'t> Drop for HostNames<'t> {
    fn drop(self) {
        let HostNames { nodes, ends } = self;
        drop(nodes);
        drop(ends);
    }
}

/// Finds the first fault, or gives the names.
pub(crate) fn check<'t>(alloc: Global, tree: &HostTree<'t>) -> Result<HostNames<'t>, HostFault>
    ensures fault { Checks result (first_fault (tree_in tree.now)) }
    ensures names { IfOk result (λ h. h.nodes ≡ node_names (tree_in tree.now)) }
    ensures ends { IfOk result (λ h. AllZip (HasEnds h.nodes) tree.now.edges.items h.ends.items) }
{
    check_numbers(tree)?;
    let nodes = check_node_names(alloc, &tree.nodes)?;
    check_edge_names(alloc, &tree.edges)?;
    let ends = check_ends(alloc, &tree.edges, &nodes)?;
    check_marks(alloc, tree)?;
    Ok(HostNames { nodes, ends })
}

fn check_numbers(tree: &HostTree<'_>) -> Result<(), HostFault>
    ensures { Checks result (option_or (first_found (λ (n : NodeTree). label_fault n.label) tree.now.nodes.items) (first_found (λ (e : EdgeTree). label_fault e.label) tree.now.edges.items)) }
{
    for node in tree.nodes.as_slice() {
        check_label(node.label.as_slice())?;
    }
    for edge in tree.edges.as_slice() {
        check_label(edge.label.as_slice())?;
    }
    Ok(())
}

fn check_label(label: &[AtomTree]) -> Result<(), HostFault>
    ensures { Checks result (label_fault label.now) }
{
    for atom in label {
        check_atom(atom)?;
    }
    Ok(())
}

fn check_atom(atom: &AtomTree) -> Result<(), HostFault>
    ensures { Checks result (atom_fault atom.now) }
{
    if let AtomTree::Number {
        negative,
        start,
        value,
    } = atom
    {
        integer(*negative, value, *start)?;
    }
    Ok(())
}

/// The integer, or the fault that it is out of range.
pub(crate) fn integer(negative: bool, value: &Halves, start: u32) -> Result<i128, HostFault>
    ensures { Finds result (signed negative value.now) (faults.NumberRange start) }
{
    let numeral = Numeral {
        negative,
        value: value.value(),
    };
    match numeral.integer() {
        Some(value) => Ok(value),
        None => Err(HostFault::NumberRange(u64::from(start))),
    }
}

fn check_node_names<'t>(alloc: Global, nodes: &[NodeTree<'t>]) -> Result<TextNames<'t>, HostFault>
    ensures fault { Checks result (option_map faults.TwoNodes (first_doubled (map (λ (n : NodeTree). n.name) nodes.now))) }
    ensures names { IfOk result (λ t. t ≡ map (λ (n : NodeTree). n.name) nodes.now) }
{
    let mut names = TextNames::with_room(alloc, nodes.len())?;
    for node in nodes {
        if !names.add(node.name.as_bytes())? {
            return Err(HostFault::TwoNodes(node.name.copy(alloc)?));
        }
    }
    Ok(names)
}

fn check_edge_names(alloc: Global, edges: &[EdgeTree<'_>]) -> Result<(), HostFault>
    ensures { Checks result (option_map faults.TwoEdges (first_doubled (map (λ (e : EdgeTree). e.name) edges.now))) }
{
    let mut names = TextNames::with_room(alloc, edges.len())?;
    for edge in edges {
        if !names.add(edge.name.as_bytes())? {
            return Err(HostFault::TwoEdges(edge.name.copy(alloc)?));
        }
    }
    Ok(())
}

fn check_ends(
    alloc: Global,
    edges: &[EdgeTree<'_>],
    nodes: &TextNames<'_>,
) -> Result<Vec<Ends>, HostFault>
    ensures fault { Checks result (first_found (ends_fault nodes.now) edges.now) }
    ensures ends { IfOk result (λ ends. AllZip (HasEnds nodes.now) edges.now ends.items) }
{
    let mut ends = Vec::with_capacity(alloc, edges.len())?;
    for edge in edges {
        let source = end(alloc, &edge.source, nodes)?;
        let target = end(alloc, &edge.target, nodes)?;
        put(&mut ends, Ends { source, target })?;
    }
    Ok(ends)
}

// Puts the ends of one edge more behind the others.
fn put(ends: &mut Vec<Ends>, more: Ends) -> Result<(), NoMemory>
    ensures { OnOk result (ends.new.items ≡ ends.old.items ++ more ∷ []) }
{
    ends.push(more)?;
    Ok(())
}

// The number of the node that an end names, or the fault that it names none.
fn end(alloc: Global, name: &Slice<'_>, nodes: &TextNames<'_>) -> Result<u64, HostFault>
    ensures { Finds result (place_of nodes.now name.now) (faults.NoSuchEnd name.now) }
{
    match nodes.place(name.as_bytes()) {
        Some(place) => Ok(place as u64),
        None => Err(HostFault::NoSuchEnd(name.copy(alloc)?)),
    }
}

fn check_marks(alloc: Global, tree: &HostTree<'_>) -> Result<(), HostFault>
    ensures { Checks result (option_or (first_found node_mark_fault tree.now.nodes.items) (first_found edge_mark_fault tree.now.edges.items)) }
{
    for node in tree.nodes.as_slice() {
        node_mark(alloc, node)?;
    }
    for edge in tree.edges.as_slice() {
        edge_mark(alloc, edge)?;
    }
    Ok(())
}

/// The mark of a node, or the fault that its word is none.
pub(crate) fn node_mark(alloc: Global, node: &NodeTree<'_>) -> Result<NodeMark, HostFault>
    ensures { Finds result (node_mark node.now.mark) (faults.WrongMark node.now.name) }
{
    match node_mark_of(&node.mark) {
        Some(mark) => Ok(mark),
        None => Err(HostFault::WrongMark(node.name.copy(alloc)?)),
    }
}

fn node_mark_of(word: &Option<Slice<'_>>) -> Option<NodeMark>
    ensures { result ≡ node_mark word.now }
{
    let Some(word) = word else {
        return Some(NodeMark::None);
    };
    if says(word, b"red") {
        Some(NodeMark::Red)
    } else if says(word, b"green") {
        Some(NodeMark::Green)
    } else if says(word, b"blue") {
        Some(NodeMark::Blue)
    } else if says(word, b"grey") {
        Some(NodeMark::Grey)
    } else {
        None
    }
}

// Whether the word is spelled by these letters.
fn says(word: &Slice<'_>, letters: &[u8]) -> bool
    ensures { result ≡ same_name word.now letters.now }
{
    word.as_bytes() == letters
}

/// The mark of an edge, or the fault that its word is none.
pub(crate) fn edge_mark(alloc: Global, edge: &EdgeTree<'_>) -> Result<EdgeMark, HostFault>
    ensures { Finds result (edge_mark edge.now.mark) (faults.WrongMark edge.now.name) }
{
    match edge_mark_of(&edge.mark) {
        Some(mark) => Ok(mark),
        None => Err(HostFault::WrongMark(edge.name.copy(alloc)?)),
    }
}

fn edge_mark_of(word: &Option<Slice<'_>>) -> Option<EdgeMark>
    ensures { result ≡ edge_mark word.now }
{
    let Some(word) = word else {
        return Some(EdgeMark::None);
    };
    if says(word, b"red") {
        Some(EdgeMark::Red)
    } else if says(word, b"green") {
        Some(EdgeMark::Green)
    } else if says(word, b"blue") {
        Some(EdgeMark::Blue)
    } else if says(word, b"dashed") {
        Some(EdgeMark::Dashed)
    } else {
        None
    }
}
