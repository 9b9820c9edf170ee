//! Makes the graph of a host without faults.

ghost use Rattle.std.specs.Prelude.{◌≡◌, IfOk};
ghost use Rattle.gp_values.specs.Graph.{IsGraph};
ghost use Rattle.gp_hostfile.specs.Host.{atom_of, atoms_of, node_names};
ghost use Rattle.std.specs.List.{AllZip};
ghost use Rattle.gp_hostfile.specs.inside.Stages.{Makes, AreNodes, HasEnds, tree_in, one_node_more, nodes_made, one_edge_more, edges_made, graph_made};

use crate::check::{Ends, HostNames, edge_mark, integer, node_mark};
use crate::fault::HostFault;
use crate::names::TextNames;
use crate::tree::{AtomTree, EdgeTree, HostTree, NodeTree};
use gp_graph::Graph;
use gp_values::{Atom, List};
use std::alloc::Global;

/// The graph of a tree, by its names. Where the tree has no fault, only memory can be wanting. The tree's nodes
/// are let go before its edges are made.
pub(crate) fn build(
    alloc: Global,
    tree: HostTree<'_>,
    names: &HostNames<'_>,
) -> Result<Graph, HostFault>
    requires names { names.now.nodes ≡ node_names (tree_in tree) }
    requires ends { AllZip (HasEnds names.now.nodes) tree.edges.items names.now.ends.items }
    ensures made { Makes (λ g. g.graph) result (graph_made names.now.nodes (tree_in tree.entry)) }
    ensures graph { IfOk result (λ g. IsGraph g.graph) }
{
    let HostTree {
        nodes: node_trees,
        edges: edge_trees,
    } = tree;
    let mut graph = Graph::new(alloc);
    build_nodes(alloc, &node_trees, edge_trees.len() as u64, &mut graph)?;
    drop(node_trees);
    build_edges(alloc, &edge_trees, names, &mut graph)?;
    let _sound = graph.next_numbers();
    Ok(graph)
}

// Makes room for all nodes and for so many edges, and adds the nodes.
fn build_nodes(
    alloc: Global,
    nodes: &[NodeTree<'_>],
    edges: u64,
    graph: &mut Graph,
) -> Result<(), HostFault>
    ensures { Makes (λ _. graph.new.graph) result (nodes_made nodes.now graph.old.graph) }
{
    graph.reserve(nodes.len() as u64, edges)?;
    for node in nodes {
        build_node(alloc, node, graph)?;
    }
    Ok(())
}

fn build_node(alloc: Global, node: &NodeTree<'_>, graph: &mut Graph) -> Result<(), HostFault>
    ensures { Makes (λ _. graph.new.graph) result (one_node_more node.now graph.old.graph) }
{
    let mark = node_mark(alloc, node)?;
    let label = label_list(alloc, node.label.as_slice())?;
    graph.add_node(label, mark, node.root)?;
    Ok(())
}

fn build_edges(
    alloc: Global,
    edges: &[EdgeTree<'_>],
    names: &HostNames<'_>,
    graph: &mut Graph,
) -> Result<(), HostFault>
    requires nodes { AreNodes names.now.nodes graph.old.graph }
    requires ends { AllZip (HasEnds names.now.nodes) edges.now names.now.ends.items }
    ensures { Makes (λ _. graph.new.graph) result (edges_made names.now.nodes edges.now graph.old.graph) }
{
    let ends = names.ends.as_slice();
    'edges: for i in 0..edges.len() {
        build_edge(alloc, &edges[i], &ends[i], &names.nodes, graph)?;
    }
    Ok(())
}

// Adds the edge between the nodes that its ends name.
fn build_edge(
    alloc: Global,
    edge: &EdgeTree<'_>,
    ends: &Ends,
    _nodes: &TextNames<'_>,
    graph: &mut Graph,
) -> Result<(), HostFault>
    requires nodes { AreNodes _nodes.now graph.old.graph }
    requires ends { HasEnds _nodes.now edge.now ends.now }
    ensures made { Makes (λ _. graph.new.graph) result (one_edge_more _nodes.now edge.now graph.old.graph) }
    ensures nodes { AreNodes _nodes.now graph.new.graph }
{
    let mark = edge_mark(alloc, edge)?;
    let label = label_list(alloc, edge.label.as_slice())?;
    graph.add_edge(ends.source, ends.target, label, mark)?;
    Ok(())
}

fn label_list(alloc: Global, label: &[AtomTree]) -> Result<List, HostFault>
    ensures { Makes (λ l. l) result (atoms_of label.now) }
{
    let mut list = List::new(alloc);
    for atom in label {
        let value = atom_value(alloc, atom)?;
        list.push(value)?;
    }
    Ok(list)
}

fn atom_value(alloc: Global, atom: &AtomTree) -> Result<Atom, HostFault>
    ensures { Makes (λ a. a) result (atom_of atom.now) }
{
    match atom {
        AtomTree::Number {
            negative,
            start,
            value,
        } => Ok(Atom::of_integer(integer(*negative, value, *start)?)),
        AtomTree::String(characters) => Ok(Atom::of_string(alloc, characters.get().copy(alloc)?)?),
    }
}
