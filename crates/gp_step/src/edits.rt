//! Edits that are noted, so that they can be taken back. They take no memory: room is made before.

ghost use Rattle.std.specs.Prelude.{◌≡◌, ◌<◌, ◌≤◌, ◌+◌, ◌-◌, ◌++◌, ◌∷◌, [], List as AnyList, reverse, replicate, length, IsSome, vec_len, vec_capacity};
ghost use Rattle.gp_values.specs.Graph.{HasNoEdges, node_at, edge_at, with_node, with_edge, without_node, without_edge, relabeled, relabeled_edge};
ghost use Rattle.gp_step.specs.declared.inverse.Inverse.{Inverse as AnyInverse};
ghost use Rattle.gp_step.specs.declared.inverse.Inverse.TheVariants as inverses;
ghost use Rattle.gp_step.specs.inside.Changes.{MayDropEdges, MayKeepEdges, MayDropNodes, MayRelabelNodes, MayPutEdges, kept_number, kept_one, with_nodes, with_edges};
ghost use Rattle.gp_step.specs.inside.Changes as meant;
ghost use Rattle.gp_step.specs.inside.Made.{node_of, edge_of, nodes_of, edges_of, kept_pairs};
ghost use Rattle.gp_step.specs.inside.Notes.{KeepsUndo, KeepsUndoBehind};

use crate::inverse::Inverse;
use crate::made::{Carried, Kept, KeptEdge, MadeEdge};
use gp_graph::Graph;
use gp_values::{EdgeMark, List};

// Puts an item at the end, where there is a spare place.
fn push_spare<T: Drop>(items: &mut Vec<T>, item: T)
    requires { vec_len items.old < vec_capacity items.old }
    ensures items { items.new.items ≡ items.old.items ++ item ∷ [] }
    ensures room { vec_capacity items.old - vec_len items.old ≤ (vec_capacity items.new - vec_len items.new) + 1 }
{
    match items.push(item) {
        Ok(()) => (),
        Err(_) => unreachable!(),
    }
}

// Removes an edge.
fn cut_edge(graph: &mut Graph, taken: &mut Vec<Inverse>, e: u64)
    requires there { IsSome (edge_at graph.old.graph e) }
    requires spare { vec_len taken.old < vec_capacity taken.old }
    ensures graph { graph.new.graph ≡ without_edge graph.old.graph e }
    ensures undo { KeepsUndo (reverse taken.old.items) graph.old.graph (reverse taken.new.items) graph.new.graph }
    ensures room { vec_capacity taken.old - vec_len taken.old ≤ (vec_capacity taken.new - vec_len taken.new) + 1 }
    ensures node_room { graph.new.node_room ≡ graph.old.node_room }
    ensures edge_room { graph.new.edge_room ≡ graph.old.edge_room }
{
    let _sound = graph.next_numbers();
    let (source, target, label, mark) = graph.remove_edge(e);
    push_spare(taken, Inverse::PutEdge(e, source, target, label, mark));
}

// Removes a node that has no edges.
fn cut_node(graph: &mut Graph, taken: &mut Vec<Inverse>, n: u64)
    requires there { IsSome (node_at graph.old.graph n) }
    requires no_edges { HasNoEdges graph.old.graph n }
    requires spare { vec_len taken.old < vec_capacity taken.old }
    ensures graph { graph.new.graph ≡ without_node graph.old.graph n }
    ensures undo { KeepsUndo (reverse taken.old.items) graph.old.graph (reverse taken.new.items) graph.new.graph }
    ensures room { vec_capacity taken.old - vec_len taken.old ≤ (vec_capacity taken.new - vec_len taken.new) + 1 }
    ensures node_room { graph.new.node_room ≡ graph.old.node_room }
    ensures edge_room { graph.new.edge_room ≡ graph.old.edge_room }
{
    let _sound = graph.next_numbers();
    let (label, mark, root) = graph.remove_node(n);
    push_spare(taken, Inverse::PutNode(n, label, mark, root));
}

// Lets an edge be, but for the walks over the edges at its ends, which begin behind it as if it had changed.
fn pass_edge(graph: &mut Graph, taken: &mut Vec<Inverse>, number: u64)
    requires there { IsSome (edge_at graph.old.graph number) }
    requires spare { vec_len taken.old < vec_capacity taken.old }
    ensures graph { graph.new.graph ≡ graph.old.graph }
    ensures undo { KeepsUndo (reverse taken.old.items) graph.old.graph (reverse taken.new.items) graph.new.graph }
    ensures room { vec_capacity taken.old - vec_len taken.old ≤ (vec_capacity taken.new - vec_len taken.new) + 1 }
    ensures node_room { graph.new.node_room ≡ graph.old.node_room }
    ensures edge_room { graph.new.edge_room ≡ graph.old.edge_room }
{
    graph.begin_behind(number);
    push_spare(taken, Inverse::BeginAt(number));
}

// Gives an edge what it is to carry.
fn relabel_edge(
    graph: &mut Graph,
    taken: &mut Vec<Inverse>,
    number: u64,
    label: List,
    mark: EdgeMark,
)
    requires there { IsSome (edge_at graph.old.graph number) }
    requires spare { vec_len taken.old < vec_capacity taken.old }
    ensures graph { graph.new.graph ≡ relabeled_edge graph.old.graph number label mark }
    ensures undo { KeepsUndo (reverse taken.old.items) graph.old.graph (reverse taken.new.items) graph.new.graph }
    ensures room { vec_capacity taken.old - vec_len taken.old ≤ (vec_capacity taken.new - vec_len taken.new) + 1 }
    ensures node_room { graph.new.node_room ≡ graph.old.node_room }
    ensures edge_room { graph.new.edge_room ≡ graph.old.edge_room }
{
    let old_mark = match graph.edge(number) {
        Some((_, _, _, found_mark)) => found_mark,
        None => unreachable!(),
    };
    let old_label = graph.relabel_edge(number, label, mark);
    push_spare(taken, Inverse::RelabelEdge(number, old_label, old_mark));
}

// Keeps an edge.
fn keep_edge(graph: &mut Graph, taken: &mut Vec<Inverse>, edge: KeptEdge)
    requires there { IsSome (edge_at graph.old.graph (kept_number edge)) }
    requires spare { vec_len taken.old < vec_capacity taken.old }
    ensures graph { graph.new.graph ≡ kept_one graph.old.graph edge }
    ensures undo { KeepsUndo (reverse taken.old.items) graph.old.graph (reverse taken.new.items) graph.new.graph }
    ensures room { vec_capacity taken.old - vec_len taken.old ≤ (vec_capacity taken.new - vec_len taken.new) + 1 }
    ensures node_room { graph.new.node_room ≡ graph.old.node_room }
    ensures edge_room { graph.new.edge_room ≡ graph.old.edge_room }
{
    match edge {
        KeptEdge::Stays(number) => pass_edge(graph, taken, number),
        KeptEdge::Carries(number, label, mark) => relabel_edge(graph, taken, number, label, mark),
    }
}

// Gives a node what it is to carry.
fn relabel_node(graph: &mut Graph, taken: &mut Vec<Inverse>, kept: Kept)
    requires there { IsSome (node_at graph.old.graph kept.number) }
    requires spare { vec_len taken.old < vec_capacity taken.old }
    ensures graph { graph.new.graph ≡ relabeled graph.old.graph kept.number (node_of kept.carried) }
    ensures undo { KeepsUndo (reverse taken.old.items) graph.old.graph (reverse taken.new.items) graph.new.graph }
    ensures room { vec_capacity taken.old - vec_len taken.old ≤ (vec_capacity taken.new - vec_len taken.new) + 1 }
    ensures node_room { graph.new.node_room ≡ graph.old.node_room }
    ensures edge_room { graph.new.edge_room ≡ graph.old.edge_room }
{
    let Kept {
        number,
        carried: Carried { label, mark, root },
    } = kept;
    let (old_mark, old_root) = match graph.node(number) {
        Some((_, found_mark, found_root)) => (found_mark, found_root),
        None => unreachable!(),
    };
    let old_label = graph.relabel(number, label, mark, root);
    push_spare(
        taken,
        Inverse::Relabel(number, old_label, old_mark, old_root),
    );
}

// Adds a node, for which there is room.
fn add_node(graph: &mut Graph, carried: Carried)
    requires place { 0 < graph.old.node_room }
    ensures graph { graph.new.graph ≡ with_node graph.old.graph (node_of carried) }
    ensures undo { (us : AnyList AnyInverse) → KeepsUndo us graph.old.graph (inverses.DropNode ∷ us) graph.new.graph }
    ensures node_room { graph.old.node_room ≤ graph.new.node_room + 1 }
    ensures edge_room { graph.new.edge_room ≡ graph.old.edge_room }
{
    let _sound = graph.next_numbers();
    let Carried { label, mark, root } = carried;
    let Ok(_number) = graph.add_node(label, mark, root) else {
        unreachable!()
    };
}

// Adds an edge, for which there is room.
fn add_edge(graph: &mut Graph, edge: MadeEdge)
    requires source { IsSome (node_at graph.old.graph edge.source) }
    requires target { IsSome (node_at graph.old.graph edge.target) }
    requires place { 0 < graph.old.edge_room }
    ensures graph { graph.new.graph ≡ with_edge graph.old.graph (edge_of edge) }
    ensures undo { (us : AnyList AnyInverse) → KeepsUndo us graph.old.graph (inverses.DropEdge ∷ us) graph.new.graph }
    ensures edge_room { graph.old.edge_room ≤ graph.new.edge_room + 1 }
{
    let _sound = graph.next_numbers();
    let MadeEdge {
        source,
        target,
        label,
        mark,
    } = edge;
    let Ok(_number) = graph.add_edge(source, target, label, mark) else {
        unreachable!()
    };
}

/// Removes these edges, in order.
pub(crate) fn cut_edges(graph: &mut Graph, taken: &mut Vec<Inverse>, edges: &[u64])
    requires there { MayDropEdges edges.now graph.old.graph }
    requires spare { vec_len taken.old + length edges.now ≤ vec_capacity taken.old }
    ensures graph { graph.new.graph ≡ meant.drop_edges edges.now graph.old.graph }
    ensures undo { KeepsUndo (reverse taken.old.items) graph.old.graph (reverse taken.new.items) graph.new.graph }
    ensures room { vec_capacity taken.old - vec_len taken.old ≤ (vec_capacity taken.new - vec_len taken.new) + length edges.now }
    ensures node_room { graph.new.node_room ≡ graph.old.node_room }
    ensures edge_room { graph.new.edge_room ≡ graph.old.edge_room }
{
    for e in edges {
        cut_edge(graph, taken, *e);
    }
}

/// Keeps these edges, in order.
pub(crate) fn keep_edges(graph: &mut Graph, taken: &mut Vec<Inverse>, kept: &mut Vec<KeptEdge>)
    requires there { MayKeepEdges kept.old.items graph.old.graph }
    requires spare { vec_len taken.old + length kept.old.items ≤ vec_capacity taken.old }
    ensures graph { graph.new.graph ≡ meant.keep_edges kept.old.items graph.old.graph }
    ensures undo { KeepsUndo (reverse taken.old.items) graph.old.graph (reverse taken.new.items) graph.new.graph }
    ensures room { vec_capacity taken.old - vec_len taken.old ≤ (vec_capacity taken.new - vec_len taken.new) + length kept.old.items }
    ensures node_room { graph.new.node_room ≡ graph.old.node_room }
    ensures edge_room { graph.new.edge_room ≡ graph.old.edge_room }
{
    kept.reverse();
    'keeps: while let Some(edge) = kept.pop() {
        keep_edge(graph, taken, edge);
    }
}

/// Removes these nodes, in order.
pub(crate) fn cut_nodes(graph: &mut Graph, taken: &mut Vec<Inverse>, nodes: &[u64])
    requires there { MayDropNodes nodes.now graph.old.graph }
    requires spare { vec_len taken.old + length nodes.now ≤ vec_capacity taken.old }
    ensures graph { graph.new.graph ≡ meant.drop_nodes nodes.now graph.old.graph }
    ensures undo { KeepsUndo (reverse taken.old.items) graph.old.graph (reverse taken.new.items) graph.new.graph }
    ensures room { vec_capacity taken.old - vec_len taken.old ≤ (vec_capacity taken.new - vec_len taken.new) + length nodes.now }
    ensures node_room { graph.new.node_room ≡ graph.old.node_room }
    ensures edge_room { graph.new.edge_room ≡ graph.old.edge_room }
{
    for n in nodes {
        cut_node(graph, taken, *n);
    }
}

/// Gives these nodes what they are to carry, in order.
pub(crate) fn relabel_nodes(graph: &mut Graph, taken: &mut Vec<Inverse>, kept: &mut Vec<Kept>)
    requires there { MayRelabelNodes (kept_pairs kept.old.items) graph.old.graph }
    requires spare { vec_len taken.old + length kept.old.items ≤ vec_capacity taken.old }
    ensures graph { graph.new.graph ≡ meant.relabel_nodes (kept_pairs kept.old.items) graph.old.graph }
    ensures undo { KeepsUndo (reverse taken.old.items) graph.old.graph (reverse taken.new.items) graph.new.graph }
    ensures node_room { graph.new.node_room ≡ graph.old.node_room }
    ensures edge_room { graph.new.edge_room ≡ graph.old.edge_room }
{
    kept.reverse();
    'relabels: while let Some(node) = kept.pop() {
        relabel_node(graph, taken, node);
    }
}

/// Adds nodes that carry this, in order.
pub(crate) fn add_nodes(graph: &mut Graph, nodes: &mut Vec<Carried>)
    requires place { length nodes.old.items ≤ graph.old.node_room }
    ensures graph { graph.new.graph ≡ with_nodes (nodes_of nodes.old.items) graph.old.graph }
    ensures undo { KeepsUndoBehind (length nodes.old.items) inverses.DropNode graph.old.graph graph.new.graph }
    ensures edge_room { graph.new.edge_room ≡ graph.old.edge_room }
{
    nodes.reverse();
    'adds: while let Some(node) = nodes.pop() {
        add_node(graph, node);
    }
}

/// Adds these edges, in order.
pub(crate) fn add_edges(graph: &mut Graph, edges: &mut Vec<MadeEdge>)
    requires there { MayPutEdges (edges_of edges.old.items) graph.old.graph }
    requires place { length edges.old.items ≤ graph.old.edge_room }
    ensures graph { graph.new.graph ≡ with_edges (edges_of edges.old.items) graph.old.graph }
    ensures undo { KeepsUndoBehind (length edges.old.items) inverses.DropEdge graph.old.graph graph.new.graph }
{
    edges.reverse();
    'adds: while let Some(edge) = edges.pop() {
        add_edge(graph, edge);
    }
}
