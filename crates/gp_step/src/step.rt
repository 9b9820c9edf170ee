//! The edits of a step.

ghost use Rattle.std.specs.Prelude.{◌≡◌, ◌≤◌, ◌+◌, [], length, IfOk, OnOk, OnErr, vec_capacity};
ghost use Rattle.gp_syntax.specs.Assigned.{assigned_of};
ghost use Rattle.gp_syntax.specs.Tree.{rule_of_tree};
ghost use Rattle.gp_step.specs.Undo.{Undoes};
ghost use Rattle.gp_step.specs.Edits.{stepped};
ghost use Rattle.gp_step.specs.inside.Made.{KeepsAs, changes_held};
ghost use Rattle.gp_step.specs.inside.Scene.{IsReady, scene};
ghost use Rattle.gp_step.specs.inside.Changes.{MayMake, drop_edges, made_by};

use crate::changes::{Changes, changes_of};
use crate::edits::{add_edges, add_nodes, cut_edges, cut_nodes, keep_edges, relabel_nodes};
use crate::inverse::Inverse;
use crate::inverses::Undo;
use crate::scene::Scene;
use gp_graph::Graph;
use gp_memory::NoMemory;
use gp_syntax::{Assignment, Found, RuleParts};
use std::alloc::Global;

/// Makes the edits of a step, for which there is room, and keeps what takes them back.
pub(crate) fn make(graph: &mut Graph, room: Vec<Inverse>, changes: Changes) -> Undo
    requires may { MayMake (changes_held graph.old.graph changes) graph.old.graph }
    requires keeps { KeepsAs changes.joined.kept.items graph.old.graph (drop_edges changes.cut_edges.items graph.old.graph) }
    requires none { room.items ≡ [] }
    requires spare { length changes.cut_edges.items + length changes.joined.kept.items + length changes.cut_nodes.items + length changes.placed.kept.items ≤ vec_capacity room }
    requires node_room { length changes.placed.added.items ≤ graph.old.node_room }
    requires edge_room { length changes.joined.added.items ≤ graph.old.edge_room }
    ensures graph { graph.new.graph ≡ made_by (changes_held graph.old.graph changes) graph.old.graph }
    ensures undo { Undoes result graph.new.graph graph.old.graph }
{
    let mut taken = room;
    let mut changes = changes;
    let nodes_made = changes.placed.added.len() as u64;
    let edges_made = changes.joined.added.len() as u64;
    cut_edges(graph, &mut taken, &changes.cut_edges);
    keep_edges(graph, &mut taken, &mut changes.joined.kept);
    cut_nodes(graph, &mut taken, &changes.cut_nodes);
    relabel_nodes(graph, &mut taken, &mut changes.placed.kept);
    add_nodes(graph, &mut changes.placed.added);
    add_edges(graph, &mut changes.joined.added);
    Undo::new(edges_made, nodes_made, taken)
}

/// Makes the step of a match that applies by this assignment. All growths come first: on refusal the graph is as before.
pub(crate) fn apply_by(
    alloc: Global,
    parts: &RuleParts,
    graph: &mut Graph,
    found: &Found,
    assignment: &Assignment,
) -> Result<Undo, NoMemory>
    requires { IsReady (scene parts.now graph.old.graph found.now assignment.now) }
    ensures ok { OnOk result (graph.new.graph ≡ stepped (rule_of_tree parts.now) graph.old.graph found.now (assigned_of assignment.now)) }
    ensures undo { IfOk result (λ u. Undoes u graph.new.graph graph.old.graph) }
    ensures err { OnErr result (graph.new.graph ≡ graph.old.graph) }
{
    let _sound = graph.next_numbers();
    let scene = Scene {
        parts,
        graph,
        found,
        assignment,
    };
    let changes = changes_of(alloc, &scene)?;
    let edges = changes.cut_edges.len() + changes.joined.kept.len();
    let nodes = changes.cut_nodes.len() + changes.placed.kept.len();
    let room = Vec::with_capacity(alloc, edges + nodes)?;
    graph.reserve(
        changes.placed.added.len() as u64,
        changes.joined.added.len() as u64,
    )?;
    Ok(make(graph, room, changes))
}
