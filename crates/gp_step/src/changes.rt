//! The edits of a step, worked out over the graph before it.

ghost use Rattle.std.specs.Prelude.{◌≡◌, false, map, IfOk};
ghost use Rattle.gp_syntax.specs.Assigned.{assigned_of};
ghost use Rattle.gp_syntax.specs.Rule.{kept_edge, kept_nodes, kept_edges};
ghost use Rattle.gp_syntax.specs.Rule as rules;
ghost use Rattle.gp_syntax.specs.Tree.{rule_of_tree, right_node_of, right_edge_of};
ghost use Rattle.gp_step.specs.Edits.{origin_of};
ghost use Rattle.gp_step.specs.Halves.{stays, gone};
ghost use Rattle.gp_step.specs.inside.Changes as meant;
ghost use Rattle.gp_step.specs.inside.Made.{number_of, changes_held};
ghost use Rattle.gp_step.specs.inside.Scene.{rule_at};

use crate::made::{Joined, Placed, made_edges, made_nodes};
use crate::scene::Scene;
use gp_memory::NoMemory;
use gp_syntax::{EdgeImage, RightEdge, RightNode, RuleParts};
use std::alloc::Global;

/// The edits of a step. They are made in this order: edges that go, edges that are kept, nodes that go, nodes that are
/// kept, new nodes and new edges.
pub(crate) struct Changes {
    pub(crate) cut_edges: Vec<u64>,
    pub(crate) cut_nodes: Vec<u64>,
    pub(crate) placed: Placed,
    pub(crate) joined: Joined,
}

impl Drop for Changes {
    fn drop(self) {
        let Changes {
            cut_edges,
            cut_nodes,
            placed,
            joined,
        } = self;
        drop(cut_edges);
        drop(cut_nodes);
        drop(placed);
        drop(joined);
    }
}

// Whether an item of the right side keeps the left one of this place.
fn is_origin(place: usize, origin: Option<u32>) -> bool
    ensures { result ≡ rules.is_origin place origin }
{
    match origin {
        Some(i) => i as usize == place,
        None => false,
    }
}

// Whether the right edge keeps the left one of this place.
fn keeps(parts: &RuleParts, edge: &RightEdge, place: usize) -> bool
    ensures { result ≡ rules.is_origin place (kept_edge (rule_of_tree parts.now) (right_edge_of edge.now)) }
{
    is_origin(place, edge.origin) && parts.kept_edge(edge).is_some()
}

// Whether one of these right nodes keeps the left node of this place.
fn keeps_node(right: &[RightNode], place: usize) -> bool
    ensures { result ≡ stays (map origin_of (map right_node_of right.now)) place }
{
    'right: for q in right {
        if is_origin(place, q.origin) {
            return true;
        }
    }
    false
}

// Whether one of these right edges keeps the left edge of this place.
fn keeps_edge(parts: &RuleParts, right: &[RightEdge], place: usize) -> bool
    ensures { result ≡ stays (map (kept_edge (rule_of_tree parts.now)) (map right_edge_of right.now)) place }
{
    'right: for q in right {
        if keeps(parts, q, place) {
            return true;
        }
    }
    false
}

// The images of the left nodes that are not kept.
fn gone_nodes(alloc: Global, parts: &RuleParts, nodes: &[u64]) -> Result<Vec<u64>, NoMemory>
    ensures { IfOk result (λ v. v.items ≡ gone (stays (kept_nodes (rule_of_tree parts.now))) nodes.now) }
{
    let right = parts.right_nodes.as_slice();
    let mut removed = Vec::new(alloc);
    for (i, n) in nodes.iter().enumerate() {
        if !keeps_node(right, i) {
            removed.push(*n)?;
        }
    }
    Ok(removed)
}

// The images of the left edges that are not kept.
fn gone_edges(alloc: Global, parts: &RuleParts, edges: &[EdgeImage]) -> Result<Vec<u64>, NoMemory>
    ensures { IfOk result (λ v. v.items ≡ gone (stays (kept_edges (rule_of_tree parts.now))) (map number_of edges.now)) }
{
    let right = parts.right_edges.as_slice();
    let mut removed = Vec::new(alloc);
    for (i, image) in edges.iter().enumerate() {
        if !keeps_edge(parts, right, i) {
            removed.push(image.number())?;
        }
    }
    Ok(removed)
}

/// The edits of the step of a match that applies by this assignment.
pub(crate) fn changes_of(alloc: Global, scene: &Scene<'_>) -> Result<Changes, NoMemory>
    ensures { IfOk result (λ p. changes_held scene.now.graph p ≡ meant.changes_of (rule_at scene.now) scene.now.graph scene.now.found (assigned_of scene.now.assignment)) }
{
    let cut_edges = gone_edges(alloc, scene.parts, scene.found.edges())?;
    let cut_nodes = gone_nodes(alloc, scene.parts, scene.found.nodes())?;
    let placed = made_nodes(alloc, scene)?;
    let joined = made_edges(alloc, scene, &placed.images)?;
    Ok(Changes {
        cut_edges,
        cut_nodes,
        placed,
        joined,
    })
}
