//! What the right side is to carry at a match, worked out over the graph before the step.

ghost use Rattle.std.specs.Prelude.{◌≡◌, ◌<◌, ◌++◌, ◌∷◌, [], map, length, true, false, Some, slice_index, IfOk, IfSome, OnOk};
ghost use Rattle.std.specs.Option.{option_map, option_map_or};
ghost use Rattle.gp_values.specs.Graph.{Node as AnyNode, Edge as AnyEdge};
ghost use Rattle.gp_syntax.specs.Step.{found_node, found_edge, left_root};
ghost use Rattle.gp_syntax.specs.Step as meant;
ghost use Rattle.gp_syntax.specs.Rule.{kept_edge};
ghost use Rattle.gp_syntax.specs.Rule as rules;
ghost use Rattle.gp_syntax.specs.Tree.{rule_of_tree, right_node_of, right_edge_of, expression_of, pattern_of};
ghost use Rattle.gp_step.specs.Halves.{image_of, next_of};
ghost use Rattle.gp_step.specs.Edits.{images_of, origin_of};
ghost use Rattle.gp_step.specs.inside.Changes.{kept_first, kept_of, new_first, new_of, carried_by};
ghost use Rattle.gp_step.specs.inside.Made.{node_of, edge_of, nodes_of, edges_of, kept_pairs, kept_edge_pair, kept_edge_pairs};
ghost use Rattle.gp_step.specs.inside.Scene.{IsRightLabel, rule_at, label_at, node_made, edge_made};
ghost use Rattle.gp_step.specs.inside.Same.{IsUnchanged};

use crate::same::{is_mark_kept, is_written_again};
use crate::scene::Scene;
use gp_eval::{Valued, value};
use gp_graph::Graph;
use gp_memory::NoMemory;
use gp_syntax::{Expr, Found, MarkPattern, RightEdge, RightNode, RuleParts};
use gp_values::{EdgeMark, List, NodeMark};
use smallvec::SmallVec;
use std::alloc::Global;

// So many images of right nodes take no memory.
const INLINE_IMAGES: usize = 4;

/// What a node is to carry.
#[derive(Drop)]
pub(crate) struct Carried {
    pub(crate) label: List,
    pub(crate) mark: NodeMark,
    pub(crate) root: bool,
}

/// A node of the interface, by the number of its image, and what it is to carry.
#[derive(Drop)]
pub(crate) struct Kept {
    pub(crate) number: u64,
    pub(crate) carried: Carried,
}

/// An edge that is kept, by its number.
#[derive(Drop)]
pub(crate) enum KeptEdge {
    /// It stays as it is.
    Stays(u64),
    /// It is to carry this.
    Carries(u64, List, EdgeMark),
}

/// An edge that is to be made.
#[derive(Drop)]
pub(crate) struct MadeEdge {
    pub(crate) source: u64,
    pub(crate) target: u64,
    pub(crate) label: List,
    pub(crate) mark: EdgeMark,
}

/// The nodes of the right side: the numbers of their images, in order, and what those of the interface and the new ones
/// are to carry.
pub(crate) struct Placed {
    pub(crate) images: SmallVec<u64, { INLINE_IMAGES }>,
    pub(crate) kept: Vec<Kept>,
    pub(crate) added: Vec<Carried>,
    next: u64,
}

impl Drop for Placed {
    fn drop(self) {
        let Placed {
            images,
            kept,
            added,
            next: _,
        } = self;
        drop(images);
        drop(kept);
        drop(added);
    }
}

/// The edges of the right side: what those that are kept are to carry, and the new ones.
pub(crate) struct Joined {
    pub(crate) kept: Vec<KeptEdge>,
    pub(crate) added: Vec<MadeEdge>,
}

impl Drop for Joined {
    fn drop(self) {
        let Joined { kept, added } = self;
        drop(kept);
        drop(added);
    }
}

// The value of a right label, which has one where the match applies.
fn label_of(alloc: Global, scene: &Scene<'_>, label: &Expr<u32>) -> Result<List, NoMemory>
    requires { IsRightLabel scene.now (expression_of label.now) }
    ensures { IfOk result (λ l. l ≡ label_at scene.now (expression_of label.now)) }
{
    match value(
        alloc,
        label,
        scene.assignment,
        scene.found.nodes(),
        scene.graph,
    ) {
        Valued::Value(list) => Ok(list),
        Valued::NoValue(_) => unreachable!(),
        Valued::NoMemory => Err(NoMemory),
    }
}

// The mark that a right item gets, where this mark was found.
fn mark_of<M: Copy>(pattern: MarkPattern<M>, found: Option<M>, none: M) -> M
    ensures { result ≡ meant.made_mark (pattern_of pattern) found none }
{
    match (pattern, found) {
        (MarkPattern::Marked(mark), _) => mark,
        (MarkPattern::Any, Some(mark)) => mark,
        (MarkPattern::Any, None) => none,
    }
}

// The mark of the image of a left node, and whether it is a root.
fn found_at(graph: &Graph, found: &Found, origin: Option<u32>) -> (Option<NodeMark>, bool)
    requires { IfSome origin (λ i. i < length found.now.nodes) }
    ensures mark { result.0 ≡ option_map (λ (y : AnyNode). y.mark) (found_node graph.now.graph found.now origin) }
    ensures root { result.1 ≡ option_map_or (λ (y : AnyNode). y.root) (found_node graph.now.graph found.now origin) false }
{
    match origin {
        Some(i) => match graph.node(found.nodes()[i as usize]) {
            Some((_, mark, root)) => (Some(mark), root),
            None => (None, false),
        },
        None => (None, false),
    }
}

// Whether the left node is a root.
fn was_root(parts: &RuleParts, origin: Option<u32>) -> bool
    requires { IfSome origin (λ i. i < length parts.now.left_nodes) }
    ensures { result ≡ left_root (rule_of_tree parts.now) origin }
{
    match origin {
        Some(i) => parts.left_nodes.as_slice()[i as usize].root,
        None => false,
    }
}

// What a right node is to carry.
fn made_node(alloc: Global, scene: &Scene<'_>, q: &RightNode) -> Result<Carried, NoMemory>
    requires label { IsRightLabel scene.now (expression_of q.now.label) }
    requires origin { IfSome q.now.origin (λ i. i < length scene.now.parts.left_nodes) }
    ensures { IfOk result (λ x. node_of x ≡ node_made scene.now (right_node_of q.now)) }
{
    let label = label_of(alloc, scene, &q.label)?;
    let (found_mark, found_root) = found_at(scene.graph, scene.found, q.origin);
    let left_root = was_root(scene.parts, q.origin);
    Ok(Carried {
        label,
        mark: mark_of(q.mark, found_mark, NodeMark::None),
        root: q.root || (found_root && !left_root),
    })
}

// Puts one more right node at the end. On refusal it may be there in part.
fn place(
    placed: &mut Placed,
    found: &Found,
    origin: Option<u32>,
    carried: Carried,
) -> Result<(), NoMemory>
    requires { IfSome origin (λ i. i < length found.now.nodes) }
    ensures images { OnOk result (placed.new.images.items ≡ placed.old.images.items ++ image_of found.now.nodes origin placed.old.next ∷ []) }
    ensures next { OnOk result (placed.new.next ≡ next_of origin placed.old.next) }
    ensures kept { OnOk result (kept_pairs placed.new.kept.items ≡ kept_pairs placed.old.kept.items ++ kept_first found.now.nodes origin (node_of carried) []) }
    ensures added { OnOk result (nodes_of placed.new.added.items ≡ nodes_of placed.old.added.items ++ new_first origin (node_of carried) []) }
{
    match origin {
        Some(i) => {
            let number = found.nodes()[i as usize];
            placed.kept.push(Kept { number, carried })?;
            placed.images.push(number)?;
        }
        None => {
            let Some(next) = placed.next.checked_add(1) else {
                // A graph of 2^64 nodes is not to be had.
                return Err(NoMemory);
            };
            placed.added.push(carried)?;
            placed.images.push(placed.next)?;
            placed.next = next;
        }
    }
    Ok(())
}

/// What the right nodes are to carry, and where they are.
pub(crate) fn made_nodes(alloc: Global, scene: &Scene<'_>) -> Result<Placed, NoMemory>
    ensures images { IfOk result (λ p. p.images.items ≡ images_of (rule_at scene.now) scene.now.graph scene.now.found) }
    ensures kept { IfOk result (λ p. kept_pairs p.kept.items ≡ kept_of scene.now.found.nodes origin_of (node_made scene.now) (map right_node_of scene.now.parts.right_nodes)) }
    ensures added { IfOk result (λ p. nodes_of p.added.items ≡ new_of origin_of (node_made scene.now) (map right_node_of scene.now.parts.right_nodes)) }
{
    let (next, _) = scene.graph.next_numbers();
    let mut placed = Placed {
        images: SmallVec::new(alloc),
        kept: Vec::new(alloc),
        added: Vec::new(alloc),
        next,
    };
    for q in scene.parts.right_nodes.as_slice() {
        let carried = made_node(alloc, scene, q)?;
        place(&mut placed, scene.found, q.origin, carried)?;
    }
    Ok(placed)
}

// The mark of the image of a left edge.
fn found_mark(graph: &Graph, found: &Found, origin: Option<u32>) -> Option<EdgeMark>
    requires { IfSome origin (λ i. i < length found.now.edges) }
    ensures { result ≡ option_map (λ (d : AnyEdge). d.mark) (found_edge graph.now.graph found.now origin) }
{
    match origin {
        Some(i) => match graph.edge(found.edges()[i as usize].number()) {
            Some((_, _, _, mark)) => Some(mark),
            None => None,
        },
        None => None,
    }
}

// Whether a right edge begins at the image of its target.
fn is_exchanged(found: &Found, q: &RightEdge) -> bool
    requires { IfSome q.now.origin (λ i. i < length found.now.edges) }
    ensures { result ≡ meant.is_exchanged found.now (right_edge_of q.now) }
{
    let reversed = match q.origin {
        Some(i) => found.edges()[i as usize].reversed(),
        None => false,
    };
    q.bidirectional && reversed != q.turned
}

// The edge that a right edge makes.
fn made_edge(
    alloc: Global,
    scene: &Scene<'_>,
    images: &[u64],
    q: &RightEdge,
) -> Result<MadeEdge, NoMemory>
    requires label { IsRightLabel scene.now (expression_of q.now.label) }
    requires origin { IfSome q.now.origin (λ i. i < length scene.now.found.edges) }
    requires source { q.now.source < length images.now }
    requires target { q.now.target < length images.now }
    ensures { IfOk result (λ d. edge_of d ≡ edge_made scene.now images.now (right_edge_of q.now)) }
{
    let label = label_of(alloc, scene, &q.label)?;
    let mark = mark_of(
        q.mark,
        found_mark(scene.graph, scene.found, q.origin),
        EdgeMark::None,
    );
    let source = images[q.source as usize];
    let target = images[q.target as usize];
    if is_exchanged(scene.found, q) {
        Ok(MadeEdge {
            source: target,
            target: source,
            label,
            mark,
        })
    } else {
        Ok(MadeEdge {
            source,
            target,
            label,
            mark,
        })
    }
}

// Whether a right edge has the label and the mark of the left edge of this place, as they are written.
fn is_unchanged(parts: &RuleParts, place: u32, q: &RightEdge) -> bool
    requires { place < length parts.now.left_edges }
    ensures { result ≡ true → IsUnchanged parts.now place q.now }
{
    let left = &parts.left_edges.as_slice()[place as usize];
    is_mark_kept(left.mark, q.mark) && is_written_again(&left.label, &q.label)
}

// What the edge that a right edge keeps is to carry. Where it is what the left edge says, no label is valued.
fn carried_edge(
    alloc: Global,
    scene: &Scene<'_>,
    place: u32,
    q: &RightEdge,
) -> Result<KeptEdge, NoMemory>
    requires label { IsRightLabel scene.now (expression_of q.now.label) }
    requires keeps { kept_edge (rule_at scene.now) (right_edge_of q.now) ≡ Some place }
    requires within { place < length scene.now.found.edges }
    ensures { IfOk result (λ k. kept_edge_pair scene.now.graph k ≡ (slice_index scene.now.found.edges place, carried_by (edge_made scene.now [] (right_edge_of q.now)))) }
{
    let number = scene.found.edges()[place as usize].number();
    if is_unchanged(scene.parts, place, q) {
        return Ok(KeptEdge::Stays(number));
    }
    let label = label_of(alloc, scene, &q.label)?;
    let mark = mark_of(
        q.mark,
        found_mark(scene.graph, scene.found, q.origin),
        EdgeMark::None,
    );
    Ok(KeptEdge::Carries(number, label, mark))
}

/// What the right edges are to carry, and the new ones among them, between these images of the right nodes.
pub(crate) fn made_edges(
    alloc: Global,
    scene: &Scene<'_>,
    images: &[u64],
) -> Result<Joined, NoMemory>
    requires { length images.now ≡ length scene.now.parts.right_nodes }
    ensures kept { IfOk result (λ j. kept_edge_pairs scene.now.graph j.kept.items ≡ kept_of scene.now.found.edges (kept_edge (rule_at scene.now)) (λ (q : rules.RightEdge). carried_by (edge_made scene.now images.now q)) (map right_edge_of scene.now.parts.right_edges)) }
    ensures added { IfOk result (λ j. edges_of j.added.items ≡ new_of (kept_edge (rule_at scene.now)) (edge_made scene.now images.now) (map right_edge_of scene.now.parts.right_edges)) }
{
    let mut joined = Joined {
        kept: Vec::new(alloc),
        added: Vec::new(alloc),
    };
    for q in scene.parts.right_edges.as_slice() {
        match scene.parts.kept_edge(q) {
            Some(place) => {
                let edge = carried_edge(alloc, scene, place, q)?;
                joined.kept.push(edge)?;
            }
            None => {
                let edge = made_edge(alloc, scene, images, q)?;
                joined.added.push(edge)?;
            }
        }
    }
    Ok(joined)
}
