//! What stays the same while the edits of a step are worked out.

use gp_graph::Graph;
use gp_syntax::{Assignment, Found, RuleParts};
use std::marker::Model;

/// A match that applies by an assignment, over the graph before the step. That it applies is its invariant.
#[derive(Drop)]
pub(crate) struct Scene<'a> {
    pub(crate) parts: &'a RuleParts,
    pub(crate) graph: &'a Graph,
    pub(crate) found: &'a Found,
    pub(crate) assignment: &'a Assignment,
}

impl<'a> Model for Scene<'a> {
    ghost use Rattle.gp_step.specs.inside.Scene.{SceneView, IsReady, scene};

    ghost Value = { SceneView };

    ghost use Rattle.std.specs.Coded.{codes};
    ghost use Rattle.gp_syntax.specs.contracts.rule.RuleParts.{the_row};
    ghost use Rattle.gp_values.specs.Graph.{graph_code};

    ghost coded = { Prim.hlevel (codes, the_row.coded, graph_code) };

    ghost view = { λ s. scene s.parts.now s.graph.now.graph s.found.now s.assignment.now };

    ghost invariant = { λ s. IsReady (scene s.parts.now s.graph.now.graph s.found.now s.assignment.now) };
}
