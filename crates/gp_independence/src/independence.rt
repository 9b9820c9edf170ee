//! Whether two matches are independent.

ghost use Rattle.std.specs.Prelude.{IfOk};
ghost use Rattle.std.specs.Bool.{Decides};
ghost use Rattle.gp_syntax.specs.Step.{Applies};
ghost use Rattle.gp_syntax.specs.Tree.{rule_of_tree};
ghost use Rattle.gp_independence.specs.Independent.{Independent};
ghost use Rattle.gp_independence.specs.inside.Shared.{Tells};
ghost use Rattle.gp_independence.specs.declared.shared.Shared.TheVariants.{NodesAlone};

use crate::looks::looks_around;
use crate::preserved::preserves_among;
use crate::shared::{Shared, shared_by};
use gp_graph::Graph;
use gp_memory::NoMemory;
use gp_syntax::{Found, Rule};
use std::alloc::Global;

// Whether two matches that share nodes alone are independent: neither rule asks of edges around them, and both steps
// preserve what is shared.
fn preserve_shared(
    alloc: Global,
    first_rule: &Rule,
    second_rule: &Rule,
    graph: &Graph,
    first: &Found,
    second: &Found,
) -> Result<bool, NoMemory>
    requires first { Applies (rule_of_tree first_rule.now) graph.now.graph first.now }
    requires second { Applies (rule_of_tree second_rule.now) graph.now.graph second.now }
    requires shared { Tells NodesAlone first.now second.now }
    ensures { IfOk result (λ b. Decides b (Independent (rule_of_tree first_rule.now) (rule_of_tree second_rule.now) graph.now.graph first.now second.now)) }
{
    if looks_around(first_rule.parts()) || looks_around(second_rule.parts()) {
        return Ok(false);
    }
    if !preserves_among(alloc, first_rule, graph, first, second.nodes())? {
        return Ok(false);
    }
    preserves_among(alloc, second_rule, graph, second, first.nodes())
}

/// Whether two matches that apply are independent: their steps may then be made in either order, or at the same time.
/// No step is made to tell it. At most two look-ups are made for each image of a node and one for each image of an edge,
/// and the numbers of the one match are compared with those of the other: the size of the graph plays no part. Memory is
/// taken only where the two share nodes and no edge, and neither rule asks of edges outside its match.
pub fn independent(
    alloc: Global,
    first_rule: &Rule,
    second_rule: &Rule,
    graph: &Graph,
    first: &Found,
    second: &Found,
) -> Result<bool, NoMemory>
    requires first { Applies (rule_of_tree first_rule.now) graph.now.graph first.now }
    requires second { Applies (rule_of_tree second_rule.now) graph.now.graph second.now }
    ensures { IfOk result (λ b. Decides b (Independent (rule_of_tree first_rule.now) (rule_of_tree second_rule.now) graph.now.graph first.now second.now)) }
{
    match shared_by(first, second) {
        Shared::Nothing => Ok(true),
        Shared::NodesAlone => {
            preserve_shared(alloc, first_rule, second_rule, graph, first, second)
        }
        Shared::Edges => Ok(false),
    }
}
