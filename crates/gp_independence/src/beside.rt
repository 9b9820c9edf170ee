//! Whether a match fits beside others.

ghost use Rattle.std.specs.Prelude.{◌≡◌, All, IfOk, map, true};
ghost use Rattle.gp_syntax.specs.Tree.{rule_of_tree};
ghost use Rattle.gp_independence.specs.Laws.{IsApplying};
ghost use Rattle.gp_independence.specs.inside.Gathered.{Fits, IsBeside};

use crate::independence::independent;
use gp_graph::Graph;
use gp_memory::NoMemory;
use gp_plan::RuleSet;
use gp_syntax::Found;
use std::alloc::Global;

// Whether two matches are one that has no edges: one that has some is not independent of itself.
fn is_same(first: &Found, second: &Found) -> bool
    ensures { result ≡ true → first.now ≡ second.now }
{
    let first_edges = first.edges().len();
    let second_edges = second.edges().len();
    if first_edges != 0 {
        return false;
    }
    if second_edges != 0 {
        return false;
    }
    if first.rule() != second.rule() {
        return false;
    }
    first.nodes() == second.nodes()
}

// Whether two matches that apply are independent, and not one without edges.
fn is_beside(
    alloc: Global,
    rules: &RuleSet<'_>,
    graph: &Graph,
    member: &Found,
    found: &Found,
) -> Result<bool, NoMemory>
    requires member { IsApplying (map rule_of_tree rules.now.rules) graph.now.graph member.now }
    requires found { IsApplying (map rule_of_tree rules.now.rules) graph.now.graph found.now }
    ensures { IfOk result (λ b. IsBeside b (map rule_of_tree rules.now.rules) graph.now.graph member.now found.now) }
{
    if is_same(member, found) {
        return Ok(false);
    }
    let (first, _) = rules.at(member.rule());
    let (second, _) = rules.at(found.rule());
    independent(alloc, first, second, graph, member, found)
}

/// Whether a match that applies is none of those that are held, and independent of each. It is compared with one after
/// another, up to the first beside which it does not fit.
pub(crate) fn fits_beside(
    alloc: Global,
    rules: &RuleSet<'_>,
    graph: &Graph,
    held: &[Found],
    found: &Found,
) -> Result<bool, NoMemory>
    requires held { All (IsApplying (map rule_of_tree rules.now.rules) graph.now.graph) held.now }
    requires found { IsApplying (map rule_of_tree rules.now.rules) graph.now.graph found.now }
    ensures { IfOk result (λ b. Fits b (map rule_of_tree rules.now.rules) graph.now.graph held.now found.now) }
{
    for member in held {
        match is_beside(alloc, rules, graph, member, found) {
            Ok(true) => {}
            Ok(false) => return Ok(false),
            Err(NoMemory) => return Err(NoMemory),
        }
    }
    Ok(true)
}
