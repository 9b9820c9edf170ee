//! The clauses on sizes and on names.

ghost use Rattle.std.specs.Prelude.{◌≡◌, ◌++◌, ◌∷◌, [], Some, None, if◌then◌else◌, map, flat_map, IfOk, option_map};
ghost use Rattle.std.specs.Option.{option_copied, option_or};
ghost use Rattle.gp_values.specs.Names.{has_name, first_doubled, first_doubled_behind, first_unknown};
ghost use Rattle.gp_syntax.specs.Declaration.{DeclaredVariable, node_names, edge_names};
ghost use Rattle.gp_syntax.specs.Fault.{first_told, unless, is_large, too_large, variable_names, twice_declared, unknown_degree, unknown_at_node, unknown_at_edge, unknown_in_side, unknown_node, bad_interface};
ghost use Rattle.gp_syntax.specs.Tree.{node_of, edge_of, side_of, variables_of, declaration_of, condition_or_true, expression_of};
ghost use Rattle.gp_syntax.specs.declared.tree.NodeDecl.{NodeDecl};
ghost use Rattle.gp_clauses.specs.inside.Names.{Doubled, ToldBehind, group_names};
ghost use Rattle.gp_clauses.specs.inside.Known.{unknown_in, unknown_in_condition};

use crate::known::{Known, has_node, unknown_in, unknown_in_condition};
use gp_memory::NoMemory;
use gp_syntax::{Cond, EdgeDecl, GraphDecl, Name, NodeDecl, RuleDecl, VariableGroup};
use gp_values::NameTable;
use std::alloc::Global;

fn is_large(side: &GraphDecl) -> bool
    ensures { result ≡ is_large (side_of side.now) }
{
    side.nodes.len() > 32 || side.edges.len() > 64
}

/// Whether a side has more than 32 nodes or more than 64 edges.
pub fn too_large(rule: &RuleDecl) -> bool
    ensures { result ≡ too_large (declaration_of rule.now) }
{
    is_large(&rule.left) || is_large(&rule.right)
}

// What has a name.
trait Named {
    ghost use Rattle.gp_values.specs.Names.{Name};

    ghost name_of: { Self → Name };

    fn name(&self) -> &Name
        ensures { result.now ≡ name_of self.now };
}

impl Named for Name {
    ghost name_of = { λ n. n };

    fn name(&self) -> &Name {
        self
    }
}

impl Named for NodeDecl {
    ghost name_of = { λ n. n.name };

    fn name(&self) -> &Name {
        &self.name
    }
}

impl Named for EdgeDecl {
    ghost name_of = { λ e. e.name };

    fn name(&self) -> &Name {
        &self.name
    }
}

// Puts names behind those that were seen, up to the first that was seen, and gives that one.
fn see_all<'a, T: Named>(
    alloc: Global,
    seen: &mut NameTable,
    items: &'a [T],
) -> Result<Option<&'a Name>, NoMemory>
    ensures { IfOk result (λ o. Doubled (option_copied o) seen.old seen.new (map T.name_of items.now)) }
{
    for item in items {
        let name = item.name();
        if !seen.add(alloc, name.as_bytes())? {
            return Ok(Some(name));
        }
    }
    Ok(None)
}

#[tactic(auto, using(crate::proofs::Doubles::same_names))]
fn see_group<'a>(
    alloc: Global,
    seen: &mut NameTable,
    group: &'a VariableGroup,
) -> Result<Option<&'a Name>, NoMemory>
    ensures { IfOk result (λ o. Doubled (option_copied o) seen.old seen.new (group_names group.now)) }
{
    if !seen.add(alloc, group.first.as_bytes())? {
        return Ok(Some(&group.first));
    }
    see_all(alloc, seen, group.rest.as_slice())
}

fn doubled_variable(alloc: Global, rule: &RuleDecl) -> Result<Option<&Name>, NoMemory>
    ensures { IfOk result (λ o. option_copied o ≡ first_doubled (variable_names (declaration_of rule.now))) }
{
    let mut seen = NameTable::new(alloc);
    for group in rule.variables.as_slice() {
        if let Some(doubled) = see_group(alloc, &mut seen, group)? {
            return Ok(Some(doubled));
        }
    }
    Ok(None)
}

// The name that was told before, or else the first of these that stood before among them.
fn doubled_among<'a, T: Named>(
    alloc: Global,
    before: Result<Option<&'a Name>, NoMemory>,
    items: &'a [T],
) -> Result<Option<&'a Name>, NoMemory>
    ensures { IfOk result (λ o. ToldBehind before.entry (first_doubled (map T.name_of items.now)) (option_copied o)) }
{
    match before {
        Ok(None) => {
            let mut seen = NameTable::new(alloc);
            see_all(alloc, &mut seen, items)
        }
        Ok(Some(name)) => Ok(Some(name)),
        Err(refused) => Err(refused),
    }
}

/// The first name of a variable, of a node or an edge of its side, or in the interface, that stood before among those of
/// its kind.
pub fn twice_declared(alloc: Global, rule: &RuleDecl) -> Result<Option<&Name>, NoMemory>
    ensures { IfOk result (λ o. option_copied o ≡ twice_declared (declaration_of rule.now)) }
{
    let doubled = doubled_variable(alloc, rule);
    let doubled = doubled_among(alloc, doubled, rule.left.nodes.as_slice());
    let doubled = doubled_among(alloc, doubled, rule.left.edges.as_slice());
    let doubled = doubled_among(alloc, doubled, rule.right.nodes.as_slice());
    let doubled = doubled_among(alloc, doubled, rule.right.edges.as_slice());
    doubled_among(alloc, doubled, rule.interface.as_slice())
}

/// The first name in the labels of nodes that is asked for and not known.
pub fn unknown_at_nodes<'a>(known: Known<'_>, nodes: &'a [NodeDecl]) -> Option<&'a Name>
    ensures { option_copied result ≡ first_told (λ (n : NodeDecl). unknown_in known.entry (expression_of n.label)) nodes.now }
{
    for node in nodes {
        if let Some(name) = unknown_in(known, &node.label) {
            return Some(name);
        }
    }
    None
}

fn unknown_at_edge<'a>(rule: &RuleDecl, side: &GraphDecl, edge: &'a EdgeDecl) -> Option<&'a Name>
    ensures { option_copied result ≡ unknown_at_edge (declaration_of rule.now) (side_of side.now) (edge_of edge.now) }
{
    if !has_node(side, &edge.source) {
        return Some(&edge.source);
    }
    if !has_node(side, &edge.target) {
        return Some(&edge.target);
    }
    unknown_in(Known::Nodes(&rule.left), &edge.label)
}

fn unknown_at_edges<'a>(rule: &RuleDecl, side: &'a GraphDecl) -> Option<&'a Name>
    ensures { option_copied result ≡ first_told (unknown_at_edge (declaration_of rule.now) (side_of side.now)) (side_of side.now).edges }
{
    for edge in side.edges.as_slice() {
        if let Some(name) = unknown_at_edge(rule, side, edge) {
            return Some(name);
        }
    }
    None
}

fn unknown_in_side<'a>(rule: &RuleDecl, side: &'a GraphDecl) -> Option<&'a Name>
    ensures { option_copied result ≡ unknown_in_side (declaration_of rule.now) (side_of side.now) }
{
    unknown_at_nodes(Known::Nodes(&rule.left), side.nodes.as_slice()).or(unknown_at_edges(
        rule, side,
    ))
}

/// The first name in a condition, if there is one, that is asked for and not known.
pub fn unknown_in_tests<'a>(
    known: Known<'_>,
    condition: &'a Option<Cond<Name, Option<Name>>>,
) -> Option<&'a Name>
    ensures { option_copied result ≡ unknown_in_condition known.entry (condition_or_true (λ m. m) condition.now) }
{
    match condition {
        Some(c) => unknown_in_condition(known, c),
        None => None,
    }
}

/// The first end of an edge that is no node of its side, or name in a degree or a test of edges that is no left node.
pub fn unknown_node(rule: &RuleDecl) -> Option<&Name>
    ensures { option_copied result ≡ unknown_node (declaration_of rule.now) }
{
    if let Some(name) = unknown_in_side(rule, &rule.left) {
        return Some(name);
    }
    if let Some(name) = unknown_in_side(rule, &rule.right) {
        return Some(name);
    }
    unknown_in_tests(Known::Nodes(&rule.left), &rule.condition)
}

/// The first name in the interface that is not a node of both sides.
pub fn bad_interface(rule: &RuleDecl) -> Option<&Name>
    ensures { option_copied result ≡ bad_interface (declaration_of rule.now) }
{
    for name in rule.interface.as_slice() {
        if !(has_node(&rule.left, name) && has_node(&rule.right, name)) {
            return Some(name);
        }
    }
    None
}
