//! The variables of a rule that its labels and its condition may name, and the clauses that ask for them.

ghost use Rattle.std.specs.Prelude.{◌≡◌, None, IfOk};
ghost use Rattle.std.specs.Option.{option_copied};
ghost use Rattle.gp_syntax.specs.Declaration.{variables_in};
ghost use Rattle.gp_syntax.specs.Fault.{first_told, twice_declared, variables_in_side, unbound, bad_type, not_simple};
ghost use Rattle.gp_syntax.specs.Tree.{expression_of, side_of, declaration_of};
ghost use Rattle.gp_syntax.specs.declared.tree.EdgeDecl.{EdgeDecl};
ghost use Rattle.gp_values.specs.Names.{first_unknown};
ghost use Rattle.gp_clauses.specs.Scope.{IsScope};

use crate::known::{Known, unknown_in};
use crate::names::{unknown_at_nodes, unknown_in_tests};
use crate::typed::{LabelClause, is_well_typed_condition, labels_pass};
use crate::variables::{Variables, add_side};
use gp_memory::NoMemory;
use gp_syntax::{EdgeDecl, GraphDecl, Name, RuleDecl, VariableType};
use gp_values::NameTable;
use sqlite_items::Items;
use std::alloc::Global;

/// The variables of a rule: those that are declared, and of these the ones that stand in left labels.
pub struct Scope {
    pub declared: Variables,
    pub left: Variables,
}

impl Drop for Scope {
    fn drop(self) {
        let Scope { declared, left } = self;
        drop(declared);
        drop(left);
    }
}

impl Scope {
    /// The variables of a rule that declares no name twice.
    pub fn new(alloc: Global, rule: &RuleDecl) -> Result<Scope, NoMemory>
        requires { twice_declared (declaration_of rule.now) ≡ None }
        ensures { IfOk result (λ s. IsScope (declaration_of rule.now) s) }
    {
        let mut standing = NameTable::new(alloc);
        add_side(alloc, &mut standing, &rule.left)?;
        let declared = Variables::of_groups(alloc, None, rule.variables.as_slice())?;
        let left = Variables::of_groups(alloc, Some(&standing), rule.variables.as_slice())?;
        Ok(Scope { declared, left })
    }

    /// The types of the variables that stand in left labels.
    pub fn into_left_types(self) -> Items<VariableType>
        ensures { result ≡ self.left.types }
    {
        let Scope { declared: _, left } = self;
        left.into_types()
    }
}

// The first variable in the labels of edges that is not in the table.
fn unknown_at_edges<'a>(table: &NameTable, edges: &'a [EdgeDecl]) -> Option<&'a Name>
    ensures { option_copied result ≡ first_told (λ (e : EdgeDecl). first_unknown table.now (variables_in (expression_of e.label))) edges.now }
{
    for edge in edges {
        if let Some(name) = unknown_in(Known::Variables(table), &edge.label) {
            return Some(name);
        }
    }
    None
}

// The first variable in the labels of a side that is not in the table.
fn unknown_in_labels<'a>(table: &NameTable, side: &'a GraphDecl) -> Option<&'a Name>
    ensures { option_copied result ≡ first_unknown table.now (variables_in_side (side_of side.now)) }
{
    unknown_at_nodes(Known::Variables(table), side.nodes.as_slice()).or(unknown_at_edges(
        table,
        side.edges.as_slice(),
    ))
}

/// The first variable that stands in a label or the condition and is not declared, or in a right label or the condition
/// and in no left label.
pub fn unbound<'a>(rule: &'a RuleDecl, scope: &Scope) -> Option<&'a Name>
    requires { IsScope (declaration_of rule.now) scope.now }
    ensures { option_copied result ≡ unbound (declaration_of rule.now) }
{
    if let Some(name) = unknown_in_labels(&scope.declared.names, &rule.left) {
        return Some(name);
    }
    if let Some(name) = unknown_in_labels(&scope.left.names, &rule.right) {
        return Some(name);
    }
    unknown_in_tests(Known::Variables(&scope.left.names), &rule.condition)
}

/// Whether an operand is not of the type that its operation wants.
pub fn bad_type(rule: &RuleDecl, scope: &Scope) -> bool
    requires { IsScope (declaration_of rule.now) scope.now }
    ensures { result ≡ bad_type (declaration_of rule.now) }
{
    let variables = &scope.declared;
    if !labels_pass(LabelClause::Typed, variables, &rule.left) {
        return true;
    }
    if !labels_pass(LabelClause::Typed, variables, &rule.right) {
        return true;
    }
    match &rule.condition {
        Some(c) => !is_well_typed_condition(variables, c),
        None => false,
    }
}

/// Whether a left label has an operation, or more than one occurrence of list variables, or in a string of string
/// variables.
pub fn not_simple(rule: &RuleDecl, scope: &Scope) -> bool
    requires { IsScope (declaration_of rule.now) scope.now }
    ensures { result ≡ not_simple (declaration_of rule.now) }
{
    !labels_pass(LabelClause::Simple, &scope.declared, &rule.left)
}
