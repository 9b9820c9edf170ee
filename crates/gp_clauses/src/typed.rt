//! The clause on types, and that on left labels.

ghost use Rattle.std.specs.Prelude.{◌≡◌, ◌||◌, ◌&&◌, not, map};
ghost use Rattle.std.specs.List.{list_all};
ghost use Rattle.gp_syntax.specs.declared.kinds.VariableType.TheVariants as types;
ghost use Rattle.gp_syntax.specs.Declaration.{labels};
ghost use Rattle.gp_syntax.specs.Fault.{is_order, is_of_type, is_well_typed, is_well_typed_condition, is_simple};
ghost use Rattle.gp_syntax.specs.Tree.{expression_of, side_of};
ghost use Rattle.gp_clauses.specs.ConditionShapes.{named_condition};
ghost use Rattle.gp_clauses.specs.inside.Labels.{passes};
ghost use Rattle.gp_clauses.specs.inside.Tables.{type_by};

use crate::condition_shape::{ConditionShape, condition_shape_of};
use crate::facts::{facts_in, is_subtype};
use crate::variables::Variables;
use gp_syntax::{Comparison, Cond, Expr, GraphDecl, Name, VariableType};

/// What is asked of a label: that its operands are of the types that their operations want, or that it is simple.
#[derive(Clone, Copy)]
pub enum LabelClause {
    Typed,
    Simple,
}

// Whether a label keeps a clause.
fn passes(clause: LabelClause, variables: &Variables, label: &Expr<Name>) -> bool
    ensures { result ≡ passes clause (type_by variables.now) (expression_of label.now) }
{
    let facts = facts_in(variables, label);
    match clause {
        LabelClause::Typed => facts.is_typed,
        LabelClause::Simple => facts.is_plain && facts.lists <= 1 && facts.has_one_string,
    }
}

// The operands of a comparison: those of an order are integers.
fn is_well_compared(
    variables: &Variables,
    comparison: Comparison,
    d: &Expr<Name>,
    e: &Expr<Name>,
) -> bool
    ensures { result ≡ ((not (is_order comparison) || is_of_type (type_by variables.now) types.Int (expression_of d.now) && is_of_type (type_by variables.now) types.Int (expression_of e.now)) && is_well_typed (type_by variables.now) (expression_of d.now) && is_well_typed (type_by variables.now) (expression_of e.now)) }
{
    let first = facts_in(variables, d);
    let second = facts_in(variables, e);
    let are_typed = first.is_typed && second.is_typed;
    match comparison {
        Comparison::Equal | Comparison::NotEqual => are_typed,
        _ => {
            is_subtype(first.kind, VariableType::Int)
                && is_subtype(second.kind, VariableType::Int)
                && are_typed
        }
    }
}

/// Whether the operands in a condition are of the types that their operations want.
pub fn is_well_typed_condition(variables: &Variables, c: &Cond<Name, Option<Name>>) -> bool
    ensures { result ≡ is_well_typed_condition (type_by variables.now) (named_condition c.now) }
{
    match condition_shape_of(c) {
        ConditionShape::HasType(_, e) => passes(LabelClause::Typed, variables, e),
        ConditionShape::HasEdge(_, _) => true,
        ConditionShape::HasEdgeWith(_, _, label, _) => {
            passes(LabelClause::Typed, variables, label)
        }
        ConditionShape::Compared(comparison, d, e) => is_well_compared(variables, comparison, d, e),
        ConditionShape::Not(part) => is_well_typed_condition(variables, part),
        ConditionShape::Chain(_, first, rest) => {
            if !is_well_typed_condition(variables, first) {
                return false;
            }
            'parts: for part in rest {
                if !is_well_typed_condition(variables, part) {
                    return false;
                }
            }
            true
        }
    }
}

/// Whether the labels of a side keep a clause.
pub fn labels_pass(clause: LabelClause, variables: &Variables, side: &GraphDecl) -> bool
    ensures { result ≡ list_all (passes clause (type_by variables.now)) (labels (side_of side.now)) }
{
    'nodes: for node in side.nodes.as_slice() {
        if !passes(clause, variables, &node.label) {
            return false;
        }
    }
    'edges: for edge in side.edges.as_slice() {
        if !passes(clause, variables, &edge.label) {
            return false;
        }
    }
    true
}
