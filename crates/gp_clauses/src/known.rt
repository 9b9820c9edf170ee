//! Names that are unknown where they stand.

ghost use Rattle.std.specs.Prelude.{◌≡◌};
ghost use Rattle.std.specs.Option.{option_copied, option_or};
ghost use Rattle.gp_values.specs.Names.{has_name};
ghost use Rattle.gp_syntax.specs.Declaration.{node_names};
ghost use Rattle.gp_syntax.specs.Expression.{Variable, In_degree};
ghost use Rattle.gp_syntax.specs.Tree.{side_of, expression_of};
ghost use Rattle.gp_clauses.specs.ConditionShapes.{named_condition};
ghost use Rattle.gp_clauses.specs.inside.Known.{unknown_in, unknown_in_condition};

use crate::condition_shape::{ConditionShape, condition_shape_of};
use crate::marks::node_named;
use crate::shape::{Shape, shape_of};
use gp_syntax::{Cond, Expr, GraphDecl, Name};
use gp_values::NameTable;

/// Which names are asked for, and which of them are known: the nodes of a side, or variables.
#[derive(Clone, Copy)]
pub enum Known<'k> {
    Nodes(&'k GraphDecl),
    Variables(&'k NameTable),
}

/// Whether a side has a node of this name.
pub fn has_node(side: &GraphDecl, name: &Name) -> bool
    ensures { result ≡ has_name (node_names (side_of side.now)) name.now }
{
    node_named(side.nodes.as_slice(), name).is_some()
}

impl<'k> Known<'k> {
    fn unknown_variable<'a>(self, name: &'a Name) -> Option<&'a Name>
        ensures { option_copied result ≡ unknown_in self.entry (Variable name.now) }
    {
        match self {
            Known::Nodes(_) => None,
            Known::Variables(table) => {
                if table.has(name.as_bytes()) {
                    None
                } else {
                    Some(name)
                }
            }
        }
    }

    fn unknown_node<'a>(self, name: &'a Name) -> Option<&'a Name>
        ensures { option_copied result ≡ unknown_in self.entry (In_degree name.now) }
    {
        match self {
            Known::Nodes(side) => {
                if has_node(side, name) {
                    None
                } else {
                    Some(name)
                }
            }
            Known::Variables(_) => None,
        }
    }
}

/// The first name in an expression that is asked for and not known.
pub fn unknown_in<'a>(known: Known<'_>, e: &'a Expr<Name>) -> Option<&'a Name>
    ensures { option_copied result ≡ unknown_in known.entry (expression_of e.now) }
{
    match shape_of(e) {
        Shape::Variable(x) => known.unknown_variable(x),
        Shape::InDegree(n) => known.unknown_node(n),
        Shape::OutDegree(n) => known.unknown_node(n),
        Shape::Length(x) => known.unknown_variable(x),
        Shape::Negated(operand) => unknown_in(known, operand),
        Shape::Chain(first, links) => {
            if let Some(name) = unknown_in(known, first) {
                return Some(name);
            }
            'operands: for at in 0..links.len() {
                let (_, operand) = links.get(at);
                if let Some(name) = unknown_in(known, operand) {
                    return Some(name);
                }
            }
            None
        }
        _ => None,
    }
}

// The first name of the two, where they are asked for and not known.
fn unknown_end<'a>(known: Known<'_>, source: &'a Name, target: &'a Name) -> Option<&'a Name>
    ensures { option_copied result ≡ option_or (unknown_in known.entry (In_degree source.now)) (unknown_in known.entry (In_degree target.now)) }
{
    known.unknown_node(source).or(known.unknown_node(target))
}

/// The first name in a condition that is asked for and not known.
pub fn unknown_in_condition<'a>(
    known: Known<'_>,
    c: &'a Cond<Name, Option<Name>>,
) -> Option<&'a Name>
    ensures { option_copied result ≡ unknown_in_condition known.entry (named_condition c.now) }
{
    match condition_shape_of(c) {
        ConditionShape::HasType(_, e) => unknown_in(known, e),
        ConditionShape::HasEdge(source, target) => unknown_end(known, source, target),
        ConditionShape::HasEdgeWith(source, target, label, _) => {
            unknown_end(known, source, target).or(unknown_in(known, label))
        }
        ConditionShape::Compared(_, d, e) => unknown_in(known, d).or(unknown_in(known, e)),
        ConditionShape::Not(part) => unknown_in_condition(known, part),
        ConditionShape::Chain(_, first, rest) => {
            if let Some(name) = unknown_in_condition(known, first) {
                return Some(name);
            }
            'parts: for part in rest {
                if let Some(name) = unknown_in_condition(known, part) {
                    return Some(name);
                }
            }
            None
        }
    }
}
