//! Expressions and left labels with places in place of names.

ghost use Rattle.std.specs.Prelude.{◌≡◌, true, IfOk};
ghost use Rattle.gp_syntax.specs.Expression.{Number, Negated};
ghost use Rattle.gp_clauses.specs.Facts.{is_numeral};
ghost use Rattle.gp_syntax.specs.Fault.{has_no_operation};
ghost use Rattle.gp_syntax.specs.Tree.{expression_of, label_of};
ghost use Rattle.gp_clauses.specs.Shapes.{applied};
ghost use Rattle.gp_check.specs.inside.Placed.{placed_in, numeral, IsJoining};

use crate::chains::{dotted_label, joined_label, with_operand};
use crate::places::Places;
use gp_clauses::{Operation, Shape, shape_of};
use gp_memory::NoMemory;
use gp_syntax::{Boxed, Expr, Name, SimpleLabel};
use std::alloc::Global;

fn number(z: &i128) -> Expr<u32>
    ensures { expression_of result ≡ Number z.now }
{
    Expr::Number(*z)
}

fn number_label(z: &i128) -> SimpleLabel
    ensures { label_of result ≡ Number z.now }
{
    SimpleLabel::Number(*z)
}

fn negated_number(z: &i128) -> SimpleLabel
    ensures { label_of result ≡ Negated (Number z.now) }
{
    SimpleLabel::NegatedNumber(*z)
}

/// An expression with places in place of names.
pub fn placed(alloc: Global, places: Places<'_>, e: &Expr<Name>) -> Result<Expr<u32>, NoMemory>
    ensures { IfOk result (λ r. expression_of r ≡ placed_in places.entry (expression_of e.now)) }
{
    match shape_of(e) {
        Shape::Number(z) => Ok(number(z)),
        Shape::Text(text) => Ok(Expr::Text(text.copy(alloc)?)),
        Shape::Variable(x) => Ok(Expr::Variable(places.variable(x)?)),
        Shape::InDegree(n) => Ok(Expr::InDegree(places.node(n)?)),
        Shape::OutDegree(n) => Ok(Expr::OutDegree(places.node(n)?)),
        Shape::Length(x) => Ok(Expr::Length(places.variable(x)?)),
        Shape::Empty => Ok(Expr::Empty),
        Shape::Negated(operand) => {
            let negated = placed(alloc, places, operand)?;
            Ok(Expr::Negated(Boxed::new(alloc, negated)?))
        }
        Shape::Chain(first, links) => {
            let mut total = placed(alloc, places, first)?;
            'operands: for at in 0..links.len() {
                let (operation, operand) = links.get(at);
                let next = placed(alloc, places, operand)?;
                total = with_operand(alloc, total, operation, next)?;
            }
            Ok(total)
        }
    }
}

// A label with one part more.
fn with_label(
    alloc: Global,
    total: SimpleLabel,
    operation: Operation,
    part: SimpleLabel,
) -> Result<SimpleLabel, NoMemory>
    requires { IsJoining operation }
    ensures { IfOk result (λ r. label_of r ≡ applied operation (label_of total) (label_of part)) }
{
    match operation {
        Operation::Dot => dotted_label(alloc, total, part),
        Operation::Join => joined_label(alloc, total, part),
        _ => unreachable!(),
    }
}

// Minus a numeral.
fn negated_label(operand: &Expr<Name>) -> SimpleLabel
    requires { is_numeral (expression_of operand.now) ≡ true }
    ensures { label_of result ≡ numeral (Negated (expression_of operand.now)) }
{
    match shape_of(operand) {
        Shape::Number(z) => negated_number(z),
        Shape::Chain(first, _) => negated_label(first),
        _ => unreachable!(),
    }
}

/// A left label, which has no operation but `.`, `:` and a minus on a numeral, with places in place of names.
pub fn label(alloc: Global, places: Places<'_>, e: &Expr<Name>) -> Result<SimpleLabel, NoMemory>
    requires { has_no_operation (expression_of e.now) ≡ true }
    ensures { IfOk result (λ l. label_of l ≡ placed_in places.entry (expression_of e.now)) }
{
    match shape_of(e) {
        Shape::Number(z) => Ok(number_label(z)),
        Shape::Text(text) => Ok(SimpleLabel::Text(text.copy(alloc)?)),
        Shape::Variable(x) => Ok(SimpleLabel::Variable(places.variable(x)?)),
        Shape::Empty => Ok(SimpleLabel::Empty),
        Shape::Negated(operand) => Ok(negated_label(operand)),
        Shape::Chain(first, links) => {
            let mut total = label(alloc, places, first)?;
            'operands: for at in 0..links.len() {
                let (operation, operand) = links.get(at);
                let next = label(alloc, places, operand)?;
                total = with_label(alloc, total, operation, next)?;
            }
            Ok(total)
        }
        _ => unreachable!(),
    }
}
