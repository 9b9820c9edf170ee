//! The trees of expressions and conditions: what is written of each, and the parts that are left in their order.

use super::tree::{Piece, Writer, type_word};
use gp_syntax::{Comparison, Cond, Expr, Name, ProductSign, Signed, SumSign};

/// Expressions behind one another.
pub(super) fn expressions<'a>(writer: &mut Writer<'a, '_>, expressions: &'a [Expr<Name>]) {
    match expressions.split_first() {
        Some((first, others)) => {
            writer.leave(&[Piece::Expression(first), Piece::Expressions(others)])
        }
        None => (),
    }
}

/// The further operands of a sum, each behind its sign.
pub(super) fn rest_of_sum<'a>(
    writer: &mut Writer<'a, '_>,
    rest: &'a [Signed<SumSign, Expr<Name>>],
) {
    let Some((term, others)) = rest.split_first() else {
        return;
    };
    let sign = match term.sign {
        SumSign::Plus => "+",
        SumSign::Minus => "-",
    };
    let operand = Piece::Expression(&term.operand);
    writer.leave(&[Piece::Word(sign), operand, Piece::Terms(others)])
}

/// The further operands of a product, each behind its sign.
pub(super) fn rest_of_product<'a>(
    writer: &mut Writer<'a, '_>,
    rest: &'a [Signed<ProductSign, Expr<Name>>],
) {
    let Some((factor, others)) = rest.split_first() else {
        return;
    };
    let sign = match factor.sign {
        ProductSign::Times => "*",
        ProductSign::Over => "/",
    };
    let operand = Piece::Expression(&factor.operand);
    writer.leave(&[Piece::Word(sign), operand, Piece::Factors(others)])
}

/// An expression.
pub(super) fn expression<'a>(writer: &mut Writer<'a, '_>, expression: &'a Expr<Name>) {
    match expression {
        Expr::Number(number) => writer.leave(&[Piece::Number(*number)]),
        Expr::Text(chars) => writer.put_string(chars.as_bytes()),
        Expr::Variable(name) => writer.put(name.as_bytes()),
        Expr::InDegree(node) => writer.group("indeg", &[Piece::Name(node)]),
        Expr::OutDegree(node) => writer.group("outdeg", &[Piece::Name(node)]),
        Expr::Length(variable) => writer.group("length", &[Piece::Name(variable)]),
        Expr::Empty => writer.put(b"empty"),
        Expr::Negated(operand) => writer.group("minus", &[Piece::Expression(operand.get())]),
        Expr::Sum(first, rest) => chain(writer, "sum", first.get(), Piece::Terms(rest.as_slice())),
        Expr::Product(first, rest) => {
            chain(
                writer,
                "product",
                first.get(),
                Piece::Factors(rest.as_slice()),
            )
        }
        Expr::Dot(first, rest) => {
            chain(
                writer,
                ".",
                first.get(),
                Piece::Expressions(rest.as_slice()),
            )
        }
        Expr::Join(first, rest) => {
            chain(
                writer,
                ":",
                first.get(),
                Piece::Expressions(rest.as_slice()),
            )
        }
    }
}

fn chain<'a>(writer: &mut Writer<'a, '_>, word: &str, first: &'a Expr<Name>, rest: Piece<'a>) {
    writer.group(word, &[Piece::Expression(first), rest])
}

fn comparison_word(comparison: Comparison) -> &'static str {
    match comparison {
        Comparison::Equal => "=",
        Comparison::NotEqual => "!=",
        Comparison::Less => "<",
        Comparison::LessEqual => "<=",
        Comparison::Greater => ">",
        Comparison::GreaterEqual => ">=",
    }
}

/// Conditions behind one another.
pub(super) fn conditions<'a>(
    writer: &mut Writer<'a, '_>,
    conditions: &'a [Cond<Name, Option<Name>>],
) {
    match conditions.split_first() {
        Some((first, others)) => {
            writer.leave(&[Piece::Condition(first), Piece::Conditions(others)])
        }
        None => (),
    }
}

/// A condition.
pub(super) fn condition<'a>(writer: &mut Writer<'a, '_>, condition: &'a Cond<Name, Option<Name>>) {
    match condition {
        Cond::HasType(wanted, list) => {
            writer.group(type_word(*wanted), &[Piece::Expression(list)])
        }
        Cond::HasEdge(source, target) => {
            writer.group("edge", &[Piece::Name(source), Piece::Name(target)])
        }
        Cond::HasEdgeWith(source, target, label, mark) => {
            let label = Piece::Expression(label);
            let ends = [
                Piece::Name(source),
                Piece::Name(target),
                label,
                Piece::Mark(mark),
            ];
            writer.group("edge", &ends)
        }
        Cond::Compared(comparison, left, right) => {
            chain(
                writer,
                comparison_word(*comparison),
                left,
                Piece::Expression(right),
            )
        }
        Cond::Not(part) => writer.group("not", &[Piece::Condition(part.get())]),
        Cond::And(first, rest) => both(writer, "and", first.get(), rest.as_slice()),
        Cond::Or(first, rest) => both(writer, "or", first.get(), rest.as_slice()),
    }
}

fn both<'a>(
    writer: &mut Writer<'a, '_>,
    word: &str,
    first: &'a Cond<Name, Option<Name>>,
    rest: &'a [Cond<Name, Option<Name>>],
) {
    writer.group(word, &[Piece::Condition(first), Piece::Conditions(rest)])
}
