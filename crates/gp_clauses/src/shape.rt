//! One layer of an expression: a leaf, a minus, or a chain with an operation before each further operand.

ghost use Rattle.std.specs.Prelude.{◌≡◌, ◌<◌, Some, length, slice_get};
ghost use Rattle.gp_syntax.specs.Tree.{expression_of};
ghost use Rattle.gp_clauses.specs.Shapes.{sum_operation, product_operation, operands, expression_in, IsSmaller};
ghost use Rattle.gp_clauses.specs.Size.{size};

use gp_syntax::{Expr, Name, ProductSign, Signed, SumSign};
use gp_values::Chars;

/// What is done with what stands before an operand, and with the operand.
#[derive(Clone, Copy)]
pub enum Operation {
    Plus,
    Minus,
    Times,
    Over,
    Dot,
    Join,
}

/// The further operands of a chain.
#[derive(Clone, Copy)]
pub enum Links<'a> {
    Sum(&'a [Signed<SumSign, Expr<Name>>]),
    Product(&'a [Signed<ProductSign, Expr<Name>>]),
    Dot(&'a [Expr<Name>]),
    Join(&'a [Expr<Name>]),
}

/// One layer of an expression.
#[derive(Clone, Copy)]
pub enum Shape<'a> {
    Number(&'a i128),
    Text(&'a Chars),
    Variable(&'a Name),
    InDegree(&'a Name),
    OutDegree(&'a Name),
    Length(&'a Name),
    Empty,
    Negated(&'a Expr<Name>),
    Chain(&'a Expr<Name>, Links<'a>),
}

/// The first layer of an expression.
pub fn shape_of(e: &Expr<Name>) -> Shape<'_>
    ensures whole { expression_of e.now ≡ expression_in result }
    ensures smaller { IsSmaller result (size e.now) }
{
    match e {
        Expr::Number(z) => Shape::Number(z),
        Expr::Text(text) => Shape::Text(text),
        Expr::Variable(x) => Shape::Variable(x),
        Expr::InDegree(n) => Shape::InDegree(n),
        Expr::OutDegree(n) => Shape::OutDegree(n),
        Expr::Length(x) => Shape::Length(x),
        Expr::Empty => Shape::Empty,
        Expr::Negated(operand) => Shape::Negated(operand.get()),
        Expr::Sum(first, rest) => Shape::Chain(first.get(), Links::Sum(rest.as_slice())),
        Expr::Product(first, rest) => Shape::Chain(first.get(), Links::Product(rest.as_slice())),
        Expr::Dot(first, rest) => Shape::Chain(first.get(), Links::Dot(rest.as_slice())),
        Expr::Join(first, rest) => Shape::Chain(first.get(), Links::Join(rest.as_slice())),
    }
}

fn sum_operation(sign: SumSign) -> Operation
    ensures { result ≡ sum_operation sign }
{
    match sign {
        SumSign::Plus => Operation::Plus,
        SumSign::Minus => Operation::Minus,
    }
}

fn product_operation(sign: ProductSign) -> Operation
    ensures { result ≡ product_operation sign }
{
    match sign {
        ProductSign::Times => Operation::Times,
        ProductSign::Over => Operation::Over,
    }
}

impl<'a> Links<'a> {
    /// How many further operands there are.
    pub fn len(self) -> usize
        ensures { result ≡ length (operands self.entry) }
    {
        match self {
            Links::Sum(rest) => rest.len(),
            Links::Product(rest) => rest.len(),
            Links::Dot(rest) => rest.len(),
            Links::Join(rest) => rest.len(),
        }
    }

    /// The further operand of a place, and the operation before it.
    pub fn get(self, at: usize) -> (Operation, &'a Expr<Name>)
        requires { at < length (operands self) }
        ensures { slice_get (operands self.entry) at ≡ Some (result.0, result.1.now) }
    {
        match self {
            Links::Sum(rest) => {
                let term = &rest[at];
                (sum_operation(term.sign), &term.operand)
            }
            Links::Product(rest) => {
                let factor = &rest[at];
                (product_operation(factor.sign), &factor.operand)
            }
            Links::Dot(rest) => (Operation::Dot, &rest[at]),
            Links::Join(rest) => (Operation::Join, &rest[at]),
        }
    }
}
