//! Expressions and conditions as trees. What they refer to is a parameter: variables and nodes by their names in a
//! declaration, by their places in a checked rule. A chain of one operator has a first operand and further ones.

ghost use Rattle.std.specs.Prelude.{◌≡◌, MatchResult};
ghost use Rattle.gp_syntax.specs.declared.expression.Expr.TheVariants as e;
ghost use Rattle.gp_syntax.specs.declared.expression.Cond.TheVariants as c;

use crate::kinds::{Comparison, VariableType};
use gp_values::Chars;
use sqlite_items::{Boxed, Items};

/// The signs of a sum.
#[derive(Clone, Copy)]
pub enum SumSign {
    Plus,
    Minus,
}

/// The signs of a product.
#[derive(Clone, Copy)]
pub enum ProductSign {
    Times,
    Over,
}

/// A further operand of a sum or a product, with the sign before it.
#[derive(Drop)]
pub struct Signed<S, T> {
    pub sign: S,
    pub operand: T,
}

/// An expression (Plump 2012, section 2: labels). A numeral has its minus in it.
pub enum Expr<R> {
    Number(i128),
    Text(Chars),
    Variable(R),
    InDegree(R),
    OutDegree(R),
    Length(R),
    Empty,
    Negated(Boxed<Expr<R>>),
    Sum(Boxed<Expr<R>>, Items<Signed<SumSign, Expr<R>>>),
    Product(Boxed<Expr<R>>, Items<Signed<ProductSign, Expr<R>>>),
    Dot(Boxed<Expr<R>>, Items<Expr<R>>),
    Join(Boxed<Expr<R>>, Items<Expr<R>>),
}

/// A condition (Plump 2012, section 3). `M` is how the mark of an edge's label is given: by the word that is written, if
/// one is, in a declaration, as a pattern in a checked rule.
pub enum Cond<R, M> {
    HasType(VariableType, Expr<R>),
    HasEdge(R, R),
    HasEdgeWith(R, R, Expr<R>, M),
    Compared(Comparison, Expr<R>, Expr<R>),
    Not(Boxed<Cond<R, M>>),
    And(Boxed<Cond<R, M>>, Items<Cond<R, M>>),
    Or(Boxed<Cond<R, M>>, Items<Cond<R, M>>),
}

// The drops of the trees are written, so that a function that lets a tree go calls them: a derived drop stands in each such
// function, part by part.

impl<R: Drop> Drop for Expr<R> {
    fn drop(self) {
        match self {
            Expr::Number(_) | Expr::Empty => {}
            Expr::Text(text) => drop(text),
            Expr::Variable(at) | Expr::InDegree(at) | Expr::OutDegree(at) | Expr::Length(at) => {
                drop(at)
            }
            Expr::Negated(part) => drop(part),
            Expr::Sum(first, rest) => {
                drop(first);
                drop(rest);
            }
            Expr::Product(first, rest) => {
                drop(first);
                drop(rest);
            }
            Expr::Dot(first, rest) | Expr::Join(first, rest) => {
                drop(first);
                drop(rest);
            }
        }
    }
}

impl<R: Drop, M: Drop> Drop for Cond<R, M> {
    fn drop(self) {
        match self {
            Cond::HasType(_, part) => drop(part),
            Cond::HasEdge(source, target) => {
                drop(source);
                drop(target);
            }
            Cond::HasEdgeWith(source, target, label, mark) => {
                drop(source);
                drop(target);
                drop(label);
                drop(mark);
            }
            Cond::Compared(_, left, right) => {
                drop(left);
                drop(right);
            }
            Cond::Not(part) => drop(part),
            Cond::And(first, rest) | Cond::Or(first, rest) => {
                drop(first);
                drop(rest);
            }
        }
    }
}

impl<R: Drop> Expr<R> {
    /// The first and the further operands of a sum; any other is handed back.
    pub fn into_sum(self) -> Result<(Boxed<Expr<R>>, Items<Signed<SumSign, Expr<R>>>), Expr<R>>
        ensures { MatchResult result (λ p. self ≡ e.Sum p.0 p.1) (λ other. other ≡ self) }
    {
        match self {
            Expr::Sum(first, rest) => Ok((first, rest)),
            other => Err(other),
        }
    }

    /// The first and the further operands of a product; any other is handed back.
    pub fn into_product(
        self,
    ) -> Result<(Boxed<Expr<R>>, Items<Signed<ProductSign, Expr<R>>>), Expr<R>>
        ensures { MatchResult result (λ p. self ≡ e.Product p.0 p.1) (λ other. other ≡ self) }
    {
        match self {
            Expr::Product(first, rest) => Ok((first, rest)),
            other => Err(other),
        }
    }

    /// The first and the further parts of a string; any other is handed back.
    pub fn into_dots(self) -> Result<(Boxed<Expr<R>>, Items<Expr<R>>), Expr<R>>
        ensures { MatchResult result (λ p. self ≡ e.Dot p.0 p.1) (λ other. other ≡ self) }
    {
        match self {
            Expr::Dot(first, rest) => Ok((first, rest)),
            other => Err(other),
        }
    }

    /// The first and the further parts of a list; any other is handed back.
    pub fn into_joins(self) -> Result<(Boxed<Expr<R>>, Items<Expr<R>>), Expr<R>>
        ensures { MatchResult result (λ p. self ≡ e.Join p.0 p.1) (λ other. other ≡ self) }
    {
        match self {
            Expr::Join(first, rest) => Ok((first, rest)),
            other => Err(other),
        }
    }
}

impl<R: Drop, M: Drop> Cond<R, M> {
    /// The first and the further parts that all have to hold; any other is handed back.
    pub fn into_all(self) -> Result<(Boxed<Cond<R, M>>, Items<Cond<R, M>>), Cond<R, M>>
        ensures { MatchResult result (λ p. self ≡ c.And p.0 p.1) (λ other. other ≡ self) }
    {
        match self {
            Cond::And(first, rest) => Ok((first, rest)),
            other => Err(other),
        }
    }

    /// The first and the further parts of which one has to hold; any other is handed back.
    pub fn into_any(self) -> Result<(Boxed<Cond<R, M>>, Items<Cond<R, M>>), Cond<R, M>>
        ensures { MatchResult result (λ p. self ≡ c.Or p.0 p.1) (λ other. other ≡ self) }
    {
        match self {
            Cond::Or(first, rest) => Ok((first, rest)),
            other => Err(other),
        }
    }
}
