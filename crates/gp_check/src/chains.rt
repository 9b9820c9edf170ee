//! Chains that grow from the left, operand by operand. What begins with a chain of its own operation goes on in it.

ghost use Rattle.std.specs.Prelude.{◌≡◌, IfOk};
ghost use Rattle.gp_syntax.specs.Expression.{Dot, Join, And, Or};
ghost use Rattle.gp_syntax.specs.Tree.{expression_of, label_of, condition_of, added, multiplied, pattern_of};
ghost use Rattle.gp_clauses.specs.Shapes.{applied};
ghost use Rattle.gp_clauses.specs.ConditionShapes.{connected};
ghost use Rattle.gp_check.specs.inside.Grown.{IsGrown};

use gp_clauses::{Connective, Operation};
use gp_memory::NoMemory;
use gp_syntax::{Boxed, Cond, Expr, Items, MarkPattern, ProductSign, Signed, SimpleLabel, SumSign};
use gp_values::EdgeMark;
use std::alloc::Global;

// The first and the further parts of a chain, with one part more; of any other value, those of a chain that begins with it.
fn grown<T: Drop, P: Drop>(
    alloc: Global,
    total: Result<(Boxed<T>, Items<P>), T>,
    part: P,
) -> Result<(Boxed<T>, Items<P>), NoMemory>
    ensures { IfOk result (λ r. IsGrown total part r) }
{
    let (first, mut rest) = match total {
        Ok(chain) => chain,
        Err(other) => (Boxed::new(alloc, other)?, Items::new(alloc)),
    };
    rest.push(part)?;
    Ok((first, rest))
}

fn summed(
    alloc: Global,
    total: Expr<u32>,
    sign: SumSign,
    operand: Expr<u32>,
) -> Result<Expr<u32>, NoMemory>
    ensures { IfOk result (λ r. expression_of r ≡ added sign (expression_of total) (expression_of operand)) }
{
    let term = Signed { sign, operand };
    let (first, rest) = grown(alloc, total.into_sum(), term)?;
    Ok(Expr::Sum(first, rest))
}

fn multiplied(
    alloc: Global,
    total: Expr<u32>,
    sign: ProductSign,
    operand: Expr<u32>,
) -> Result<Expr<u32>, NoMemory>
    ensures { IfOk result (λ r. expression_of r ≡ multiplied sign (expression_of total) (expression_of operand)) }
{
    let factor = Signed { sign, operand };
    let (first, rest) = grown(alloc, total.into_product(), factor)?;
    Ok(Expr::Product(first, rest))
}

fn dotted(alloc: Global, total: Expr<u32>, part: Expr<u32>) -> Result<Expr<u32>, NoMemory>
    ensures { IfOk result (λ r. expression_of r ≡ Dot (expression_of total) (expression_of part)) }
{
    let (first, rest) = grown(alloc, total.into_dots(), part)?;
    Ok(Expr::Dot(first, rest))
}

fn joined(alloc: Global, total: Expr<u32>, part: Expr<u32>) -> Result<Expr<u32>, NoMemory>
    ensures { IfOk result (λ r. expression_of r ≡ Join (expression_of total) (expression_of part)) }
{
    let (first, rest) = grown(alloc, total.into_joins(), part)?;
    Ok(Expr::Join(first, rest))
}

/// An expression with one operand more.
pub fn with_operand(
    alloc: Global,
    total: Expr<u32>,
    operation: Operation,
    operand: Expr<u32>,
) -> Result<Expr<u32>, NoMemory>
    ensures { IfOk result (λ r. expression_of r ≡ applied operation (expression_of total) (expression_of operand)) }
{
    match operation {
        Operation::Plus => summed(alloc, total, SumSign::Plus, operand),
        Operation::Minus => summed(alloc, total, SumSign::Minus, operand),
        Operation::Times => multiplied(alloc, total, ProductSign::Times, operand),
        Operation::Over => multiplied(alloc, total, ProductSign::Over, operand),
        Operation::Dot => dotted(alloc, total, operand),
        Operation::Join => joined(alloc, total, operand),
    }
}

/// A label with one part of a string more.
pub fn dotted_label(
    alloc: Global,
    total: SimpleLabel,
    part: SimpleLabel,
) -> Result<SimpleLabel, NoMemory>
    ensures { IfOk result (λ r. label_of r ≡ Dot (label_of total) (label_of part)) }
{
    let (first, rest) = grown(alloc, total.into_dots(), part)?;
    Ok(SimpleLabel::Dot(first, rest))
}

/// A label with one part of a list more.
pub fn joined_label(
    alloc: Global,
    total: SimpleLabel,
    part: SimpleLabel,
) -> Result<SimpleLabel, NoMemory>
    ensures { IfOk result (λ r. label_of r ≡ Join (label_of total) (label_of part)) }
{
    let (first, rest) = grown(alloc, total.into_joins(), part)?;
    Ok(SimpleLabel::Join(first, rest))
}

fn both(
    alloc: Global,
    total: Cond<u32, MarkPattern<EdgeMark>>,
    part: Cond<u32, MarkPattern<EdgeMark>>,
) -> Result<Cond<u32, MarkPattern<EdgeMark>>, NoMemory>
    ensures { IfOk result (λ r. condition_of pattern_of r ≡ And (condition_of pattern_of total) (condition_of pattern_of part)) }
{
    let (first, rest) = grown(alloc, total.into_all(), part)?;
    Ok(Cond::And(first, rest))
}

fn either(
    alloc: Global,
    total: Cond<u32, MarkPattern<EdgeMark>>,
    part: Cond<u32, MarkPattern<EdgeMark>>,
) -> Result<Cond<u32, MarkPattern<EdgeMark>>, NoMemory>
    ensures { IfOk result (λ r. condition_of pattern_of r ≡ Or (condition_of pattern_of total) (condition_of pattern_of part)) }
{
    let (first, rest) = grown(alloc, total.into_any(), part)?;
    Ok(Cond::Or(first, rest))
}

/// A condition with one part more.
pub fn with_part(
    alloc: Global,
    total: Cond<u32, MarkPattern<EdgeMark>>,
    by: Connective,
    part: Cond<u32, MarkPattern<EdgeMark>>,
) -> Result<Cond<u32, MarkPattern<EdgeMark>>, NoMemory>
    ensures { IfOk result (λ r. condition_of pattern_of r ≡ connected by (condition_of pattern_of total) (condition_of pattern_of part)) }
{
    match by {
        Connective::And => both(alloc, total, part),
        Connective::Or => either(alloc, total, part),
    }
}
