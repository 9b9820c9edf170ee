//! Values of expressions.

ghost use Rattle.std.specs.Prelude.{◌≡◌, length, fold, All};
ghost use Rattle.gp_syntax.specs.Tree.{expression_of};
ghost use Rattle.gp_syntax.specs.Value.{value_of};
ghost use Rattle.gp_syntax.specs.WellFormed.{IsWithin};
ghost use Rattle.gp_syntax.specs.Assigned.{IsWhole};
ghost use Rattle.gp_eval.specs.Answer.{Tells, setting, AreNodes};
ghost use Rattle.gp_eval.specs.inside.Chains.{Gives, counted, sum_step, product_step, dot_step, join_step};

use crate::arithmetic::{
    add_text, added, begin_text, counted, end_text, joined, listed, multiplied, negated, number,
    string,
};
use crate::leaf::{assigned, in_degree_of, length_of, out_degree_of, read};
use crate::valued::{Missing, Valued};
use gp_graph::Graph;
use gp_syntax::{Assignment, Expr, ProductSign, Signed, SumSign};
use gp_values::List;
use std::alloc::Global;

/// The value of an expression of a checked rule, where every variable has its value and `nodes` are the images of the
/// left nodes.
pub fn value(
    alloc: Global,
    e: &Expr<u32>,
    assignment: &Assignment,
    nodes: &[u64],
    graph: &Graph,
) -> Valued<List>
    requires within { IsWithin (length assignment.now.types) (length nodes.now) (expression_of e.now) }
    requires whole { IsWhole assignment.now }
    requires nodes { AreNodes graph.now.graph nodes.now }
    ensures { Tells result (value_of (expression_of e.now) (setting assignment.now nodes.now graph.now.graph)) }
{
    match eval(alloc, e, assignment, nodes, graph) {
        Ok(list) => Valued::Value(list),
        Err(Missing::NoValue(kind)) => Valued::NoValue(kind),
        Err(Missing::NoMemory) => Valued::NoMemory,
    }
}

/// The value, for `?`.
#[cycle(eval)]
pub fn eval(
    alloc: Global,
    e: &Expr<u32>,
    assignment: &Assignment,
    nodes: &[u64],
    graph: &Graph,
) -> Result<List, Missing>
    requires within { IsWithin (length assignment.now.types) (length nodes.now) (expression_of e.now) }
    requires whole { IsWhole assignment.now }
    requires nodes { AreNodes graph.now.graph nodes.now }
    ensures { Gives result (value_of (expression_of e.now) (setting assignment.now nodes.now graph.now.graph)) }
{
    match e {
        Expr::Number(z) => number(alloc, z),
        Expr::Text(text) => string(alloc, text),
        Expr::Variable(x) => assigned(alloc, assignment, *x),
        Expr::InDegree(n) => number(alloc, &in_degree_of(nodes, graph, *n)),
        Expr::OutDegree(n) => number(alloc, &out_degree_of(nodes, graph, *n)),
        Expr::Length(x) => number(alloc, &length_of(assignment, *x)),
        Expr::Empty => Ok(List::new(alloc)),
        Expr::Negated(operand) => {
            let x = eval_integer(alloc, operand.get(), assignment, nodes, graph);
            listed(alloc, negated(x))
        }
        Expr::Sum(first, rest) => {
            if rest.is_empty() {
                return eval(alloc, first.get(), assignment, nodes, graph);
            }
            let rest = rest.as_slice();
            let sum = eval_sum(alloc, first.get(), rest, assignment, nodes, graph);
            listed(alloc, sum)
        }
        Expr::Product(first, rest) => {
            if rest.is_empty() {
                return eval(alloc, first.get(), assignment, nodes, graph);
            }
            let rest = rest.as_slice();
            let product = eval_product(alloc, first.get(), rest, assignment, nodes, graph);
            listed(alloc, product)
        }
        Expr::Dot(first, rest) => {
            let rest = rest.as_slice();
            eval_dot(alloc, first.get(), rest, assignment, nodes, graph)
        }
        Expr::Join(first, rest) => {
            let rest = rest.as_slice();
            eval_join(alloc, first.get(), rest, assignment, nodes, graph)
        }
    }
}

/// The integer of the value, without its list where it is a number.
#[cycle(eval)]
pub fn eval_integer(
    alloc: Global,
    e: &Expr<u32>,
    assignment: &Assignment,
    nodes: &[u64],
    graph: &Graph,
) -> Result<i128, Missing>
    requires within { IsWithin (length assignment.now.types) (length nodes.now) (expression_of e.now) }
    requires whole { IsWhole assignment.now }
    requires nodes { AreNodes graph.now.graph nodes.now }
    ensures { Gives result (counted (value_of (expression_of e.now) (setting assignment.now nodes.now graph.now.graph))) }
{
    if let Some(z) = read(e, assignment, nodes, graph) {
        return Ok(z);
    }
    match e {
        Expr::Negated(operand) => {
            negated(eval_integer(alloc, operand.get(), assignment, nodes, graph))
        }
        Expr::Sum(first, rest) => {
            let rest = rest.as_slice();
            eval_sum(alloc, first.get(), rest, assignment, nodes, graph)
        }
        Expr::Product(first, rest) => {
            let rest = rest.as_slice();
            eval_product(alloc, first.get(), rest, assignment, nodes, graph)
        }
        _ => counted(eval(alloc, e, assignment, nodes, graph)),
    }
}

// The integer of a sum. Operands behind one without a value are not valued.
#[cycle(eval)]
fn eval_sum(
    alloc: Global,
    first: &Expr<u32>,
    rest: &[Signed<SumSign, Expr<u32>>],
    assignment: &Assignment,
    nodes: &[u64],
    graph: &Graph,
) -> Result<i128, Missing>
    requires first { IsWithin (length assignment.now.types) (length nodes.now) (expression_of first.now) }
    requires rest { All (λ t. IsWithin (length assignment.now.types) (length nodes.now) (expression_of t.operand)) rest.now }
    requires whole { IsWhole assignment.now }
    requires nodes { AreNodes graph.now.graph nodes.now }
    ensures { Gives result (counted (fold (sum_step (setting assignment.now nodes.now graph.now.graph)) (value_of (expression_of first.now) (setting assignment.now nodes.now graph.now.graph)) rest.now)) }
{
    let mut total = eval_integer(alloc, first, assignment, nodes, graph)?;
    'terms: for term in rest {
        let y = eval_integer(alloc, &term.operand, assignment, nodes, graph)?;
        total = added(term.sign, total, y)?;
    }
    Ok(total)
}

// The integer of a product. Operands behind one without a value are not valued.
#[cycle(eval)]
fn eval_product(
    alloc: Global,
    first: &Expr<u32>,
    rest: &[Signed<ProductSign, Expr<u32>>],
    assignment: &Assignment,
    nodes: &[u64],
    graph: &Graph,
) -> Result<i128, Missing>
    requires first { IsWithin (length assignment.now.types) (length nodes.now) (expression_of first.now) }
    requires rest { All (λ t. IsWithin (length assignment.now.types) (length nodes.now) (expression_of t.operand)) rest.now }
    requires whole { IsWhole assignment.now }
    requires nodes { AreNodes graph.now.graph nodes.now }
    ensures { Gives result (counted (fold (product_step (setting assignment.now nodes.now graph.now.graph)) (value_of (expression_of first.now) (setting assignment.now nodes.now graph.now.graph)) rest.now)) }
{
    let mut total = eval_integer(alloc, first, assignment, nodes, graph)?;
    'factors: for factor in rest {
        let y = eval_integer(alloc, &factor.operand, assignment, nodes, graph)?;
        total = multiplied(factor.sign, total, y)?;
    }
    Ok(total)
}

#[cycle(eval)]
fn eval_dot(
    alloc: Global,
    first: &Expr<u32>,
    rest: &[Expr<u32>],
    assignment: &Assignment,
    nodes: &[u64],
    graph: &Graph,
) -> Result<List, Missing>
    requires first { IsWithin (length assignment.now.types) (length nodes.now) (expression_of first.now) }
    requires rest { All (λ t. IsWithin (length assignment.now.types) (length nodes.now) (expression_of t)) rest.now }
    requires whole { IsWhole assignment.now }
    requires nodes { AreNodes graph.now.graph nodes.now }
    ensures { Gives result (fold (dot_step (setting assignment.now nodes.now graph.now.graph)) (value_of (expression_of first.now) (setting assignment.now nodes.now graph.now.graph)) rest.now) }
{
    let head = eval(alloc, first, assignment, nodes, graph)?;
    if rest.is_empty() {
        return Ok(head);
    }
    let mut codes = begin_text(alloc, &head)?;
    'parts: for part in rest {
        let y = eval(alloc, part, assignment, nodes, graph)?;
        codes = add_text(codes, &y)?;
    }
    end_text(alloc, codes)
}

#[cycle(eval)]
fn eval_join(
    alloc: Global,
    first: &Expr<u32>,
    rest: &[Expr<u32>],
    assignment: &Assignment,
    nodes: &[u64],
    graph: &Graph,
) -> Result<List, Missing>
    requires first { IsWithin (length assignment.now.types) (length nodes.now) (expression_of first.now) }
    requires rest { All (λ t. IsWithin (length assignment.now.types) (length nodes.now) (expression_of t)) rest.now }
    requires whole { IsWhole assignment.now }
    requires nodes { AreNodes graph.now.graph nodes.now }
    ensures { Gives result (fold (join_step (setting assignment.now nodes.now graph.now.graph)) (value_of (expression_of first.now) (setting assignment.now nodes.now graph.now.graph)) rest.now) }
{
    let mut total = eval(alloc, first, assignment, nodes, graph)?;
    'lists: for part in rest {
        let y = eval(alloc, part, assignment, nodes, graph)?;
        total = joined(total, &y)?;
    }
    Ok(total)
}
