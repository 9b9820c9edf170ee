//! Rules that ask of edges outside their match.

ghost use Rattle.std.specs.Prelude.{◌≡◌, ◌||◌};
ghost use Rattle.std.specs.List.{list_any};
ghost use Rattle.gp_syntax.specs.Step.{right_labels};
ghost use Rattle.gp_syntax.specs.Tree.{expression_of, condition_of, condition_or_true, pattern_of, rule_of_tree};
ghost use Rattle.gp_independence.specs.Independent as meant;

use gp_syntax::{
    Cond, Expr, MarkPattern, ProductSign, RightEdge, RightNode, RuleParts, Signed, SumSign,
};
use gp_values::EdgeMark;

/// Whether `indeg`, `outdeg` or `edge` stands in the condition or in a right label.
pub(crate) fn looks_around(parts: &RuleParts) -> bool
    ensures { result ≡ meant.looks_around (rule_of_tree parts.now) }
{
    condition_asks(&parts.condition) || labels_ask(parts)
}

fn condition_asks(condition: &Option<Cond<u32, MarkPattern<EdgeMark>>>) -> bool
    ensures { result ≡ meant.asks_edges (condition_or_true pattern_of condition.now) }
{
    match condition {
        Some(condition) => asks_edges(condition),
        None => false,
    }
}

fn labels_ask(parts: &RuleParts) -> bool
    ensures { result ≡ list_any meant.has_degree (right_labels (rule_of_tree parts.now)) }
{
    nodes_ask(parts.right_nodes.as_slice()) || edges_ask(parts.right_edges.as_slice())
}

fn nodes_ask(right: &[RightNode]) -> bool
    ensures { result ≡ list_any (λ q. meant.has_degree (expression_of q.label)) right.now }
{
    'labels: for node in right {
        if has_degree(&node.label) {
            return true;
        }
    }
    false
}

fn edges_ask(right: &[RightEdge]) -> bool
    ensures { result ≡ list_any (λ q. meant.has_degree (expression_of q.label)) right.now }
{
    'labels: for edge in right {
        if has_degree(&edge.label) {
            return true;
        }
    }
    false
}

#[cycle(has_degree)]
fn has_degree(expression: &Expr<u32>) -> bool
    ensures { result ≡ meant.has_degree (expression_of expression.now) }
{
    match expression {
        Expr::InDegree(_) => true,
        Expr::OutDegree(_) => true,
        Expr::Negated(operand) => has_degree(operand.get()),
        Expr::Sum(first, rest) => has_degree(first.get()) || terms_have(rest.as_slice()),
        Expr::Product(first, rest) => has_degree(first.get()) || factors_have(rest.as_slice()),
        Expr::Dot(first, rest) => has_degree(first.get()) || parts_have(rest.as_slice()),
        Expr::Join(first, rest) => has_degree(first.get()) || parts_have(rest.as_slice()),
        Expr::Number(_) => false,
        Expr::Text(_) => false,
        Expr::Variable(_) => false,
        Expr::Length(_) => false,
        Expr::Empty => false,
    }
}

#[cycle(has_degree)]
fn terms_have(rest: &[Signed<SumSign, Expr<u32>>]) -> bool
    ensures { result ≡ list_any (λ t. meant.has_degree (expression_of t.operand)) rest.now }
{
    'terms: for term in rest {
        if has_degree(&term.operand) {
            return true;
        }
    }
    false
}

#[cycle(has_degree)]
fn factors_have(rest: &[Signed<ProductSign, Expr<u32>>]) -> bool
    ensures { result ≡ list_any (λ t. meant.has_degree (expression_of t.operand)) rest.now }
{
    'factors: for factor in rest {
        if has_degree(&factor.operand) {
            return true;
        }
    }
    false
}

#[cycle(has_degree)]
fn parts_have(rest: &[Expr<u32>]) -> bool
    ensures { result ≡ list_any (λ e. meant.has_degree (expression_of e)) rest.now }
{
    'parts: for part in rest {
        if has_degree(part) {
            return true;
        }
    }
    false
}

#[cycle(asks_edges)]
fn asks_edges(condition: &Cond<u32, MarkPattern<EdgeMark>>) -> bool
    ensures { result ≡ meant.asks_edges (condition_of pattern_of condition.now) }
{
    match condition {
        Cond::HasType(_, expression) => has_degree(expression),
        Cond::HasEdge(_, _) => true,
        Cond::HasEdgeWith(_, _, _, _) => true,
        Cond::Compared(_, left, right) => has_degree(left) || has_degree(right),
        Cond::Not(part) => asks_edges(part.get()),
        Cond::And(first, rest) => asks_edges(first.get()) || some_asks(rest.as_slice()),
        Cond::Or(first, rest) => asks_edges(first.get()) || some_asks(rest.as_slice()),
    }
}

#[cycle(asks_edges)]
fn some_asks(rest: &[Cond<u32, MarkPattern<EdgeMark>>]) -> bool
    ensures { result ≡ list_any (λ c. meant.asks_edges (condition_of pattern_of c)) rest.now }
{
    'parts: for part in rest {
        if asks_edges(part) {
            return true;
        }
    }
    false
}
