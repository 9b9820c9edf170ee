//! Expressions that are read where they stand: numbers, variables, degrees and lengths.

ghost use Rattle.std.specs.Prelude.{◌≡◌, ◌<◌, ℕ, pos, length, slice_index_or, slice_index, [], IfSome};
ghost use Rattle.gp_values.specs.Graph.{in_degree, out_degree};
ghost use Rattle.gp_syntax.specs.Assigned.{IsWhole, assigned_of, declared_type};
ghost use Rattle.gp_syntax.specs.Tree.{expression_of};
ghost use Rattle.gp_syntax.specs.Value.{Value, value_of, length_by, number};
ghost use Rattle.gp_syntax.specs.WellFormed.{IsWithin};
ghost use Rattle.gp_eval.specs.Answer.{AreNodes, setting};
ghost use Rattle.gp_eval.specs.inside.Chains.{Gives};

use crate::arithmetic::{characters, only_integer};
use crate::valued::Missing;
use gp_graph::Graph;
use gp_syntax::{Assignment, Expr, VariableType};
use gp_values::{Atom, List};
use std::alloc::Global;

// The value of a variable.
fn value_at(assignment: &Assignment, x: u32) -> &List
    requires known { x < length assignment.now.types }
    requires whole { IsWhole assignment.now }
    ensures { result.now ≡ slice_index_or (assigned_of assignment.now) x [] }
{
    match assignment.value(x as usize) {
        Some(list) => list,
        None => unreachable!(),
    }
}

/// A copy of the value of a variable.
pub fn assigned(alloc: Global, assignment: &Assignment, x: u32) -> Result<List, Missing>
    requires known { x < length assignment.now.types }
    requires whole { IsWhole assignment.now }
    ensures { Gives result (Value (slice_index_or (assigned_of assignment.now) x [])) }
{
    Ok(value_at(assignment, x).copy(alloc)?)
}

/// The length of the value of a variable, by its declared type.
pub fn length_of(assignment: &Assignment, x: u32) -> i128
    requires known { x < length assignment.now.types }
    requires whole { IsWhole assignment.now }
    ensures { result ≡ pos (length_by (declared_type assignment.now x) (slice_index_or (assigned_of assignment.now) x [])) }
{
    let count = length_by(assignment.types()[x as usize], value_at(assignment, x));
    count as i128
}

fn length_by(declared: VariableType, list: &List) -> usize
    ensures { result ≡ length_by declared list.now }
{
    match (declared, list.atoms()) {
        (VariableType::List, atoms) => atoms.len(),
        (VariableType::Int, _) => 1,
        (VariableType::Atom, [Atom::Str(text)]) => text.get().as_bytes().len(),
        (VariableType::Atom, _) => 1,
        _ => characters(list).len(),
    }
}

/// How many edges end at the image of a left node.
pub fn in_degree_of(nodes: &[u64], graph: &Graph, n: u32) -> i128
    requires known { n < length nodes.now }
    requires nodes { AreNodes graph.now.graph nodes.now }
    ensures { result ≡ pos (in_degree graph.now.graph (slice_index nodes.now n)) }
{
    let (count, _) = graph.degrees(nodes[n as usize]);
    count as i128
}

/// How many edges begin at the image of a left node.
pub fn out_degree_of(nodes: &[u64], graph: &Graph, n: u32) -> i128
    requires known { n < length nodes.now }
    requires nodes { AreNodes graph.now.graph nodes.now }
    ensures { result ≡ pos (out_degree graph.now.graph (slice_index nodes.now n)) }
{
    let (_, count) = graph.degrees(nodes[n as usize]);
    count as i128
}

/// The integer that is the value of a number, a degree, a length or a variable, read where it stands.
pub fn read(e: &Expr<u32>, assignment: &Assignment, nodes: &[u64], graph: &Graph) -> Option<i128>
    requires within { IsWithin (length assignment.now.types) (length nodes.now) (expression_of e.now) }
    requires whole { IsWhole assignment.now }
    requires nodes { AreNodes graph.now.graph nodes.now }
    ensures { IfSome result (λ z. value_of (expression_of e.now) (setting assignment.now nodes.now graph.now.graph) ≡ Value (number z)) }
{
    match e {
        Expr::Number(z) => Some(*z),
        Expr::Variable(x) => only_integer(value_at(assignment, *x)),
        Expr::InDegree(n) => Some(in_degree_of(nodes, graph, *n)),
        Expr::OutDegree(n) => Some(out_degree_of(nodes, graph, *n)),
        Expr::Length(x) => Some(length_of(assignment, *x)),
        _ => None,
    }
}
