//! Steps and what takes them back.

ghost use Rattle.std.specs.Prelude.{IfOk};
ghost use Rattle.gp_step.specs.Undo.{Fits, Undoes};

use crate::rules::cases::{Case, case_at, is_same, put_graph, rule_of};
use gp_graph::Graph;
use gp_match::{Verdict, check_match};
use gp_memory::NoMemory;
use gp_rows::{Answer, Wrong};
use gp_step::{Undo, apply, undo};
use gp_syntax::{Found, Rule};
use std::alloc::Global;

/// What a step leaves, where its match applies, and else the verdict: what the row shows, a rule, a host, and the images.
/// The step is taken back then: where that does not give the very graph from before, this is said behind it.
pub(crate) fn answer(alloc: Global, fields: &[&[u8]], out: &mut Answer) {
    match case_at(alloc, fields, 1) {
        Ok(case) => match check_match(alloc, &case.rule, &case.graph, &case.found) {
            Verdict::Applies => step_and_back(alloc, &case, out),
            verdict => out.debug(&verdict),
        },
        Err(wrong) => out.wrong(wrong),
    }
}

fn step_and_back(alloc: Global, case: &Case, out: &mut Answer) {
    match case.graph.copy(alloc) {
        Ok(mut graph) => {
            match make_step(alloc, &case.rule, &mut graph, &case.found) {
                Ok(inverses) => back(alloc, &mut graph, inverses, out),
                Err(error) => out.debug(&error),
            }
            compare(alloc, &graph, &case.graph, out);
        }
        Err(error) => out.debug(&error),
    }
}

// Tells what a step left, and takes it back by a copy of its inverses.
fn back(alloc: Global, graph: &mut Graph, inverses: Undo, out: &mut Answer)
    requires { Fits inverses graph.old.graph }
{
    put_graph(alloc, graph, out);
    match inverses.copy(alloc) {
        Ok(copy) => undo(graph, copy),
        Err(error) => out.debug(&error),
    }
}

// Compares a graph with that from before the step, and what a step makes of both.
fn compare(alloc: Global, graph: &Graph, before: &Graph, out: &mut Answer) {
    out.word_if(!is_same(graph, before), b"and not taken back");
    match makes_the_same(alloc, graph, before) {
        Ok(is_so) => out.word_if(!is_so, b"and steps on otherwise"),
        Err(wrong) => out.wrong(wrong),
    }
}

/// Makes the step of a match, which has to apply.
pub(crate) fn make_step(
    alloc: Global,
    rule: &Rule,
    graph: &mut Graph,
    found: &Found,
) -> Result<Undo, NoMemory>
    ensures { IfOk result (λ u. Undoes u graph.new.graph graph.old.graph) }
{
    match check_match(alloc, rule, graph, found) {
        Verdict::Applies => apply(alloc, rule, graph, found),
        _ => Err(NoMemory),
    }
}

// Whether a rule that makes two nodes and an edge makes the same of both graphs, with the next numbers.
fn makes_the_same(alloc: Global, graph: &Graph, before: &Graph) -> Result<bool, Wrong> {
    const PAIR: &[u8] = b"pair() [ | ] => [ (n0, 8) (n1, 9) | (e0, n0, n1, 10) ] interface = {}";
    let rule = rule_of(alloc, PAIR)?;
    let next = stepped(alloc, &rule, graph)?;
    let other = stepped(alloc, &rule, before)?;
    let (nodes, edges) = before.next_numbers();
    let is_numbered = next.node(nodes).is_some() && next.edge(edges).is_some();
    Ok(is_numbered && is_same(&next, &other))
}

// What a rule without left nodes makes of a graph.
fn stepped(alloc: Global, rule: &Rule, graph: &Graph) -> Result<Graph, NoMemory> {
    let mut next = graph.copy(alloc)?;
    match make_step(alloc, rule, &mut next, &Found::new(alloc, 0)) {
        Ok(_) => Ok(next),
        Err(error) => Err(error),
    }
}
