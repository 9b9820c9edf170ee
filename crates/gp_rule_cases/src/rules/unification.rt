//! The labels of left nodes and those of the host's nodes of their places, one after the other.

ghost use Rattle.std.specs.Prelude.{◌≡◌, length, All};
ghost use Rattle.gp_syntax.specs.Simple.{IsSimple};
ghost use Rattle.gp_syntax.specs.Tree.{label_of, rule_of_tree};
ghost use Rattle.gp_syntax.specs.Typing.{type_in};
ghost use Rattle.gp_syntax.specs.WellFormed.{IsWellFormed};
ghost use Rattle.gp_unify.specs.Extension.{AreKnown};

use crate::rules::cases::{pair_at, put_label};
use gp_graph::Graph;
use gp_rows::{Answer, Wrong};
use gp_syntax::{Assignment, LeftNode, RuleParts, SimpleLabel};
use gp_unify::{Unified, unify};
use gp_values::List;
use std::alloc::Global;

/// What is answered for each label, and the values that the variables then have: a rule and a host.
pub(crate) fn answer(alloc: Global, fields: &[&[u8]], out: &mut Answer) {
    match pair_at(alloc, fields, 0) {
        Ok(pair) => answers_of(alloc, pair.rule.parts(), &pair.graph, out),
        Err(wrong) => out.wrong(wrong),
    }
}

// From an assignment without values.
fn answers_of(alloc: Global, parts: &RuleParts, graph: &Graph, out: &mut Answer)
    requires { IsWellFormed (rule_of_tree parts.now) }
{
    match Assignment::new(alloc, parts.types.as_slice()) {
        Ok(mut assignment) => {
            let left = parts.left_nodes.as_slice();
            answers(alloc, left, graph, &mut assignment, out);
        }
        Err(error) => out.debug(&error),
    }
}

fn answers(
    alloc: Global,
    left: &[LeftNode],
    graph: &Graph,
    assignment: &mut Assignment,
    out: &mut Answer,
)
    requires known { All (λ p. AreKnown (length assignment.old.types) (label_of p.label)) left.now }
    requires simple { All (λ p. IsSimple (type_in assignment.old.types) (label_of p.label)) left.now }
{
    'labels: for i in 0..left.len() {
        if i > 0 {
            out.put(b";");
        }
        match graph.node(i as u64) {
            Some((list, _, _)) => told(alloc, &left[i].label, list, assignment, out),
            None => out.wrong(Wrong::new("the host has too few nodes")),
        }
        put_values(alloc, assignment, out);
    }
}

// What is answered for a label.
fn told(
    alloc: Global,
    label: &SimpleLabel,
    list: &List,
    assignment: &mut Assignment,
    out: &mut Answer,
)
    requires known { AreKnown (length assignment.old.types) (label_of label.now) }
    requires simple { IsSimple (type_in assignment.old.types) (label_of label.now) }
    ensures { assignment.new.types ≡ assignment.old.types }
{
    match unify(alloc, label, list, assignment) {
        Unified::Yes => out.word(b"yes"),
        Unified::No => out.word(b"no"),
        Unified::NoMemory => out.word(b"NoMemory"),
    }
}

// Writes the values of all variables, a dash for one that has none.
fn put_values(alloc: Global, assignment: &Assignment, out: &mut Answer) {
    for x in 0..assignment.types().len() {
        match assignment.value(x) {
            Some(list) => put_label(alloc, list, out),
            None => out.word(b"-"),
        }
    }
}
