//! The trees of declarations, rules and commands: what is written of each, and the parts that are left in their order.

use super::tree::{Piece, Writer, type_word};
use gp_syntax::{CommandTree, Decl, EdgeDecl, GraphDecl, NodeDecl, RuleDecl, VariableGroup};

/// Declarations: the first is written, and the others are left.
pub(super) fn declarations<'a>(writer: &mut Writer<'a, '_>, declarations: &'a [Decl]) {
    let Some((first, others)) = declarations.split_first() else {
        return;
    };
    writer.leave(&[Piece::Declarations(others)]);
    match first {
        Decl::Procedure {
            name,
            declarations,
            body,
        } => {
            let locals = Piece::Declarations(declarations.as_slice());
            writer.group(
                "procedure",
                &[Piece::Name(name), locals, Piece::Command(body)],
            )
        }
        Decl::Rule(rule) => writer.leave(&[Piece::Rule(rule)]),
    }
}

/// A rule.
pub(super) fn rule<'a>(writer: &mut Writer<'a, '_>, rule: &'a RuleDecl) {
    let parts = [
        Piece::Name(&rule.name),
        Piece::Variables(rule.variables.as_slice()),
        Piece::Graph(&rule.left),
        Piece::Graph(&rule.right),
        Piece::Interface(rule.interface.as_slice()),
        Piece::Where(&rule.condition),
    ];
    writer.group("rule", &parts)
}

/// Variables that are declared together, and the groups behind them.
pub(super) fn variables<'a>(writer: &mut Writer<'a, '_>, groups: &'a [VariableGroup]) {
    let Some((group, others)) = groups.split_first() else {
        return;
    };
    writer.leave(&[Piece::Variables(others)]);
    let names = [
        Piece::Name(&group.first),
        Piece::Names(group.rest.as_slice()),
    ];
    writer.group(type_word(group.variable_type), &names)
}

/// A side of a rule.
pub(super) fn graph<'a>(writer: &mut Writer<'a, '_>, graph: &'a GraphDecl) {
    let nodes = Piece::Nodes(graph.nodes.as_slice());
    writer.group("graph", &[nodes, Piece::Edges(graph.edges.as_slice())])
}

/// A node, and the nodes behind it.
pub(super) fn nodes<'a>(writer: &mut Writer<'a, '_>, nodes: &'a [NodeDecl]) {
    let Some((node, others)) = nodes.split_first() else {
        return;
    };
    writer.leave(&[Piece::Nodes(others)]);
    let label = Piece::Expression(&node.label);
    let parts = [Piece::Name(&node.name), label, Piece::Mark(&node.mark)];
    writer.group(if node.root { "root" } else { "node" }, &parts)
}

/// An edge, and the edges behind it.
pub(super) fn edges<'a>(writer: &mut Writer<'a, '_>, edges: &'a [EdgeDecl]) {
    let Some((edge, others)) = edges.split_first() else {
        return;
    };
    writer.leave(&[Piece::Edges(others)]);
    let parts = [
        Piece::Name(&edge.name),
        Piece::Name(&edge.source),
        Piece::Name(&edge.target),
        Piece::Expression(&edge.label),
        Piece::Mark(&edge.mark),
    ];
    writer.group(if edge.bidirectional { "both" } else { "edge" }, &parts)
}

/// Commands behind one another.
pub(super) fn commands<'a>(writer: &mut Writer<'a, '_>, commands: &'a [CommandTree]) {
    match commands.split_first() {
        Some((first, others)) => { writer.leave(&[Piece::Command(first), Piece::Commands(others)]) }
        None => (),
    }
}

/// A command.
pub(super) fn command<'a>(writer: &mut Writer<'a, '_>, command: &'a CommandTree) {
    match command {
        CommandTree::Call(names) => writer.group("call", &[Piece::Names(names.as_slice())]),
        CommandTree::Procedure(name) => writer.group("do", &[Piece::Name(name)]),
        CommandTree::Seq(first, rest) => chain(writer, ";", first.get(), rest.as_slice()),
        CommandTree::Or(first, rest) => chain(writer, "or", first.get(), rest.as_slice()),
        CommandTree::If(condition, then, other) => {
            branches(writer, "if", [condition.get(), then.get(), other.get()])
        }
        CommandTree::Try(condition, then, other) => {
            branches(writer, "try", [condition.get(), then.get(), other.get()])
        }
        CommandTree::Loop(body) => writer.group("!", &[Piece::Command(body.get())]),
        CommandTree::Skip => writer.put(b"skip"),
        CommandTree::Fail => writer.put(b"fail"),
        CommandTree::Break => writer.put(b"break"),
    }
}

fn chain<'a>(
    writer: &mut Writer<'a, '_>,
    word: &str,
    first: &'a CommandTree,
    rest: &'a [CommandTree],
) {
    writer.group(word, &[Piece::Command(first), Piece::Commands(rest)])
}

fn branches<'a>(writer: &mut Writer<'a, '_>, word: &str, commands: [&'a CommandTree; 3]) {
    let [condition, then, other] = commands;
    let parts = [
        Piece::Command(condition),
        Piece::Command(then),
        Piece::Command(other),
    ];
    writer.group(word, &parts)
}
