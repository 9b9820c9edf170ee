//! The tokens of rules.

ghost use Rattle.std.specs.List.{flat_map};
ghost use Rattle.gp_fmt.specs.Rules.{variable_group, variables, flag, node, edge, graph, where_part, rule};
ghost use Rattle.gp_fmt.specs.inside.Puts.{Puts};
ghost use Rattle.gp_fmt.specs.inside.Links.{group_link};

use crate::commands::{put_names_behind, put_set};
use crate::conditions::{put_condition, type_keyword};
use crate::expressions::put_label;
use crate::sheet::Sheet;
use gp_syntax::{Cond, EdgeDecl, GraphDecl, Name, NodeDecl, RuleDecl, VariableGroup};
use gp_tokens::{Keyword, Kind};

// Puts variables that are declared together.
fn put_group<'a>(group: &'a VariableGroup, sheet: &mut Sheet<'a>)
    ensures { Puts sheet.old sheet.new (variable_group group.now) }
{
    sheet.name(&group.first);
    put_names_behind(group.rest.as_slice(), sheet);
    sheet.sign(Kind::Colon);
    sheet.word(type_keyword(group.variable_type));
}

// Puts groups of variables, each behind a semicolon.
fn put_groups_behind<'a>(groups: &'a [VariableGroup], sheet: &mut Sheet<'a>)
    ensures { Puts sheet.old sheet.new (flat_map group_link groups.now) }
{
    'each: for group in groups {
        sheet.sign(Kind::Semicolon);
        put_group(group, sheet);
    }
}

// Puts the variables of a rule.
fn put_variables<'a>(groups: &'a [VariableGroup], sheet: &mut Sheet<'a>)
    ensures { Puts sheet.old sheet.new (variables groups.now) }
{
    match groups.split_first() {
        None => {}
        Some((first, rest)) => {
            put_group(first, sheet);
            put_groups_behind(rest, sheet);
        }
    }
}

// Puts a word in parentheses, where it is set.
fn put_flag(word: Keyword, is_set: bool, sheet: &mut Sheet<'_>)
    ensures { Puts sheet.old sheet.new (flag word is_set) }
{
    if !is_set {
        return;
    }
    sheet.sign(Kind::OpenParenthesis);
    sheet.word(word);
    sheet.sign(Kind::CloseParenthesis);
}

// Puts nodes.
fn put_nodes<'a>(nodes: &'a [NodeDecl], sheet: &mut Sheet<'a>)
    ensures { Puts sheet.old sheet.new (flat_map node nodes.now) }
{
    'each: for n in nodes {
        sheet.sign(Kind::OpenParenthesis);
        sheet.name(&n.name);
        put_flag(Keyword::Root, n.root, sheet);
        sheet.sign(Kind::Comma);
        put_label(&n.label, &n.mark, sheet);
        sheet.sign(Kind::CloseParenthesis);
    }
}

// Puts edges.
fn put_edges<'a>(edges: &'a [EdgeDecl], sheet: &mut Sheet<'a>)
    ensures { Puts sheet.old sheet.new (flat_map edge edges.now) }
{
    'each: for e in edges {
        sheet.sign(Kind::OpenParenthesis);
        sheet.name(&e.name);
        put_flag(Keyword::Bidirectional, e.bidirectional, sheet);
        sheet.sign(Kind::Comma);
        sheet.name(&e.source);
        sheet.sign(Kind::Comma);
        sheet.name(&e.target);
        sheet.sign(Kind::Comma);
        put_label(&e.label, &e.mark, sheet);
        sheet.sign(Kind::CloseParenthesis);
    }
}

// Puts a side.
fn put_graph<'a>(side: &'a GraphDecl, sheet: &mut Sheet<'a>)
    ensures { Puts sheet.old sheet.new (graph side.now) }
{
    sheet.sign(Kind::OpenBracket);
    put_nodes(side.nodes.as_slice(), sheet);
    sheet.sign(Kind::Bar);
    put_edges(side.edges.as_slice(), sheet);
    sheet.sign(Kind::CloseBracket);
}

// Puts the condition of a rule, where it has one.
fn put_where<'a>(c: &'a Option<Cond<Name, Option<Name>>>, sheet: &mut Sheet<'a>)
    ensures { Puts sheet.old sheet.new (where_part c.now) }
{
    match c {
        None => {}
        Some(c) => {
            sheet.word(Keyword::Where);
            put_condition(c, sheet);
        }
    }
}

/// Puts a rule.
pub(crate) fn put_rule<'a>(r: &'a RuleDecl, sheet: &mut Sheet<'a>)
    ensures { Puts sheet.old sheet.new (rule r.now) }
{
    sheet.name(&r.name);
    sheet.sign(Kind::OpenParenthesis);
    put_variables(r.variables.as_slice(), sheet);
    sheet.sign(Kind::CloseParenthesis);
    put_graph(&r.left, sheet);
    sheet.sign(Kind::Arrow);
    put_graph(&r.right, sheet);
    sheet.word(Keyword::Interface);
    sheet.sign(Kind::Equal);
    put_set(r.interface.as_slice(), sheet);
    put_where(&r.condition, sheet);
}
