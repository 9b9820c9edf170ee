//! What the clauses ask of an expression: its type, whether it is well typed, and what makes it a simple label.

ghost use Rattle.std.specs.Prelude.{◌≡◌, ◌+◌, ◌≤◌, true};
ghost use Rattle.gp_syntax.specs.Expression.{Text, Variable};
ghost use Rattle.gp_syntax.specs.Tree.{expression_of};
ghost use Rattle.gp_syntax.specs.Typing.{is_subtype};
ghost use Rattle.gp_syntax.specs.Fault.{is_well_typed, is_of_type, is_simple};
ghost use Rattle.gp_syntax.specs.declared.kinds.VariableType.TheVariants as types;
ghost use Rattle.gp_clauses.specs.Facts.{facts_of, negated, arithmetic, dotted, joined, combined, few};
ghost use Rattle.gp_clauses.specs.inside.Tables.{type_by};

use crate::shape::{Operation, Shape, shape_of};
use crate::variables::Variables;
use gp_syntax::{Expr, Name, VariableType};
use gp_values::Chars;

/// What the clauses ask of an expression. Occurrences of list variables and of string variables are counted up to two.
#[derive(Clone, Copy)]
pub struct Facts {
    pub kind: VariableType,
    pub is_typed: bool,
    pub is_numeral: bool,
    pub is_plain: bool,
    pub lists: u8,
    pub strings: u8,
    pub has_one_string: bool,
}

/// Whether the first type is the second, or a subtype of it.
pub fn is_subtype(kind: VariableType, wanted: VariableType) -> bool
    ensures { result ≡ is_subtype kind wanted }
{
    match (wanted, kind) {
        (VariableType::List, _) => true,
        (VariableType::Atom, VariableType::List) => false,
        (VariableType::Atom, _) => true,
        (VariableType::Int, VariableType::Int) => true,
        (VariableType::String, VariableType::String) => true,
        (VariableType::String, VariableType::Char) => true,
        (VariableType::Char, VariableType::Char) => true,
        _ => false,
    }
}

fn few(count: u8) -> u8
    ensures { result ≡ few count }
{
    if count < 2 { count } else { 2 }
}

// Those of an expression without variables.
fn constant(kind: VariableType, is_numeral: bool, is_plain: bool) -> Facts
    ensures { result ≡ record { kind = kind; is_typed = true; is_numeral = is_numeral; is_plain = is_plain; lists = 0; strings = 0; has_one_string = true } }
{
    Facts {
        kind,
        is_typed: true,
        is_numeral,
        is_plain,
        lists: 0,
        strings: 0,
        has_one_string: true,
    }
}

fn text_facts(variables: &Variables, text: &Chars) -> Facts
    ensures { result ≡ facts_of (type_by variables.now) (Text text.now) }
{
    match text.as_bytes() {
        [_] => constant(VariableType::Char, false, true),
        _ => constant(VariableType::String, false, true),
    }
}

fn variable_facts(variables: &Variables, name: &Name) -> Facts
    ensures { result ≡ facts_of (type_by variables.now) (Variable name.now) }
{
    let kind = variables.type_of(name);
    let lists = if kind == VariableType::List { 1 } else { 0 };
    let strings = if kind == VariableType::String { 1 } else { 0 };
    Facts {
        kind,
        is_typed: true,
        is_numeral: false,
        is_plain: true,
        lists,
        strings,
        has_one_string: true,
    }
}

fn negated(e: &Facts) -> Facts
    ensures { result ≡ negated e.now }
{
    Facts {
        kind: VariableType::Int,
        is_typed: is_subtype(e.kind, VariableType::Int) && e.is_typed,
        is_numeral: false,
        is_plain: e.is_numeral,
        lists: 0,
        strings: 0,
        has_one_string: true,
    }
}

fn arithmetic(d: &Facts, e: &Facts) -> Facts
    ensures { result ≡ arithmetic d.now e.now }
{
    Facts {
        kind: VariableType::Int,
        is_typed: is_subtype(d.kind, VariableType::Int)
            && is_subtype(e.kind, VariableType::Int)
            && d.is_typed
            && e.is_typed,
        is_numeral: false,
        is_plain: false,
        lists: 0,
        strings: 0,
        has_one_string: true,
    }
}

fn dotted(d: &Facts, e: &Facts) -> Facts
    requires lists { d.now.lists + e.now.lists ≤ 4 }
    requires strings { d.now.strings + e.now.strings ≤ 4 }
    ensures { result ≡ dotted d.now e.now }
{
    Facts {
        kind: VariableType::String,
        is_typed: is_subtype(d.kind, VariableType::String)
            && is_subtype(e.kind, VariableType::String)
            && d.is_typed
            && e.is_typed,
        is_numeral: false,
        is_plain: d.is_plain && e.is_plain,
        lists: few(d.lists + e.lists),
        strings: few(d.strings + e.strings),
        has_one_string: d.strings + e.strings <= 1,
    }
}

fn joined(d: &Facts, e: &Facts) -> Facts
    requires lists { d.now.lists + e.now.lists ≤ 4 }
    ensures { result ≡ joined d.now e.now }
{
    Facts {
        kind: VariableType::List,
        is_typed: d.is_typed && e.is_typed,
        is_numeral: false,
        is_plain: d.is_plain && e.is_plain,
        lists: few(d.lists + e.lists),
        strings: 0,
        has_one_string: d.has_one_string && e.has_one_string,
    }
}

fn combined(operation: Operation, d: &Facts, e: &Facts) -> Facts
    requires lists { d.now.lists + e.now.lists ≤ 4 }
    requires strings { d.now.strings + e.now.strings ≤ 4 }
    ensures { result ≡ combined operation d.now e.now }
{
    match operation {
        Operation::Plus | Operation::Minus | Operation::Times | Operation::Over => arithmetic(d, e),
        Operation::Dot => dotted(d, e),
        Operation::Join => joined(d, e),
    }
}

/// What the clauses ask of an expression, by the types of its variables.
pub fn facts_in(variables: &Variables, e: &Expr<Name>) -> Facts
    ensures { result ≡ facts_of (type_by variables.now) (expression_of e.now) }
{
    match shape_of(e) {
        Shape::Number(_) => constant(VariableType::Int, true, true),
        Shape::Text(text) => text_facts(variables, text),
        Shape::Variable(x) => variable_facts(variables, x),
        Shape::Empty => constant(VariableType::List, false, true),
        Shape::Negated(operand) => negated(&facts_in(variables, operand)),
        Shape::Chain(first, links) => {
            let mut total = facts_in(variables, first);
            'operands: for at in 0..links.len() {
                let (operation, operand) = links.get(at);
                let next = facts_in(variables, operand);
                total = combined(operation, &total, &next);
            }
            total
        }
        _ => constant(VariableType::Int, false, false),
    }
}
