//! The tokens of conditions.

ghost use Rattle.std.specs.Prelude.{◌≡◌, [], ◌∷◌, ◌++◌};
ghost use Rattle.std.specs.List.{flat_map};
ghost use Rattle.gp_tokens.specs.declared.token.Kind.TheVariants as k;
ghost use Rattle.gp_tokens.specs.declared.keyword.Keyword.TheVariants as words;
ghost use Rattle.gp_fmt.specs.declared.piece.Piece.TheVariants as p;
ghost use Rattle.gp_fmt.specs.Expressions.{part_of_condition, condition, in_parentheses_if, member, type_word, comparison_sign};
ghost use Rattle.gp_fmt.specs.inside.Puts.{Puts};
ghost use Rattle.gp_fmt.specs.inside.Links.{condition_link};

use crate::expressions::{put_expression, put_label};
use crate::sheet::Sheet;
use gp_syntax::{Comparison, Cond, Name, VariableType};
use gp_tokens::{Keyword, Kind};

const OR_LEVEL: u8 = 0;

const AND_LEVEL: u8 = 1;

const NOT_LEVEL: u8 = 2;

// How tightly the own operator of a condition binds.
fn level_of(c: &Cond<Name, Option<Name>>) -> u8
    ensures { result ≡ (part_of_condition c.now).level }
{
    match c {
        Cond::Or(_, _) => OR_LEVEL,
        Cond::And(_, _) => AND_LEVEL,
        Cond::Not(_) => NOT_LEVEL,
        Cond::HasType(_, _) => 3,
        Cond::HasEdge(_, _) => 3,
        Cond::HasEdgeWith(_, _, _, _) => 3,
        Cond::Compared(_, _, _) => 3,
    }
}

/// The word of a type.
pub(crate) fn type_keyword(kind: VariableType) -> Keyword
    ensures { p.Word result ≡ type_word kind }
{
    match kind {
        VariableType::Int => Keyword::Int,
        VariableType::Char => Keyword::Char,
        VariableType::String => Keyword::String,
        VariableType::Atom => Keyword::Atom,
        VariableType::List => Keyword::List,
    }
}

// Puts the ends of the test of an edge, with what stands before them.
fn put_ends<'a>(source: &'a Name, target: &'a Name, sheet: &mut Sheet<'a>)
    ensures { Puts sheet.old sheet.new (p.Word words.Edge ∷ p.Sign k.OpenParenthesis ∷ p.Name source.now ∷ p.Sign k.Comma ∷ p.Name target.now ∷ []) }
{
    sheet.word(Keyword::Edge);
    sheet.sign(Kind::OpenParenthesis);
    sheet.name(source);
    sheet.sign(Kind::Comma);
    sheet.name(target);
}

fn comparison_kind(comparison: Comparison) -> Kind
    ensures { p.Sign result ≡ comparison_sign comparison }
{
    match comparison {
        Comparison::Equal => Kind::Equal,
        Comparison::NotEqual => Kind::NotEqual,
        Comparison::Less => Kind::Less,
        Comparison::LessEqual => Kind::LessEqual,
        Comparison::Greater => Kind::Greater,
        Comparison::GreaterEqual => Kind::GreaterEqual,
    }
}

/// Puts a condition.
#[cycle(condition)]
pub(crate) fn put_condition<'a>(c: &'a Cond<Name, Option<Name>>, sheet: &mut Sheet<'a>)
    ensures { Puts sheet.old sheet.new (condition c.now) }
{
    match c {
        Cond::HasType(kind, e) => {
            sheet.word(type_keyword(*kind));
            sheet.sign(Kind::OpenParenthesis);
            put_expression(e, sheet);
            sheet.sign(Kind::CloseParenthesis);
        }
        Cond::HasEdge(source, target) => {
            put_ends(source, target, sheet);
            sheet.sign(Kind::CloseParenthesis);
        }
        Cond::HasEdgeWith(source, target, e, written) => {
            put_ends(source, target, sheet);
            sheet.sign(Kind::Comma);
            put_label(e, written, sheet);
            sheet.sign(Kind::CloseParenthesis);
        }
        Cond::Compared(comparison, left, right) => {
            put_expression(left, sheet);
            sheet.sign(comparison_kind(*comparison));
            put_expression(right, sheet);
        }
        Cond::Not(part) => {
            let part = part.get();
            sheet.word(Keyword::Not);
            put_part(level_of(part) < NOT_LEVEL, part, sheet);
        }
        Cond::And(first, rest) => {
            put_chain(Keyword::And, AND_LEVEL, first.get(), rest.as_slice(), sheet)
        }
        Cond::Or(first, rest) => {
            put_chain(Keyword::Or, OR_LEVEL, first.get(), rest.as_slice(), sheet)
        }
    }
}

// Puts a condition, in parentheses where they are asked for.
#[cycle(condition)]
fn put_part<'a>(needed: bool, c: &'a Cond<Name, Option<Name>>, sheet: &mut Sheet<'a>)
    ensures { Puts sheet.old sheet.new (in_parentheses_if needed (condition c.now)) }
{
    if needed {
        sheet.sign(Kind::OpenParenthesis);
        put_condition(c, sheet);
        sheet.sign(Kind::CloseParenthesis);
    } else {
        put_condition(c, sheet);
    }
}

// Puts a member of a chain of this level.
#[cycle(condition)]
fn put_member<'a>(level: u8, c: &'a Cond<Name, Option<Name>>, sheet: &mut Sheet<'a>)
    ensures { Puts sheet.old sheet.new (member level (part_of_condition c.now)) }
{
    put_part(level_of(c) <= level, c, sheet);
}

// Puts a chain of this word and level.
#[cycle(condition)]
fn put_chain<'a>(
    word: Keyword,
    level: u8,
    first: &'a Cond<Name, Option<Name>>,
    rest: &'a [Cond<Name, Option<Name>>],
    sheet: &mut Sheet<'a>,
)
    ensures { Puts sheet.old sheet.new (member level (part_of_condition first.now) ++ flat_map (condition_link word level) rest.now) }
{
    put_member(level, first, sheet);
    'each: for part in rest {
        sheet.word(word);
        put_member(level, part, sheet);
    }
}
