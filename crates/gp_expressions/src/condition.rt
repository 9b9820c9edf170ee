//! Reads labels and conditions, one function for each line of the grammar.

ghost use Rattle.std.specs.Prelude.{◌≡◌, MatchResult};
ghost use Rattle.gp_tokens.specs.Cursor.{Reads};
ghost use Rattle.gp_tokens.specs.Reading.{reader_of};
ghost use Rattle.gp_syntax.specs.declared.expression.Cond.TheVariants as c;
ghost use Rattle.gp_expressions.specs.Ranges.{with, chained};
ghost use Rattle.gp_expressions.specs.Expressions.{list};
ghost use Rattle.gp_expressions.specs.Conditions as spec;

use crate::chain::{Links, linked};
use crate::expression::{read_list, read_name};
use crate::ranged::{Ranged, whole};
use crate::rows::{Row, read_rows};
use gp_syntax::{Boxed, Comparison, Cond, Expr, Name, VariableType};
use gp_tokens::{Keyword, Kind, ReadError, Token, Tokens, Want};
use std::alloc::Global;

/// A condition of a declaration.
pub type CondTree = Cond<Name, Option<Name>>;

/// A label: its expression, and the word behind `#`, if one is written.
pub type LabelTree = (Ranged<Expr<Name>>, Option<Name>);

const OPEN: Want = Want::Kind(Kind::OpenParenthesis);

const CLOSE: Want = Want::Kind(Kind::CloseParenthesis);

const COMMA: Want = Want::Kind(Kind::Comma);

const NOT: Want = Want::Keyword(Keyword::Not);

const AND: Want = Want::Keyword(Keyword::And);

const OR: Want = Want::Keyword(Keyword::Or);

const EDGE: Want = Want::Keyword(Keyword::Edge);

/// What stands in each condition and in no list.
const CONDITION_SIGNS: [Want; 14] = [
    Want::Kind(Kind::Equal),
    Want::Kind(Kind::NotEqual),
    Want::Kind(Kind::Less),
    Want::Kind(Kind::LessEqual),
    Want::Kind(Kind::Greater),
    Want::Kind(Kind::GreaterEqual),
    NOT,
    AND,
    OR,
    EDGE,
    Want::Keyword(Keyword::Int),
    Want::Keyword(Keyword::Char),
    Want::Keyword(Keyword::String),
    Want::Keyword(Keyword::Atom),
];

// ["#" Word]
#[tactic(auto, unfolding(crate::specs::Conditions::mark))]
fn read_mark(tokens: &mut Tokens<'_, '_>) -> Result<Option<Name>, ReadError>
    ensures { Reads (reader_of spec.mark tokens.old) result tokens.new }
{
    if tokens.eat(Want::Kind(Kind::Hash)) {
        return Ok(Some(read_name(tokens, Want::Kind(Kind::Word))?));
    }
    Ok(None)
}

/// Label = List ["#" Word]
#[tactic(auto, unfolding(crate::specs::Conditions::label))]
pub fn read_label(tokens: &mut Tokens<'_, '_>, lists: u64) -> Result<LabelTree, ReadError>
    ensures { Reads (reader_of (spec.label (list lists)) tokens.old) result tokens.new }
{
    let expression = read_list(tokens, lists)?;
    let mark = read_mark(tokens)?;
    Ok((expression, mark))
}

#[tactic(auto, unfolding(crate::specs::Conditions::comparison))]
fn read_comparison(tokens: &mut Tokens<'_, '_>) -> Result<Comparison, ReadError>
    ensures { Reads (reader_of spec.comparison tokens.old) result tokens.new }
{
    if tokens.eat(Want::Kind(Kind::Equal)) {
        return Ok(Comparison::Equal);
    }
    if tokens.eat(Want::Kind(Kind::NotEqual)) {
        return Ok(Comparison::NotEqual);
    }
    if tokens.eat(Want::Kind(Kind::Less)) {
        return Ok(Comparison::Less);
    }
    if tokens.eat(Want::Kind(Kind::LessEqual)) {
        return Ok(Comparison::LessEqual);
    }
    if tokens.eat(Want::Kind(Kind::Greater)) {
        return Ok(Comparison::Greater);
    }
    if tokens.eat(Want::Kind(Kind::GreaterEqual)) {
        return Ok(Comparison::GreaterEqual);
    }
    Err(tokens.refusal())
}

// "(" List ")", behind a type
#[tactic(auto, unfolding(crate::specs::Conditions::typed))]
fn read_typed(
    tokens: &mut Tokens<'_, '_>,
    lists: u64,
    variable_type: VariableType,
) -> Result<Ranged<CondTree>, ReadError>
    ensures { Reads (reader_of (spec.typed (list lists) variable_type) tokens.old) result tokens.new }
{
    if !tokens.eat(OPEN) {
        return Err(tokens.refusal());
    }
    let list = read_list(tokens, lists)?;
    if !tokens.eat(CLOSE) {
        return Err(tokens.refusal());
    }
    Ok(Ranged {
        tree: Cond::HasType(variable_type, list.tree),
        past: list.past,
    })
}

// ["," Label]
#[tactic(auto, unfolding(crate::specs::Conditions::edge_label))]
fn read_edge_label(tokens: &mut Tokens<'_, '_>, lists: u64) -> Result<Option<LabelTree>, ReadError>
    ensures { Reads (reader_of (spec.edge_label (list lists)) tokens.old) result tokens.new }
{
    if !tokens.eat(COMMA) {
        return Ok(None);
    }
    let label = read_label(tokens, lists)?;
    Ok(Some(label))
}

fn joined_by(source: Name, target: Name, label: Option<LabelTree>) -> Ranged<CondTree>
    ensures { result ≡ spec.joined_by source target label }
{
    match label {
        Some((list, mark)) => Ranged {
            tree: Cond::HasEdgeWith(source, target, list.tree, mark),
            past: list.past,
        },
        None => whole(Cond::HasEdge(source, target)),
    }
}

// "edge" "(" Item "," Item ["," Label] ")"
#[tactic(auto, unfolding(crate::specs::Conditions::edge_test))]
fn read_edge_test(tokens: &mut Tokens<'_, '_>, lists: u64) -> Result<Ranged<CondTree>, ReadError>
    ensures { Reads (reader_of (spec.edge_test (list lists)) tokens.old) result tokens.new }
{
    if !tokens.eat(EDGE) || !tokens.eat(OPEN) {
        return Err(tokens.refusal());
    }
    let source = read_name(tokens, Want::Item)?;
    if !tokens.eat(COMMA) {
        return Err(tokens.refusal());
    }
    let target = read_name(tokens, Want::Item)?;
    let label = read_edge_label(tokens, lists)?;
    let test = joined_by(source, target, label);
    if !tokens.eat(CLOSE) {
        return Err(tokens.refusal());
    }
    Ok(test)
}

// List Comparison List
#[tactic(auto, unfolding(crate::specs::Conditions::comparing))]
fn read_comparing(tokens: &mut Tokens<'_, '_>, lists: u64) -> Result<Ranged<CondTree>, ReadError>
    ensures { Reads (reader_of (spec.comparing (list lists)) tokens.old) result tokens.new }
{
    let left = read_list(tokens, lists)?;
    let sign = read_comparison(tokens)?;
    let right = read_list(tokens, lists)?;
    Ok(Ranged {
        tree: Cond::Compared(sign, left.tree, right.tree),
        past: left.past.or(right.past),
    })
}

// Test
#[tactic(auto, unfolding(crate::specs::Conditions::plain_test))]
fn read_test(tokens: &mut Tokens<'_, '_>, lists: u64) -> Result<Ranged<CondTree>, ReadError>
    ensures { Reads (reader_of (spec.plain_test (list lists)) tokens.old) result tokens.new }
{
    if tokens.eat(Want::Keyword(Keyword::Int)) {
        return read_typed(tokens, lists, VariableType::Int);
    }
    if tokens.eat(Want::Keyword(Keyword::Char)) {
        return read_typed(tokens, lists, VariableType::Char);
    }
    if tokens.eat(Want::Keyword(Keyword::String)) {
        return read_typed(tokens, lists, VariableType::String);
    }
    if tokens.eat(Want::Keyword(Keyword::Atom)) {
        return read_typed(tokens, lists, VariableType::Atom);
    }
    if tokens.begins(EDGE) {
        return read_edge_test(tokens, lists);
    }
    read_comparing(tokens, lists)
}

#[tactic(auto, unfolding(crate::specs::Conditions::tells))]
fn tells(token: &Token<'_>) -> bool
    ensures { result ≡ spec.tells token.now }
{
    CONDITION_SIGNS.iter().any(|want| want.is_met_by(token))
}

// Whether a sign of a condition stands before the partner of the parenthesis before the tokens.
fn encloses(tokens: &[Token<'_>]) -> bool
    ensures { result ≡ spec.encloses 0 tokens.now }
{
    let mut inside = 0usize;
    let mut rest = tokens;
    'each: while let [token, after @ ..] = rest {
        if tells(token) {
            return true;
        }
        if OPEN.is_met_by(token) {
            inside += 1;
        } else if CLOSE.is_met_by(token) {
            if inside == 0 {
                return false;
            }
            inside -= 1;
        }
        rest = after;
    }
    false
}

#[tactic(auto, unfolding(crate::specs::Conditions::condition_ahead))]
fn condition_ahead(tokens: &[Token<'_>]) -> bool
    ensures { result ≡ spec.condition_ahead tokens.now }
{
    match tokens {
        [first, rest @ ..] => OPEN.is_met_by(first) && encloses(rest),
        [] => false,
    }
}

// What stands for a chain of none, which there is not.
fn no_condition(alloc: Global) -> Result<CondTree, ReadError>
    ensures { MatchResult result (λ x. x ≡ spec.no_condition) (λ e. e ≡ ReadError.NoMemory) }
{
    let source = Name::from_slice(alloc, &[])?;
    Ok(Cond::HasEdge(source, Name::from_slice(alloc, &[])?))
}

#[tactic(auto, using(crate::proofs::Gathers::chain_is))]
fn conjunction(alloc: Global, parts: Vec<Ranged<CondTree>>) -> Result<Ranged<CondTree>, ReadError>
    ensures { MatchResult result (λ x. x ≡ chained spec.no_condition c.And parts.items) (λ e. e ≡ ReadError.NoMemory) }
{
    let Ranged { tree, past } = linked(alloc, parts)?;
    let tree = match tree {
        Links::Nothing => no_condition(alloc)?,
        Links::One(tree) => tree,
        Links::More(first, rest) => Cond::And(first, rest),
    };
    Ok(Ranged { tree, past })
}

#[tactic(auto, using(crate::proofs::Gathers::chain_is))]
fn disjunction(alloc: Global, parts: Vec<Ranged<CondTree>>) -> Result<Ranged<CondTree>, ReadError>
    ensures { MatchResult result (λ x. x ≡ chained spec.no_condition c.Or parts.items) (λ e. e ≡ ReadError.NoMemory) }
{
    let Ranged { tree, past } = linked(alloc, parts)?;
    let tree = match tree {
        Links::Nothing => no_condition(alloc)?,
        Links::One(tree) => tree,
        Links::More(first, rest) => Cond::Or(first, rest),
    };
    Ok(Ranged { tree, past })
}

fn denied(alloc: Global, part: Ranged<CondTree>) -> Result<Ranged<CondTree>, ReadError>
    ensures { MatchResult result (λ x. x ≡ with c.Not part) (λ e. e ≡ ReadError.NoMemory) }
{
    let Ranged { tree, past } = part;
    Ok(Ranged {
        tree: Cond::Not(Boxed::new(alloc, tree)?),
        past,
    })
}

/// How much room is left, for lists and for conditions.
#[derive(Clone, Copy)]
struct Rooms {
    lists: u64,
    conditions: u64,
}

#[cycle(condition)]
#[tactic(auto, unfolding(crate::specs::Conditions::negation))]
fn read_negation(tokens: &mut Tokens<'_, '_>, rooms: Rooms) -> Result<Ranged<CondTree>, ReadError>
    ensures { Reads (reader_of (spec.negation (list rooms.lists) rooms.conditions) tokens.old) result tokens.new }
{
    let Rooms { lists, conditions } = rooms;
    if conditions == 0 {
        return Err(tokens.refusal());
    }
    read_negated(tokens, lists, conditions - 1)
}

// Neg = "not" Neg | "(" Cond ")" | Test, inside so much room.
#[cycle(condition)]
#[tactic(auto, unfolding(crate::specs::Conditions::negated_in, crate::specs::Conditions::in_parentheses))]
fn read_negated(
    tokens: &mut Tokens<'_, '_>,
    lists: u64,
    room: u64,
) -> Result<Ranged<CondTree>, ReadError>
    ensures { Reads (reader_of (spec.negated_in (list lists) (spec.negation (list lists) room)) tokens.old) result tokens.new }
{
    if tokens.eat(NOT) {
        let rooms = Rooms {
            lists,
            conditions: room,
        };
        let part = read_negation(tokens, rooms)?;
        return denied(tokens.alloc(), part);
    }
    if condition_ahead(tokens.left()) {
        if !tokens.eat(OPEN) {
            return Err(tokens.refusal());
        }
        let condition = read_condition(tokens, lists, room)?;
        if !tokens.eat(CLOSE) {
            return Err(tokens.refusal());
        }
        return Ok(condition);
    }
    read_test(tokens, lists)
}

/// Cond = Conj {"or" Conj}, Conj = Neg {"and" Neg}
#[cycle(condition)]
#[tactic(auto, unfolding(crate::specs::Conditions::disjunction))]
pub fn read_condition(
    tokens: &mut Tokens<'_, '_>,
    lists: u64,
    room: u64,
) -> Result<Ranged<CondTree>, ReadError>
    ensures { Reads (reader_of (spec.condition lists room) tokens.old) result tokens.new }
{
    let row = Row {
        sign: AND,
        inside: Rooms {
            lists,
            conditions: room,
        },
        read: read_negation,
        make: conjunction,
    };
    let rows = read_rows(tokens, OR, row)?;
    disjunction(tokens.alloc(), rows)
}
