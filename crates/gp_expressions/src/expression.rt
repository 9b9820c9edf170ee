//! Reads expressions, one function for each line of the grammar.

ghost use Rattle.std.specs.Prelude.{◌≡◌, MatchResult};
ghost use Rattle.gp_tokens.specs.Cursor.{Reads};
ghost use Rattle.gp_tokens.specs.Reading.{reader_of, made, number_at};
ghost use Rattle.gp_tokens.specs.Numerals.{integer_of};
ghost use Rattle.gp_syntax.specs.declared.expression.Expr.TheVariants as e;
ghost use Rattle.gp_syntax.specs.declared.expression.SumSign.TheVariants as sums;
ghost use Rattle.gp_syntax.specs.declared.expression.ProductSign.TheVariants as products;
ghost use Rattle.gp_expressions.specs.Expressions as spec;
ghost use Rattle.gp_expressions.specs.Ranges.{with, all_joined, chained};
ghost use Rattle.gp_expressions.specs.inside.Chains.{operands_of};
ghost use Rattle.gp_expressions.specs.inside.Leaves.{functions};
ghost use Rattle.gp_expressions.specs.inside.Rows.{signed_row};

use crate::chain::{Links, linked};
use crate::ranged::{Ranged, join, whole};
use crate::rows::{Row, read_rows};
use gp_syntax::{Boxed, Expr, Items, Name, ProductSign, Signed, SumSign};
use gp_tokens::{Keyword, Kind, Numeral, ReadError, Tokens, Want};
use std::alloc::Global;

const OPEN: Want = Want::Kind(Kind::OpenParenthesis);

const CLOSE: Want = Want::Kind(Kind::CloseParenthesis);

const NUMBER: Want = Want::Kind(Kind::Number);

const STRING: Want = Want::Kind(Kind::String);

const COLON: Want = Want::Kind(Kind::Colon);

const DOT: Want = Want::Kind(Kind::Dot);

const PLUS: Want = Want::Kind(Kind::Plus);

const MINUS: Want = Want::Kind(Kind::Minus);

const STAR: Want = Want::Kind(Kind::Star);

const SLASH: Want = Want::Kind(Kind::Slash);

fn numeral(numeral: Numeral, start: u64) -> Ranged<Expr<Name>>
    ensures { result ≡ spec.numeral_tree start (integer_of numeral) }
{
    match numeral.integer() {
        Some(integer) => whole(Expr::Number(integer)),
        None => Ranged {
            tree: Expr::Empty,
            past: Some(start),
        },
    }
}

// Operands with their signs: of the first, and of the others.
fn signed<S: Copy>(
    alloc: Global,
    head: S,
    sign: S,
    parts: Vec<Ranged<Expr<Name>>>,
) -> Result<Ranged<Items<Signed<S, Expr<Name>>>>, ReadError>
    ensures { MatchResult result (λ x. x ≡ signed_row head sign parts.items) (λ e. e ≡ ReadError.NoMemory) }
{
    let mut operands = Items::new(alloc);
    let mut past = None;
    let mut next = head;
    for part in parts {
        let Ranged { tree, past: more } = part;
        operands.push(Signed {
            sign: next,
            operand: tree,
        })?;
        past = past.or(more);
        next = sign;
    }
    Ok(Ranged {
        tree: operands,
        past,
    })
}

fn quotients(
    alloc: Global,
    parts: Vec<Ranged<Expr<Name>>>,
) -> Result<Ranged<Items<Signed<ProductSign, Expr<Name>>>>, ReadError>
    ensures { MatchResult result (λ x. x ≡ signed_row products.Times products.Over parts.items) (λ e. e ≡ ReadError.NoMemory) }
{
    signed(alloc, ProductSign::Times, ProductSign::Over, parts)
}

fn differences(
    alloc: Global,
    parts: Vec<Ranged<Expr<Name>>>,
) -> Result<Ranged<Items<Signed<SumSign, Expr<Name>>>>, ReadError>
    ensures { MatchResult result (λ x. x ≡ signed_row sums.Plus sums.Minus parts.items) (λ e. e ≡ ReadError.NoMemory) }
{
    signed(alloc, SumSign::Plus, SumSign::Minus, parts)
}

// What a chain of operands is made of, of which the first is without its sign.
#[tactic(auto, using(crate::proofs::Gathers::all_joined_is))]
fn operands_of<S: Copy>(
    alloc: Global,
    rows: Vec<Ranged<Items<Signed<S, Expr<Name>>>>>,
) -> Result<Ranged<Links<Expr<Name>, Signed<S, Expr<Name>>>>, ReadError>
    ensures { MatchResult result (λ x. x ≡ with operands_of (all_joined rows.items)) (λ e. e ≡ ReadError.NoMemory) }
{
    let Ranged { mut tree, past } = join(whole(Items::new(alloc)), rows)?;
    if tree.is_empty() {
        let tree = Links::Nothing;
        return Ok(Ranged { tree, past });
    }
    let first = tree.remove(0).operand;
    if tree.is_empty() {
        let tree = Links::One(first);
        return Ok(Ranged { tree, past });
    }
    let tree = Links::More(Boxed::new(alloc, first)?, tree);
    Ok(Ranged { tree, past })
}

#[tactic(auto, using(crate::proofs::Gathers::product_tree_is))]
fn product_of(
    alloc: Global,
    rows: Vec<Ranged<Items<Signed<ProductSign, Expr<Name>>>>>,
) -> Result<Ranged<Expr<Name>>, ReadError>
    ensures { MatchResult result (λ x. x ≡ with spec.product_tree (all_joined rows.items)) (λ e. e ≡ ReadError.NoMemory) }
{
    let Ranged { tree, past } = operands_of(alloc, rows)?;
    let tree = match tree {
        Links::Nothing => Expr::Empty,
        Links::One(tree) => tree,
        Links::More(first, rest) => Expr::Product(first, rest),
    };
    Ok(Ranged { tree, past })
}

#[tactic(auto, using(crate::proofs::Gathers::sum_tree_is))]
fn sum_of(
    alloc: Global,
    rows: Vec<Ranged<Items<Signed<SumSign, Expr<Name>>>>>,
) -> Result<Ranged<Expr<Name>>, ReadError>
    ensures { MatchResult result (λ x. x ≡ with spec.sum_tree (all_joined rows.items)) (λ e. e ≡ ReadError.NoMemory) }
{
    let Ranged { tree, past } = operands_of(alloc, rows)?;
    let tree = match tree {
        Links::Nothing => Expr::Empty,
        Links::One(tree) => tree,
        Links::More(first, rest) => Expr::Sum(first, rest),
    };
    Ok(Ranged { tree, past })
}

#[tactic(auto, using(crate::proofs::Gathers::chain_is))]
fn dotted(alloc: Global, parts: Vec<Ranged<Expr<Name>>>) -> Result<Ranged<Expr<Name>>, ReadError>
    ensures { MatchResult result (λ x. x ≡ chained e.Empty e.Dot parts.items) (λ e. e ≡ ReadError.NoMemory) }
{
    let Ranged { tree, past } = linked(alloc, parts)?;
    let tree = match tree {
        Links::Nothing => Expr::Empty,
        Links::One(tree) => tree,
        Links::More(first, rest) => Expr::Dot(first, rest),
    };
    Ok(Ranged { tree, past })
}

#[tactic(auto, using(crate::proofs::Gathers::chain_is))]
fn colon_joined(
    alloc: Global,
    parts: Vec<Ranged<Expr<Name>>>,
) -> Result<Ranged<Expr<Name>>, ReadError>
    ensures { MatchResult result (λ x. x ≡ chained e.Empty e.Join parts.items) (λ e. e ≡ ReadError.NoMemory) }
{
    let Ranged { tree, past } = linked(alloc, parts)?;
    let tree = match tree {
        Links::Nothing => Expr::Empty,
        Links::One(tree) => tree,
        Links::More(first, rest) => Expr::Join(first, rest),
    };
    Ok(Ranged { tree, past })
}

fn negated(alloc: Global, part: Ranged<Expr<Name>>) -> Result<Ranged<Expr<Name>>, ReadError>
    ensures { MatchResult result (λ x. x ≡ spec.negated part) (λ e. e ≡ ReadError.NoMemory) }
{
    let Ranged { tree, past } = part;
    Ok(Ranged {
        tree: Expr::Negated(Boxed::new(alloc, tree)?),
        past,
    })
}

/// The name that comes next, which has to be of this class.
#[tactic(auto, unfolding(crate::specs::Expressions::name))]
pub fn read_name(tokens: &mut Tokens<'_, '_>, want: Want) -> Result<Name, ReadError>
    ensures { Reads (reader_of (spec.name want) tokens.old) result tokens.new }
{
    let token = tokens.expect(want)?;
    Ok(Name::from_slice(tokens.alloc(), token.text.as_bytes())?)
}

// "(" Name ")"
#[tactic(auto, unfolding(crate::specs::Expressions::argument))]
fn read_argument(tokens: &mut Tokens<'_, '_>, want: Want) -> Result<Name, ReadError>
    ensures { Reads (reader_of (spec.argument want) tokens.old) result tokens.new }
{
    if !tokens.eat(OPEN) {
        return Err(tokens.refusal());
    }
    let name = read_name(tokens, want)?;
    if !tokens.eat(CLOSE) {
        return Err(tokens.refusal());
    }
    Ok(name)
}

// ("indeg" | "outdeg") "(" Item ")" | "length" "(" Var ")"
fn read_function(tokens: &mut Tokens<'_, '_>) -> Result<Ranged<Expr<Name>>, ReadError>
    ensures { Reads (reader_of functions tokens.old) result tokens.new }
{
    if tokens.eat(Want::Keyword(Keyword::Indegree)) {
        return Ok(whole(Expr::InDegree(read_argument(tokens, Want::Item)?)));
    }
    if tokens.eat(Want::Keyword(Keyword::Outdegree)) {
        return Ok(whole(Expr::OutDegree(read_argument(tokens, Want::Item)?)));
    }
    if !tokens.eat(Want::Keyword(Keyword::Length)) {
        return Err(tokens.refusal());
    }
    Ok(whole(Expr::Length(read_argument(tokens, Want::Variable)?)))
}

// String | Var | "empty", or a function of a name
#[tactic(auto, unfolding(crate::specs::Expressions::leaf))]
fn read_leaf(tokens: &mut Tokens<'_, '_>) -> Result<Ranged<Expr<Name>>, ReadError>
    ensures { Reads (reader_of spec.leaf tokens.old) result tokens.new }
{
    if tokens.begins(STRING) {
        return Ok(whole(Expr::Text(tokens.string()?)));
    }
    if tokens.begins(Want::Variable) {
        return Ok(whole(Expr::Variable(read_name(tokens, Want::Variable)?)));
    }
    if tokens.eat(Want::Keyword(Keyword::Empty)) {
        return Ok(whole(Expr::Empty));
    }
    read_function(tokens)
}

// A number, with this sign before it.
fn read_number(tokens: &mut Tokens<'_, '_>, negative: bool) -> Result<Ranged<Expr<Name>>, ReadError>
    ensures { Reads (made (λ x. spec.numeral_tree x.1 (integer_of (record { negative = negative; value = x.0 }))) number_at tokens.old) result tokens.new }
{
    let (value, start) = tokens.number_at()?;
    Ok(numeral(Numeral { negative, value }, u64::from(start)))
}

#[cycle(expression)]
#[tactic(auto, unfolding(crate::specs::Expressions::operand))]
fn read_operand(tokens: &mut Tokens<'_, '_>, room: u64) -> Result<Ranged<Expr<Name>>, ReadError>
    ensures { Reads (reader_of (spec.operand room) tokens.old) result tokens.new }
{
    if room == 0 {
        return Err(tokens.refusal());
    }
    read_nested(tokens, room - 1)
}

// A Unary that does not begin with a Number: "-" Unary | "(" List ")" | leaf, inside so much room.
#[cycle(expression)]
#[tactic(auto, unfolding(crate::specs::Expressions::nested))]
fn read_nested(tokens: &mut Tokens<'_, '_>, room: u64) -> Result<Ranged<Expr<Name>>, ReadError>
    ensures { Reads (reader_of (spec.nested (spec.operand room)) tokens.old) result tokens.new }
{
    if tokens.eat(MINUS) {
        if tokens.begins(NUMBER) {
            return read_number(tokens, true);
        }
        let operand = read_operand(tokens, room)?;
        return negated(tokens.alloc(), operand);
    }
    if tokens.eat(OPEN) {
        let list = read_list(tokens, room)?;
        if !tokens.eat(CLOSE) {
            return Err(tokens.refusal());
        }
        return Ok(list);
    }
    read_leaf(tokens)
}

#[cycle(expression)]
#[tactic(auto, unfolding(crate::specs::Expressions::unary))]
fn read_unary(tokens: &mut Tokens<'_, '_>, room: u64) -> Result<Ranged<Expr<Name>>, ReadError>
    ensures { Reads (reader_of (spec.unary (spec.operand room)) tokens.old) result tokens.new }
{
    if tokens.begins(NUMBER) {
        return read_number(tokens, false);
    }
    read_operand(tokens, room)
}

// Prod = Unary {("*" | "/") Unary}: rows of quotients
#[cycle(expression)]
#[tactic(auto, unfolding(crate::specs::Expressions::product))]
fn read_product(tokens: &mut Tokens<'_, '_>, room: u64) -> Result<Ranged<Expr<Name>>, ReadError>
    ensures { Reads (reader_of (spec.product (spec.operand room)) tokens.old) result tokens.new }
{
    let row = Row {
        sign: SLASH,
        inside: room,
        read: read_unary,
        make: quotients,
    };
    let rows = read_rows(tokens, STAR, row)?;
    product_of(tokens.alloc(), rows)
}

// Sum = Prod {("+" | "-") Prod}: rows of differences
#[cycle(expression)]
#[tactic(auto, unfolding(crate::specs::Expressions::sum))]
fn read_sum(tokens: &mut Tokens<'_, '_>, room: u64) -> Result<Ranged<Expr<Name>>, ReadError>
    ensures { Reads (reader_of (spec.sum (spec.operand room)) tokens.old) result tokens.new }
{
    let row = Row {
        sign: MINUS,
        inside: room,
        read: read_product,
        make: differences,
    };
    let rows = read_rows(tokens, PLUS, row)?;
    sum_of(tokens.alloc(), rows)
}

// List = Str {":" Str}, Str = Sum {"." Sum}
#[cycle(expression)]
#[tactic(auto, unfolding(crate::specs::Expressions::joins))]
pub fn read_list(tokens: &mut Tokens<'_, '_>, room: u64) -> Result<Ranged<Expr<Name>>, ReadError>
    ensures { Reads (reader_of (spec.list room) tokens.old) result tokens.new }
{
    let row = Row {
        sign: DOT,
        inside: room,
        read: read_sum,
        make: dotted,
    };
    let parts = read_rows(tokens, COLON, row)?;
    colon_joined(tokens.alloc(), parts)
}
