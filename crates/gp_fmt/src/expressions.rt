//! The tokens of expressions and labels.

ghost use Rattle.std.specs.Prelude.{◌≡◌, ◌||◌, nat_lt, ◌++◌};
ghost use Rattle.std.specs.List.{flat_map};
ghost use Rattle.gp_fmt.specs.declared.piece.Piece.TheVariants as p;
ghost use Rattle.gp_fmt.specs.Expressions.{part_of_expression, expression, in_parentheses_if, member, is_numeral, numeral, applied, minus_level, sum_sign, sum_level, product_sign, product_level, label};
ghost use Rattle.gp_fmt.specs.inside.Links.{sum_link, product_link, chain_link};
ghost use Rattle.gp_fmt.specs.inside.Puts.{Puts};

use crate::piece::Piece;
use crate::sheet::Sheet;
use gp_syntax::{Expr, Name, ProductSign, Signed, SumSign};
use gp_tokens::{Keyword, Kind, Slice};

const JOIN_LEVEL: u8 = 0;

const DOT_LEVEL: u8 = 1;

const SUM_LEVEL: u8 = 2;

const PRODUCT_LEVEL: u8 = 3;

const MINUS_LEVEL: u8 = 4;

// How tightly the own operator of an expression binds.
fn level_of(e: &Expr<Name>) -> u8
    ensures { result ≡ (part_of_expression e.now).level }
{
    match e {
        Expr::Join(_, _) => JOIN_LEVEL,
        Expr::Dot(_, _) => DOT_LEVEL,
        Expr::Sum(_, _) => SUM_LEVEL,
        Expr::Product(_, _) => PRODUCT_LEVEL,
        Expr::Negated(_) => MINUS_LEVEL,
        Expr::Number(_) => 5,
        Expr::Text(_) => 5,
        Expr::Variable(_) => 5,
        Expr::InDegree(_) => 5,
        Expr::OutDegree(_) => 5,
        Expr::Length(_) => 5,
        Expr::Empty => 5,
    }
}

// Whether the numeral has no minus in it.
fn is_from_zero(value: &i128) -> bool
    ensures { result ≡ is_numeral (numeral value.now) }
{
    *value >= 0
}

// Whether the operand of a minus stands in parentheses: a minus directly before a numeral from 0 up would be its own.
fn minus_needs_parentheses(e: &Expr<Name>) -> bool
    ensures { result ≡ (nat_lt (part_of_expression e.now).level minus_level || is_numeral (expression e.now)) }
{
    match e {
        Expr::Join(_, _) => true,
        Expr::Dot(_, _) => true,
        Expr::Sum(_, _) => true,
        Expr::Product(_, _) => true,
        Expr::Negated(_) => false,
        Expr::Number(value) => is_from_zero(value),
        Expr::Text(_) => false,
        Expr::Variable(_) => false,
        Expr::InDegree(_) => false,
        Expr::OutDegree(_) => false,
        Expr::Length(_) => false,
        Expr::Empty => false,
    }
}

fn sum_kind(sign: SumSign) -> Kind
    ensures { p.Sign result ≡ sum_sign sign }
{
    match sign {
        SumSign::Plus => Kind::Plus,
        SumSign::Minus => Kind::Minus,
    }
}

fn product_kind(sign: ProductSign) -> Kind
    ensures { p.Sign result ≡ product_sign sign }
{
    match sign {
        ProductSign::Times => Kind::Star,
        ProductSign::Over => Kind::Slash,
    }
}

// Puts a numeral.
fn put_numeral(value: &i128, sheet: &mut Sheet<'_>)
    ensures { Puts sheet.old sheet.new (numeral value.now) }
{
    if *value >= 0 {
        sheet.put(Piece::Number(value.unsigned_abs()));
    } else {
        sheet.put(Piece::Negation);
        sheet.put(Piece::Number(value.unsigned_abs()));
    }
}

// Puts a word and a name in parentheses behind it.
fn put_applied<'a>(word: Keyword, name: &'a Name, sheet: &mut Sheet<'a>)
    ensures { Puts sheet.old sheet.new (applied word name.now).pieces }
{
    sheet.word(word);
    sheet.sign(Kind::OpenParenthesis);
    sheet.name(name);
    sheet.sign(Kind::CloseParenthesis);
}

/// Puts an expression.
#[cycle(expression)]
pub(crate) fn put_expression<'a>(e: &'a Expr<Name>, sheet: &mut Sheet<'a>)
    ensures { Puts sheet.old sheet.new (expression e.now) }
{
    match e {
        Expr::Number(value) => put_numeral(value, sheet),
        Expr::Text(characters) => sheet.put(Piece::String(Slice::new(characters.as_bytes()))),
        Expr::Variable(name) => sheet.name(name),
        Expr::InDegree(name) => put_applied(Keyword::Indegree, name, sheet),
        Expr::OutDegree(name) => put_applied(Keyword::Outdegree, name, sheet),
        Expr::Length(name) => put_applied(Keyword::Length, name, sheet),
        Expr::Empty => sheet.word(Keyword::Empty),
        Expr::Negated(operand) => {
            let operand = operand.get();
            sheet.put(Piece::Negation);
            put_operand(minus_needs_parentheses(operand), operand, sheet);
        }
        Expr::Sum(first, rest) => put_sum(first.get(), rest.as_slice(), sheet),
        Expr::Product(first, rest) => put_product(first.get(), rest.as_slice(), sheet),
        Expr::Dot(first, rest) => {
            put_chain(Kind::Dot, DOT_LEVEL, first.get(), rest.as_slice(), sheet)
        }
        Expr::Join(first, rest) => {
            put_chain(Kind::Colon, JOIN_LEVEL, first.get(), rest.as_slice(), sheet)
        }
    }
}

// Puts an expression, in parentheses where they are asked for.
#[cycle(expression)]
fn put_operand<'a>(needed: bool, e: &'a Expr<Name>, sheet: &mut Sheet<'a>)
    ensures { Puts sheet.old sheet.new (in_parentheses_if needed (expression e.now)) }
{
    if needed {
        sheet.sign(Kind::OpenParenthesis);
        put_expression(e, sheet);
        sheet.sign(Kind::CloseParenthesis);
    } else {
        put_expression(e, sheet);
    }
}

// Puts a member of a chain of this level.
#[cycle(expression)]
fn put_member<'a>(level: u8, e: &'a Expr<Name>, sheet: &mut Sheet<'a>)
    ensures { Puts sheet.old sheet.new (member level (part_of_expression e.now)) }
{
    put_operand(level_of(e) <= level, e, sheet);
}

// Puts a sum.
#[cycle(expression)]
fn put_sum<'a>(
    first: &'a Expr<Name>,
    rest: &'a [Signed<SumSign, Expr<Name>>],
    sheet: &mut Sheet<'a>,
)
    ensures { Puts sheet.old sheet.new (member sum_level (part_of_expression first.now) ++ flat_map sum_link rest.now) }
{
    put_member(SUM_LEVEL, first, sheet);
    'each: for term in rest {
        sheet.sign(sum_kind(term.sign));
        put_member(SUM_LEVEL, &term.operand, sheet);
    }
}

// Puts a product.
#[cycle(expression)]
fn put_product<'a>(
    first: &'a Expr<Name>,
    rest: &'a [Signed<ProductSign, Expr<Name>>],
    sheet: &mut Sheet<'a>,
)
    ensures { Puts sheet.old sheet.new (member product_level (part_of_expression first.now) ++ flat_map product_link rest.now) }
{
    put_member(PRODUCT_LEVEL, first, sheet);
    'each: for factor in rest {
        sheet.sign(product_kind(factor.sign));
        put_member(PRODUCT_LEVEL, &factor.operand, sheet);
    }
}

// Puts a chain of this sign and level.
#[cycle(expression)]
fn put_chain<'a>(
    sign: Kind,
    level: u8,
    first: &'a Expr<Name>,
    rest: &'a [Expr<Name>],
    sheet: &mut Sheet<'a>,
)
    ensures { Puts sheet.old sheet.new (member level (part_of_expression first.now) ++ flat_map (chain_link sign level) rest.now) }
{
    put_member(level, first, sheet);
    'each: for part in rest {
        sheet.sign(sign);
        put_member(level, part, sheet);
    }
}

/// Puts a label.
pub(crate) fn put_label<'a>(e: &'a Expr<Name>, mark: &'a Option<Name>, sheet: &mut Sheet<'a>)
    ensures { Puts sheet.old sheet.new (label e.now mark.now) }
{
    put_expression(e, sheet);
    match mark {
        None => {}
        Some(word) => {
            sheet.sign(Kind::Hash);
            sheet.name(word);
        }
    }
}
