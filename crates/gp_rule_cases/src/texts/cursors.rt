//! Cursors over tokens, what they may want next, and integers of numerals.

use crate::samples::tokens_of;
use gp_rows::{Answer, Wrong, field};
use gp_tokens::{
    Keyword, Kind, Numeral, ReadError, Tokens, Want, repeated_by, separated_by, stands_before,
};
use std::alloc::Global;

/// What a cursor over the tokens of a text gives from the front on, step by step.
pub(crate) fn answer(alloc: Global, fields: &[&[u8]], out: &mut Answer) {
    if let Some(tokens) = tokens_of(alloc, field(fields, 0), out) {
        let mut cursor = Tokens::new(alloc, &tokens);
        read(&mut cursor, out);
        test(&cursor, out);
    }
}

// A parenthesis, a word, two numbers and what is none, a string and what is none, and what is no variable.
fn read(tokens: &mut Tokens<'_, '_>, out: &mut Answer) {
    expect(tokens, Want::Kind(Kind::OpenParenthesis), out);
    out.show(&tokens.begins(Want::Keyword(Keyword::Root)));
    out.show(&tokens.eat(Want::Keyword(Keyword::Bidirectional)));
    out.show(&tokens.eat(Want::Item));
    out.debug(&read_number(tokens, ()));
    out.debug(&tokens.number_at());
    out.debug(&read_number(tokens, ()));
    string(tokens, out);
    string(tokens, out);
    expect(tokens, Want::Variable, out);
}

// Whether a bar stands before a bracket, and a bracket before a bar; and how many tokens are left.
fn test(tokens: &Tokens<'_, '_>, out: &mut Answer) {
    let (bar, close) = (Want::Kind(Kind::Bar), Want::Kind(Kind::CloseBracket));
    out.show(&stands_before(tokens.left(), bar, close));
    out.show(&stands_before(tokens.left(), close, bar));
    out.number(tokens.count() as u64);
}

/// The numbers at the front of a text, those with colons between them, and how many tokens are left behind these.
pub(crate) fn lists(alloc: Global, fields: &[&[u8]], out: &mut Answer) {
    if let Some(tokens) = tokens_of(alloc, field(fields, 0), out) {
        numbers(&mut Tokens::new(alloc, &tokens), out);
        numbers_by_colons(&mut Tokens::new(alloc, &tokens), out);
    }
}

fn string(tokens: &mut Tokens<'_, '_>, out: &mut Answer) {
    match tokens.string() {
        Ok(chars) => out.word(chars.as_bytes()),
        Err(error) => out.debug(&error),
    }
}

// Where the token that is wanted starts.
fn expect(tokens: &mut Tokens<'_, '_>, want: Want, out: &mut Answer) {
    match tokens.expect(want) {
        Ok(token) => out.number(u64::from(token.start)),
        Err(error) => out.debug(&error),
    }
}

fn read_number(tokens: &mut Tokens<'_, '_>, _nothing: ()) -> Result<u128, ReadError> {
    let (value, _) = tokens.number_at()?;
    Ok(value)
}

fn numbers(tokens: &mut Tokens<'_, '_>, out: &mut Answer) {
    match repeated_by(tokens, Want::Kind(Kind::Number), (), read_number) {
        Ok(numbers) => out.debug(&numbers),
        Err(error) => out.debug(&error),
    }
}

fn numbers_by_colons(tokens: &mut Tokens<'_, '_>, out: &mut Answer) {
    match separated_by(tokens, Want::Kind(Kind::Colon), (), read_number) {
        Ok(numbers) => {
            out.debug(&numbers);
            out.number(tokens.count() as u64);
        }
        Err(error) => out.debug(&error),
    }
}

/// What wants each token of a text meets.
pub(crate) fn wants(alloc: Global, fields: &[&[u8]], out: &mut Answer) {
    if let Some(tokens) = tokens_of(alloc, field(fields, 0), out) {
        for token in tokens.iter() {
            out.word_if(Want::Item.is_met_by(token), b"item");
            out.word_if(Want::RuleName.is_met_by(token), b"rule");
            out.word_if(Want::Variable.is_met_by(token), b"variable");
            out.word_if(Want::ProcedureName.is_met_by(token), b"procedure");
            out.word_if(Want::Keyword(Keyword::Not).is_met_by(token), b"not");
        }
    }
}

/// The integer of a numeral, which may have a minus.
pub(crate) fn integer(fields: &[&[u8]], out: &mut Answer) {
    let (negative, digits) = match field(fields, 0) {
        [b'-', digits @ ..] => (true, digits),
        digits => (false, digits),
    };
    match value_of(digits) {
        Some(value) => out.debug(&Numeral { negative, value }.integer()),
        None => out.wrong(Wrong::new("no numeral")),
    }
}

fn value_of(digits: &[u8]) -> Option<u128> {
    match str::from_utf8(digits) {
        Ok(text) => text.parse::<u128>().ok(),
        Err(_) => None,
    }
}
