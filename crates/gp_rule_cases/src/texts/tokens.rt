//! Texts with their tokens or their first fault; lines of tokens; classes of words.

use crate::samples::tokens_of;
use gp_rows::{Answer, Wrong, field, number};
use gp_tokens::{Keyword, Kind, Token, is_reserved, line_of_token};
use std::alloc::Global;

/// What a text is cut into: the kind of each token, and where it starts.
pub(crate) fn answer(alloc: Global, fields: &[&[u8]], out: &mut Answer) {
    if let Some(tokens) = tokens_of(alloc, field(fields, 0), out) {
        for token in tokens.iter() {
            out.debug(&token.kind);
            out.number(u64::from(token.start));
        }
    }
}

/// The line on which a token of a text stands.
pub(crate) fn line(alloc: Global, fields: &[&[u8]], out: &mut Answer) {
    if let Some(tokens) = tokens_of(alloc, field(fields, 0), out) {
        out.number(line_of_token(field(fields, 0), &tokens, number(fields, 1)));
    }
}

/// What each token of a text may stand for, behind a copy of its text.
pub(crate) fn classes(alloc: Global, fields: &[&[u8]], out: &mut Answer) {
    if let Some(tokens) = tokens_of(alloc, field(fields, 0), out) {
        for token in tokens.iter() {
            put_copy(alloc, token, out);
            put_classes(token, out);
        }
    }
}

// Writes a copy of a token's text, which is printed as it is.
fn put_copy(alloc: Global, token: &Token<'_>, out: &mut Answer) {
    match token.text.copy(alloc) {
        Ok(copy) => {
            out.show(&copy);
            if !out.text().ends_with(copy.as_bytes()) {
                out.wrong(Wrong::new("a text is printed as another one"));
            }
        }
        Err(error) => out.debug(&error),
    }
}

fn put_classes(token: &Token<'_>, out: &mut Answer) {
    out.word_if(token.is_item(), b"item");
    out.word_if(token.is_rule_name(), b"rule");
    out.word_if(token.is_variable(), b"variable");
    out.word_if(token.is_procedure_name(), b"procedure");
    out.word_if(is_reserved(token.text.as_bytes()), b"reserved");
    out.word_if(token.is_word(Keyword::Root), b"root");
    out.word_if(token.is_word(Keyword::Bidirectional), b"bidirectional");
    if token.kind.is(Kind::Number) {
        out.debug(&token.number_value());
    }
}
