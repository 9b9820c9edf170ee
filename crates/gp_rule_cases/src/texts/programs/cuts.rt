//! Programs that are cut short, and programs with a stray sign: reading stops at the cut or at the sign.

use super::put_fault;
use crate::samples::tokens_of;
use gp_program::{ParseFault, parse_program};
use gp_rows::{Answer, field};
use gp_tokens::lex;
use std::alloc::Global;

/// What a text is, behind what stands before it: a program or a fault. Cut anywhere within the text, it is no program.
pub(crate) fn cut(alloc: Global, fields: &[&[u8]], out: &mut Answer) {
    let mut text = Answer::new(alloc);
    text.put(field(fields, 0));
    let mut is_cut = false;
    for letter in field(fields, 1) {
        if is_cut && !stops_at_end(alloc, text.text()) {
            out.word(text.text());
        }
        text.put(&[*letter]);
        is_cut = true;
    }
    put_fault(alloc, text.text(), out);
}

// At which token reading a text stops, and how many tokens it has. Nothing for a program, or for any other fault.
fn stop_of(alloc: Global, text: &[u8]) -> Option<(u64, u64)> {
    match lex(alloc, text) {
        Ok(tokens) => match parse_program(alloc, &tokens) {
            Err(ParseFault::Syntax(place)) => Some((place, tokens.len() as u64)),
            _ => None,
        },
        Err(_) => None,
    }
}

// Whether reading a text stops at its end or at its last token, which the cut may have changed.
fn stops_at_end(alloc: Global, text: &[u8]) -> bool {
    match stop_of(alloc, text) {
        Some((place, count)) => place <= count && count - place <= 1,
        None => false,
    }
}

/// After how many of its tokens, which are apart, a text may end. After any other number of them reading stops there.
pub(crate) fn ends(alloc: Global, fields: &[&[u8]], out: &mut Answer) {
    let mut text = Answer::new(alloc);
    put_end(alloc, text.text(), out);
    for word in field(fields, 0).split(|byte| *byte == b' ') {
        text.word(word);
        put_end(alloc, text.text(), out);
    }
}

// Writes how many tokens a text has, unless reading it stops at its end.
fn put_end(alloc: Global, text: &[u8], out: &mut Answer) {
    match stop_of(alloc, text) {
        Some((place, count)) => out.word_if(place != count, b"elsewhere"),
        None => put_count(alloc, text, out),
    }
}

// Writes how many tokens a program has, or the fault of another text.
fn put_count(alloc: Global, text: &[u8], out: &mut Answer) {
    if let Some(tokens) = tokens_of(alloc, text, out) {
        match parse_program(alloc, &tokens) {
            Ok(_) => out.number(tokens.len() as u64),
            Err(fault) => out.show(&fault),
        }
    }
}

/// Before which tokens of a text, which are apart, reading stops at the second of two arrows. Before each of the others
/// it stops at the first.
pub(crate) fn arrows(alloc: Global, fields: &[&[u8]], out: &mut Answer) {
    let mut text = Answer::new(alloc);
    let mut count = 0u64;
    for word in field(fields, 0).split(|byte| *byte == b' ') {
        let place = arrow_of(alloc, text.text(), word);
        if place == Some(count.saturating_add(1)) {
            out.number(count);
        } else if place != Some(count) {
            out.word(b"elsewhere");
        }
        text.word(word);
        count = count.saturating_add(1);
    }
}

// Where reading stops: behind a text stand two arrows, and then a word.
fn arrow_of(alloc: Global, before: &[u8], word: &[u8]) -> Option<u64> {
    let mut text = Answer::new(alloc);
    text.put(before);
    text.word(b"=> =>");
    text.word(word);
    let (place, _) = stop_of(alloc, text.text())?;
    Some(place)
}
