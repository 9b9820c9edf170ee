//! The lines on which tokens stand.

ghost use Rattle.std.specs.Prelude.{◌≡◌, ◌≤◌, length, count_by, slice_get};
ghost use Rattle.gp_tokens.specs.Lines.{is_line_feed, line_at, start_of, token_line};

use crate::cutter::Cutter;
use crate::token::Token;

/// The line, counted from 1, on which the token of the text at this place stands. Places are counted from 0, and past the
/// last token it is the line on which the text ends.
pub fn line_of_token(text: &[u8], tokens: &[Token<'_>], place: u64) -> u64
    ensures { result ≡ token_line text.now tokens.now place }
{
    line_at(text, start_of(text, tokens, place))
}

/// The same, where these tokens of the text are still to be cut.
pub fn line_of_place(text: &[u8], tokens: Cutter<'_>, place: u64) -> u64
    ensures { result ≡ token_line text.now tokens.entry place }
{
    let mut left = tokens;
    'skipped: for _ in 0..place {
        left.step();
    }
    match left.step() {
        Some(token) => line_at(text, token.start as usize),
        None => line_at(text, text.len()),
    }
}

fn start_of(text: &[u8], tokens: &[Token<'_>], place: u64) -> usize
    ensures { result ≡ start_of text.now (slice_get tokens.now place) }
{
    match tokens.get(place as usize) {
        Some(token) => token.start as usize,
        None => text.len(),
    }
}

fn line_at(text: &[u8], at: usize) -> u64
    ensures { result ≡ line_at text.now at }
{
    match text.get(..at) {
        Some(front) => 1 + line_feeds(front),
        None => 1 + line_feeds(text),
    }
}

fn line_feeds(text: &[u8]) -> u64
    ensures value { result ≡ count_by is_line_feed text.now }
    ensures within { result ≤ length text.now }
{
    text.iter().filter(|byte| **byte == b'\n').count() as u64
}
