//! What stands at the front of a text.

ghost use Rattle.std.specs.Prelude.{◌≡◌, ◌≢◌, ◌<◌, ◌≤◌, ◌+◌, ◌-◌, ◌^◌, ℕ, length, slice_index, drop, IfSome, true, false};
ghost use Rattle.gp_tokens.specs.Bytes as bytes;
ghost use Rattle.gp_tokens.specs.Front as spec;

use crate::fault::LexFault;
use crate::number::number;
use crate::token::Kind;

/// A class of bytes that may stand in a run.
#[derive(Clone, Copy)]
pub enum Class {
    Digit,
    Word,
    Line,
    String,
}

/// What stands at the front, with its length.
#[derive(Drop)]
pub enum First {
    Skip(usize),
    Token(Kind, usize),
    Fault(LexFault),
}

#[inline(always)]
fn is_in(class: Class, byte: u8) -> bool
    ensures { result ≡ spec.is_in class byte }
{
    match class {
        Class::Digit => byte.is_ascii_digit(),
        Class::Word => byte.is_ascii_alphanumeric() || byte == b'_',
        Class::Line => byte != b'\n',
        Class::String => 32 <= byte && byte <= 126 && byte != b'"',
    }
}

/// How long the longest run of the class is.
#[inline(always)]
fn run(class: Class, text: &[u8]) -> usize
    ensures value { result ≡ spec.run class text.now }
    ensures within { result ≤ length text.now }
    ensures moves { 0 < length text.now → spec.is_in class (slice_index text.now 0) ≡ true → 0 < result }
{
    let mut end = 0;
    while end < text.len() && is_in(class, text[end]) {
        end += 1;
    }
    end
}

fn is_blank(byte: u8) -> bool
    ensures { result ≡ bytes.is_blank byte }
{
    byte == b' ' || byte == b'\t' || byte == b'\r' || byte == b'\n'
}

/// Where the comment ends, by the bytes behind its opening.
fn comment_end(text: &[u8]) -> Option<usize>
    ensures value { result ≡ spec.comment_end text.now }
    ensures within { IfSome result (λ n. n ≤ length text.now) }
{
    let mut rest = text;
    let mut at = 0usize;
    while let [byte, after @ ..] = rest {
        if *byte == b'*' && after.first() == Some(&b'/') {
            return Some(at + 2);
        }
        at += 1;
        rest = after;
    }
    None
}

/// The sign of these two bytes, and how many of them it takes.
fn sign(byte: u8, next: u8) -> Option<(Kind, usize)>
    ensures value { result ≡ spec.sign byte next }
    ensures len { IfSome result (λ s. (0 < s.1) × (s.1 ≤ 2) × (s.1 ≡ 2 → next ≢ 0)) }
{
    match byte {
        b'<' if next == b'=' => Some((Kind::LessEqual, 2)),
        b'>' if next == b'=' => Some((Kind::GreaterEqual, 2)),
        b'!' if next == b'=' => Some((Kind::NotEqual, 2)),
        b'=' if next == b'>' => Some((Kind::Arrow, 2)),
        b'<' => Some((Kind::Less, 1)),
        b'>' => Some((Kind::Greater, 1)),
        b'!' => Some((Kind::Exclamation, 1)),
        b'=' => Some((Kind::Equal, 1)),
        _ => bracket(byte),
    }
}

/// The sign of this byte where it is a bracket or an operator.
fn bracket(byte: u8) -> Option<(Kind, usize)>
    ensures value { result ≡ spec.first_fit byte 0 spec.other_signs }
    ensures len { IfSome result (λ s. s.1 ≡ 1) }
{
    match byte {
        b'(' => Some((Kind::OpenParenthesis, 1)),
        b')' => Some((Kind::CloseParenthesis, 1)),
        b'[' => Some((Kind::OpenBracket, 1)),
        b']' => Some((Kind::CloseBracket, 1)),
        b'{' => Some((Kind::OpenBrace, 1)),
        b'}' => Some((Kind::CloseBrace, 1)),
        b',' => Some((Kind::Comma, 1)),
        b';' => Some((Kind::Semicolon, 1)),
        b':' => Some((Kind::Colon, 1)),
        b'.' => Some((Kind::Dot, 1)),
        b'+' => Some((Kind::Plus, 1)),
        b'-' => Some((Kind::Minus, 1)),
        b'*' => Some((Kind::Star, 1)),
        b'/' => Some((Kind::Slash, 1)),
        b'#' => Some((Kind::Hash, 1)),
        b'|' => Some((Kind::Bar, 1)),
        _ => None,
    }
}

fn word(text: &[u8], at: usize) -> First
    requires word { spec.is_in Class.Word (slice_index text.now 0) ≡ true }
    requires some { 0 < length text.now }
    ensures value { result ≡ spec.word at text.now }
    ensures within { spec.IsWithin (length text.now) result }
{
    let len = run(Class::Word, text);
    let (word, _rest) = text.split_at(len);
    if run(Class::Digit, word) < len {
        return First::Token(Kind::Word, len);
    }
    match number(word) {
        Some(_) => First::Token(Kind::Number, len),
        None => First::Fault(LexFault::NumberTooLong(at as u64)),
    }
}

fn string(text: &[u8], at: usize) -> First
    requires some { 0 < length text.now }
    requires fits { at + length text.now < 2 ^ 64 }
    ensures value { result ≡ spec.string at text.now }
    ensures within { spec.IsWithin (length text.now) result }
{
    let (_quote, inner) = text.split_at(1);
    let len = run(Class::String, inner);
    if len == inner.len() {
        First::Fault(LexFault::OpenString(at as u64))
    } else if inner[len] == b'"' {
        First::Token(Kind::String, len + 2)
    } else {
        First::Fault(LexFault::BadByte((at + len + 1) as u64))
    }
}

fn comment(text: &[u8], at: usize) -> First
    requires some { 2 ≤ length text.now }
    ensures value { result ≡ spec.comment at text.now }
    ensures within { spec.IsWithin (length text.now) result }
{
    let (_opening, inner) = text.split_at(2);
    match comment_end(inner) {
        Some(len) => First::Skip(len + 2),
        None => First::Fault(LexFault::OpenComment(at as u64)),
    }
}

/// What stands at the front of a text that is not empty. The text begins at this offset.
#[tactic(auto, unfolding(crate::specs::Front::front))]
pub fn front(text: &[u8], at: usize) -> First
    requires some { 0 < length text.now }
    requires fits { at + length text.now < 2 ^ 64 }
    ensures value { result ≡ spec.front at text.now }
    ensures within { spec.IsWithin (length text.now) result }
{
    let byte = text[0];
    let next = if 1 < text.len() { text[1] } else { 0 };
    if is_blank(byte) {
        First::Skip(1)
    } else if byte == b'/' && next == b'/' {
        First::Skip(run(Class::Line, text))
    } else if byte == b'/' && next == b'*' {
        comment(text, at)
    } else if is_in(Class::Word, byte) {
        word(text, at)
    } else if byte == b'"' {
        string(text, at)
    } else {
        match sign(byte, next) {
            Some((kind, len)) => First::Token(kind, len),
            None => First::Fault(LexFault::BadByte(at as u64)),
        }
    }
}
