//! Texts of tokens.

ghost use Rattle.std.specs.Prelude.{◌≡◌, ◌++◌, codes, OnOk, OnErr};
ghost use Rattle.gp_values.specs.Texts.{IsBegun};
ghost use Rattle.gp_fmt.specs.Pieces.{sign_text, text_of};
ghost use Rattle.gp_fmt.specs.Spaces.{joins_next, joins_last, opens, takes_parenthesis, joined, gap, spaced_behind, spaced};

use crate::piece::Piece;
use gp_memory::NoMemory;
use gp_tokens::{Keyword, Kind};
use itoa::Buffer;

fn sign_text(kind: Kind) -> &'static [u8]
    ensures { result.now ≡ sign_text kind }
{
    match kind {
        Kind::OpenParenthesis => b"(",
        Kind::CloseParenthesis => b")",
        Kind::OpenBracket => b"[",
        Kind::CloseBracket => b"]",
        Kind::OpenBrace => b"{",
        Kind::CloseBrace => b"}",
        Kind::Less => b"<",
        Kind::Greater => b">",
        Kind::LessEqual => b"<=",
        Kind::GreaterEqual => b">=",
        Kind::Equal => b"=",
        Kind::NotEqual => b"!=",
        Kind::Arrow => b"=>",
        Kind::Comma => b",",
        Kind::Semicolon => b";",
        Kind::Colon => b":",
        Kind::Dot => b".",
        Kind::Plus => b"+",
        Kind::Minus => b"-",
        Kind::Star => b"*",
        Kind::Slash => b"/",
        Kind::Hash => b"#",
        Kind::Bar => b"|",
        Kind::Exclamation => b"!",
        Kind::Number => b"",
        Kind::Word => b"",
        Kind::String => b"",
    }
}

fn joins_next(piece: &Piece<'_>) -> bool
    ensures { result ≡ joins_next piece.now }
{
    match piece {
        Piece::Sign(Kind::OpenParenthesis | Kind::OpenBrace | Kind::Colon | Kind::Dot) => true,
        Piece::Negation => true,
        _ => false,
    }
}

fn joins_last(piece: &Piece<'_>) -> bool
    ensures { result ≡ joins_last piece.now }
{
    match piece {
        Piece::Sign(Kind::CloseParenthesis | Kind::CloseBrace | Kind::Exclamation) => true,
        Piece::Sign(Kind::Comma | Kind::Semicolon | Kind::Colon | Kind::Dot) => true,
        _ => false,
    }
}

fn opens(piece: &Piece<'_>) -> bool
    ensures { result ≡ opens piece.now }
{
    matches!(piece, Piece::Sign(Kind::OpenParenthesis))
}

fn takes_parenthesis(piece: &Piece<'_>) -> bool
    ensures { result ≡ takes_parenthesis piece.now }
{
    match piece {
        Piece::Name(_) | Piece::Word(Keyword::Edge) => true,
        Piece::Word(Keyword::Int | Keyword::Char | Keyword::String | Keyword::Atom) => true,
        Piece::Word(Keyword::Indegree | Keyword::Outdegree | Keyword::Length) => true,
        _ => false,
    }
}

// Whether no space stands between two tokens.
fn joined(one: &Piece<'_>, next: &Piece<'_>) -> bool
    ensures { result ≡ joined one.now next.now }
{
    joins_next(one) || joins_last(next) || (takes_parenthesis(one) && opens(next))
}

fn gap(one: &Piece<'_>, next: &Piece<'_>) -> &'static [u8]
    ensures { result.now ≡ gap one.now next.now }
{
    if joined(one, next) { b"" } else { b" " }
}

/// Writes a text. On refusal `out` is as before.
pub(crate) fn write_text(text: &[u8], out: &mut Vec<u8>) -> Result<(), NoMemory>
    ensures ok { OnOk result (out.new.items ≡ out.old.items ++ text.now) }
    ensures err { OnErr result (out.new.items ≡ out.old.items) }
{
    out.extend_from_slice(text)?;
    Ok(())
}

fn write_string(characters: &[u8], out: &mut Vec<u8>) -> Result<(), NoMemory>
    ensures ok { OnOk result (out.new.items ≡ out.old.items ++ (codes "\"" ++ characters.now ++ codes "\"")) }
    ensures err { OnErr result (IsBegun (codes "\"" ++ characters.now ++ codes "\"") out.old.items out.new.items) }
{
    write_text(b"\"", out)?;
    write_text(characters, out)?;
    write_text(b"\"", out)
}

fn write_piece(piece: &Piece<'_>, out: &mut Vec<u8>) -> Result<(), NoMemory>
    ensures ok { OnOk result (out.new.items ≡ out.old.items ++ text_of piece.now) }
    ensures err { OnErr result (IsBegun (text_of piece.now) out.old.items out.new.items) }
{
    match piece {
        Piece::Sign(kind) => write_text(sign_text(*kind), out),
        Piece::Negation => write_text(b"-", out),
        Piece::Word(word) => write_text(word.text().as_bytes(), out),
        Piece::Name(name) => write_text(name.as_bytes(), out),
        Piece::Number(value) => write_text(Buffer::new().format(*value).as_bytes(), out),
        Piece::String(characters) => write_string(characters.as_bytes(), out),
    }
}

// Writes a token behind another, with its space before it.
fn write_next(one: &Piece<'_>, next: &Piece<'_>, out: &mut Vec<u8>) -> Result<(), NoMemory>
    ensures ok { OnOk result (out.new.items ≡ out.old.items ++ (gap one.now next.now ++ text_of next.now)) }
    ensures err { OnErr result (IsBegun (gap one.now next.now ++ text_of next.now) out.old.items out.new.items) }
{
    write_text(gap(one, next), out)?;
    write_piece(next, out)
}

fn write_behind<'p, 'a>(
    first: &'p Piece<'a>,
    others: &'p [Piece<'a>],
    out: &mut Vec<u8>,
) -> Result<(), NoMemory>
    ensures ok { OnOk result (out.new.items ≡ out.old.items ++ spaced_behind first.now others.now) }
    ensures err { OnErr result (IsBegun (spaced_behind first.now others.now) out.old.items out.new.items) }
{
    let mut last = first;
    'each: for next in others {
        write_next(last, next, out)?;
        last = next;
    }
    Ok(())
}

/// Writes tokens on one line. On refusal `out` holds what it held, and behind it a beginning of the text.
pub(crate) fn write_spaced(pieces: &[Piece<'_>], out: &mut Vec<u8>) -> Result<(), NoMemory>
    ensures ok { OnOk result (out.new.items ≡ out.old.items ++ spaced pieces.now) }
    ensures err { OnErr result (IsBegun (spaced pieces.now) out.old.items out.new.items) }
{
    match pieces.split_first() {
        None => Ok(()),
        Some((first, others)) => {
            write_piece(first, out)?;
            write_behind(first, others, out)
        }
    }
}
