//! Program texts, from their tokens.

ghost use Rattle.std.specs.Prelude.{◌≡◌, ◌≤◌, length};
ghost use Rattle.gp_program.specs.Program.{ParsesProgram, place_of_start};
ghost use Rattle.gp_program.specs.inside.Stages.{ReadsTree};

use crate::depth::first_too_deep;
use crate::program::read_ast;
use gp_expressions::Ranged;
use gp_memory::NoMemory as Refused;
use gp_syntax::Ast;
use gp_tokens::{ReadError, Token, Tokens};
use std::alloc::Global;
use std::fmt::{self, Debug, Display, Formatter, Write};
use thiserror::Error;

/// Why tokens have no tree: the first of these that holds. The number is the place of a token, counted from 0.
#[derive(Drop, Error)]
pub enum ParseFault {
    /// The first token that is nested more than 64 deep.
    #[error("TooDeep {0}")]
    TooDeep(u64),
    /// The tokens are no program, and reading them ended at this token: at most their count.
    #[error("Syntax {0}")]
    Syntax(u64),
    /// The first numeral that is out of range: 2 to the power of 127 without a minus.
    #[error("NumberRange {0}")]
    NumberRange(u64),
    /// Memory was refused.
    #[error("NoMemory")]
    NoMemory,
}

// As it is displayed.
impl Debug for ParseFault {
    fn fmt<W: Write>(&self, f: &mut Formatter<W>) -> fmt::Result {
        Display::fmt(self, f)
    }
}

impl From<Refused> for ParseFault {
    ghost use Rattle.std.specs.Prelude.{◌≡◌};
    ghost use Rattle.gp_program.specs.declared.parse.ParseFault.TheVariants.{NoMemory};

    ghost from_gives = { λ _ e. e ≡ NoMemory };

    fn from(_e: Refused) -> ParseFault {
        ParseFault::NoMemory
    }
}

/// The tree of a program's tokens, or the first fault: a token that is nested too deep, tokens that are no program, a
/// numeral that is out of range.
pub fn parse_program(alloc: Global, tokens: &[Token<'_>]) -> Result<Ast, ParseFault>
    ensures { ParsesProgram tokens.now result }
{
    if let Some(place) = first_too_deep(alloc, tokens)? {
        return Err(ParseFault::TooDeep(place));
    }
    let read = tree_of_tokens(alloc, tokens)?;
    match read.past {
        Some(start) => Err(ParseFault::NumberRange(place_of_start(tokens, start))),
        None => Ok(read.tree),
    }
}

// The tree of all tokens.
fn tree_of_tokens(alloc: Global, tokens: &[Token<'_>]) -> Result<Ranged<Ast>, ParseFault>
    ensures { ReadsTree tokens.now result }
{
    let mut cursor = Tokens::new(alloc, tokens);
    match read_ast(&mut cursor, tokens.len() as u64) {
        Ok(read) if cursor.count() == 0 => Ok(read),
        Ok(_) => Err(ParseFault::Syntax(place(tokens, cursor.count() as u64))),
        Err(ReadError::Syntax(left)) => Err(ParseFault::Syntax(place(tokens, left))),
        Err(ReadError::NoMemory) => Err(ParseFault::NoMemory),
    }
}

// The place of the first of so many tokens at the end.
fn place(tokens: &[Token<'_>], left: u64) -> u64
    ensures { result ≤ length tokens.now }
{
    (tokens.len() as u64).saturating_sub(left)
}

// How many tokens stand before the first that begins at this offset.
fn place_of_start(tokens: &[Token<'_>], start: u64) -> u64
    ensures { result ≡ place_of_start start tokens.now }
{
    let mut place = 0u64;
    let mut rest = tokens;
    'each: while let [token, after @ ..] = rest {
        if u64::from(token.start) == start {
            return place;
        }
        place += 1;
        rest = after;
    }
    place
}
