//! A cursor over tokens.

ghost use Rattle.std.specs.Prelude.{◌≡◌, length, OnErr, IfErr};
ghost use Rattle.gp_tokens.specs.Cursor.{Reads, ReadsAs};
ghost use Rattle.gp_tokens.specs.Ahead as ahead;
ghost use Rattle.gp_tokens.specs.Reading as spec;

use crate::error::ReadError;
use crate::quoted::quoted;
use crate::want::Want;
use crate::{Kind, Token};
use gp_values::Chars;
use std::alloc::Global;
use std::marker::Model;

/// The tokens that are still to be read, and where trees are put. Contracts see the list of the tokens.
#[derive(Drop)]
pub struct Tokens<'s, 't> {
    alloc: Global,
    left: &'s [Token<'t>],
}

impl<'s, 't> Model for Tokens<'s, 't> {
    ghost use Rattle.std.specs.Prelude.{List};
    ghost use Rattle.gp_tokens.specs.declared.token.Token.{Token};

    ghost Value = { List Token };

    ghost view = { λ t. t.left.now };
}

impl<'s, 't> Tokens<'s, 't> {
    /// A cursor at the first of the tokens.
    pub fn new(alloc: Global, tokens: &'s [Token<'t>]) -> Tokens<'s, 't>
        ensures { result ≡ tokens.now }
    {
        Tokens {
            alloc,
            left: tokens,
        }
    }

    /// Where trees are put.
    pub fn alloc(&self) -> Global {
        self.alloc
    }

    /// The tokens that are left.
    pub fn left(&self) -> &'s [Token<'t>]
        ensures { result.now ≡ self.now }
    {
        self.left
    }

    /// How many tokens are left.
    pub fn count(&self) -> usize
        ensures { result ≡ length self.now }
    {
        self.left.len()
    }

    /// That the next token fits nothing.
    pub fn refusal(&self) -> ReadError
        ensures { result ≡ ReadError.Syntax (length self.now) }
    {
        ReadError::Syntax(self.left.len() as u64)
    }

    /// Whether the next token is what is wanted.
    pub fn begins(&self, want: Want) -> bool
        ensures { result ≡ spec.begins want self.now }
    {
        match self.left {
            [first, ..] => want.is_met_by(first),
            [] => false,
        }
    }

    /// Takes the next token, where it is what is wanted, and says whether it was.
    pub fn eat(&mut self, want: Want) -> bool
        ensures found { result ≡ spec.begins want self.old }
        ensures left { self.new ≡ spec.behind want self.old }
    {
        match self.left {
            [first, rest @ ..] if want.is_met_by(first) => {
                self.left = rest;
                true
            }
            _ => false,
        }
    }

    /// Takes the next token, which has to be what is wanted.
    pub fn expect(&mut self, want: Want) -> Result<&'s Token<'t>, ReadError>
        ensures read { ReadsAs (λ x. x.now) (spec.token want self.old) result self.new }
        ensures kept { OnErr result (self.new ≡ self.old) }
        ensures left { IfErr result (λ e. e ≡ ReadError.Syntax (length self.old)) }
    {
        match self.left {
            [first, rest @ ..] if want.is_met_by(first) => {
                self.left = rest;
                Ok(first)
            }
            _ => Err(self.refusal()),
        }
    }

    /// Takes a number of no more than 2 to the power of 127, as its value and its offset in the text.
    pub fn number_at(&mut self) -> Result<(u128, u32), ReadError>
        ensures read { Reads (spec.number_at self.old) result self.new }
        ensures left { IfErr result (λ e. e ≡ ReadError.Syntax (length self.old)) }
    {
        let refusal = self.refusal();
        let first = self.expect(Want::Kind(Kind::Number))?;
        match first.number_value() {
            Some(value) => Ok((value, first.start)),
            None => Err(refusal),
        }
    }

    /// Takes a string, as the characters between its quotation marks.
    pub fn string(&mut self) -> Result<Chars, ReadError>
        ensures { Reads (spec.string self.old) result self.new }
    {
        let refusal = self.refusal();
        let first = self.expect(Want::Kind(Kind::String))?;
        match quoted(self.alloc, first.text.as_bytes())? {
            Some(characters) => Ok(characters),
            None => Err(refusal),
        }
    }
}

/// Whether a token that is what is wanted stands before the next one that stops the search.
pub fn stands_before(tokens: &[Token<'_>], want: Want, stop: Want) -> bool
    ensures { result ≡ ahead.stands_before want stop tokens.now }
{
    let mut rest = tokens;
    'each: while let [first, after @ ..] = rest {
        if stop.is_met_by(first) {
            return false;
        }
        if want.is_met_by(first) {
            return true;
        }
        rest = after;
    }
    false
}
