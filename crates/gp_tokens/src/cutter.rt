//! A cursor that cuts a text when a token is asked for.

ghost use Rattle.std.specs.Prelude.{◌≡◌, ◌<◌, ◌+◌, ◌^◌, ◌∷◌, [], drop, length, MatchOption, OnErr, IfErr};
ghost use Rattle.gp_tokens.specs.Ahead as ahead;
ghost use Rattle.gp_tokens.specs.Cursor.{Reads};
ghost use Rattle.gp_tokens.specs.Lexed.{Gives, lexed, tokens_of};
ghost use Rattle.gp_tokens.specs.Reading as spec;
ghost use Rattle.gp_tokens.specs.inside.Cutting.{HasTokens, IsCount, tokens_in, upcoming};

use crate::error::ReadError;
use crate::fault::LexFault;
use crate::front::{First, front};
use crate::quoted::quoted;
use crate::text::Slice;
use crate::token::{Kind, Token};
use crate::want::Want;
use gp_values::Chars;
use std::alloc::Global;
use std::marker::Model;
use std::mem;

// The first token of a text without faults that begins at this offset, and what stands behind it, with its offset.
fn first_of<'t>(text: &'t [u8], start: usize) -> (Option<Token<'t>>, &'t [u8], usize)
    requires fits { start + length text.now < 2 ^ 32 }
    requires faultless { HasTokens start text.now }
    ensures upcoming { upcoming result.0 result.2 result.1.now ≡ tokens_in (lexed 0 start text.now) }
    ensures faultless { HasTokens result.2 result.1.now }
    ensures fits { result.2 + length result.1.now < 2 ^ 32 }
{
    let mut rest = text;
    let mut at = start;
    'each: while 0 < rest.len() {
        match front(rest, at) {
            First::Skip(len) => {
                let (_before, behind) = rest.split_at(len);
                rest = behind;
                at += len;
            }
            First::Token(kind, len) => {
                let (slice, behind) = rest.split_at(len);
                let token = Token {
                    text: Slice::new(slice),
                    start: at as u32,
                    kind,
                };
                return (Some(token), behind, at + len);
            }
            First::Fault(_) => unreachable!(),
        }
    }
    (None, rest, at)
}

// How many tokens the text has, or its first fault. A text of more bytes than offsets count is one that memory has no
// room for.
fn count_tokens(text: &[u8]) -> Result<usize, LexFault>
    ensures { IsCount text.now result }
{
    if text.len() > u32::MAX as usize {
        return Err(LexFault::NoMemory);
    }
    let mut rest = text;
    let mut at = 0;
    let mut count = 0;
    'each: while 0 < rest.len() {
        match front(rest, at) {
            First::Skip(len) => {
                let (_before, behind) = rest.split_at(len);
                rest = behind;
                at += len;
            }
            First::Token(_, len) => {
                let (_before, behind) = rest.split_at(len);
                rest = behind;
                at += len;
                count += 1;
            }
            First::Fault(fault) => return Err(fault),
        }
    }
    Ok(count)
}

/// The tokens of a text that are still to be read, of which only the next one is held, and where trees are put. Contracts
/// see the list of the tokens.
#[derive(Drop)]
pub struct Cutter<'t> {
    alloc: Global,
    next: Option<Token<'t>>,
    rest: &'t [u8],
    at: usize,
    count: usize,
}

impl<'t> Model for Cutter<'t> {
    ghost use Rattle.std.specs.Prelude.{List};
    ghost use Rattle.gp_tokens.specs.declared.token.Token.{Token};
    ghost use Rattle.gp_tokens.specs.inside.Cutting.{upcoming, IsCutting};

    ghost Value = { List Token };

    ghost view = { λ c. upcoming c.next c.at c.rest.now };

    ghost invariant = { λ c. IsCutting c.next c.at c.rest.now c.count };
}

impl<'t> Cutter<'t> {
    /// A cursor at the first token of the text, or the first fault of the text.
    pub fn new(alloc: Global, text: &'t [u8]) -> Result<Cutter<'t>, LexFault>
        ensures { Gives (λ c. c) result (tokens_of text.now) }
    {
        let count = count_tokens(text)?;
        let (next, rest, at) = first_of(text, 0);
        Ok(Cutter {
            alloc,
            next,
            rest,
            at,
            count,
        })
    }

    /// The same cursor once more.
    pub fn again(&self) -> Cutter<'t>
        ensures { result ≡ self.now }
    {
        let next = match &self.next {
            Some(token) => Some(token.again()),
            None => None,
        };
        Cutter {
            alloc: self.alloc,
            next,
            rest: self.rest,
            at: self.at,
            count: self.count,
        }
    }

    /// Where trees are put.
    pub fn alloc(&self) -> Global {
        self.alloc
    }

    /// How many tokens are left.
    pub fn count(&self) -> usize
        ensures { result ≡ length self.now }
    {
        self.count
    }

    /// That the next token fits nothing.
    pub fn refusal(&self) -> ReadError
        ensures { result ≡ ReadError.Syntax (length self.now) }
    {
        ReadError::Syntax(self.count as u64)
    }

    /// Takes the next token, where there is one.
    pub fn step(&mut self) -> Option<Token<'t>>
        ensures { MatchOption result ((self.old ≡ []) × (self.new ≡ [])) (λ t. self.old ≡ t ∷ self.new) }
    {
        if self.next.is_none() {
            return None;
        }
        let (next, rest, at) = first_of(self.rest, self.at);
        self.rest = rest;
        self.at = at;
        self.count -= 1;
        mem::replace(&mut self.next, next)
    }

    /// Whether the next token is what is wanted.
    pub fn begins(&self, want: Want) -> bool
        ensures { result ≡ spec.begins want self.now }
    {
        match &self.next {
            Some(first) => want.is_met_by(first),
            None => false,
        }
    }

    /// Takes the next token, where it is what is wanted, and says whether it was.
    pub fn eat(&mut self, want: Want) -> bool
        ensures found { result ≡ spec.begins want self.old }
        ensures left { self.new ≡ spec.behind want self.old }
    {
        let begins = self.begins(want);
        if begins {
            self.step();
        }
        begins
    }

    /// Takes the next token, which has to be what is wanted.
    pub fn expect(&mut self, want: Want) -> Result<Token<'t>, ReadError>
        ensures read { Reads (spec.token want self.old) result self.new }
        ensures kept { OnErr result (self.new ≡ self.old) }
        ensures left { IfErr result (λ e. e ≡ ReadError.Syntax (length self.old)) }
    {
        let refusal = self.refusal();
        if !self.begins(want) {
            return Err(refusal);
        }
        self.step().ok_or(refusal)
    }

    /// Takes a number of no more than 2 to the power of 127, as its value and its offset in the text.
    pub fn number_at(&mut self) -> Result<(u128, u32), ReadError>
        ensures read { Reads (spec.number_at self.old) result self.new }
        ensures left { IfErr result (λ e. e ≡ ReadError.Syntax (length self.old)) }
    {
        let refusal = self.refusal();
        let first = self.expect(Want::Kind(Kind::Number))?;
        match first.number_value() {
            Some(value) => Ok((value, first.start)),
            None => Err(refusal),
        }
    }

    /// Takes a string, as the characters between its quotation marks.
    pub fn string(&mut self) -> Result<Chars, ReadError>
        ensures { Reads (spec.string self.old) result self.new }
    {
        let refusal = self.refusal();
        let first = self.expect(Want::Kind(Kind::String))?;
        match quoted(self.alloc, first.text.as_bytes())? {
            Some(characters) => Ok(characters),
            None => Err(refusal),
        }
    }

    /// Whether a token that is what is wanted stands behind the next one, before one that stops the search.
    pub fn stands_behind(&self, want: Want, stop: Want) -> bool
        ensures { result ≡ ahead.stands_before want stop (drop 1 self.now) }
    {
        let mut left = self.again();
        left.step();
        'each: while let Some(first) = left.step() {
            if stop.is_met_by(&first) {
                return false;
            }
            if want.is_met_by(&first) {
                return true;
            }
        }
        false
    }
}
