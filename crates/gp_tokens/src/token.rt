//! Tokens, and the classes of names.

ghost use Rattle.std.specs.Prelude.{◌≡◌, slice_index};
ghost use Rattle.gp_tokens.specs.Kinds.{same_kind};
ghost use Rattle.gp_tokens.specs.Numbers.{checked_number};
ghost use Rattle.gp_tokens.specs.Words as spec;

use crate::keyword::{Keyword, is_reserved};
use crate::number::number;
use crate::text::Slice;

/// What a token is: a number, a word, a string, or which sign.
#[derive(Clone, Copy, Debug, PartialEq, Eq)]
pub enum Kind {
    Number,
    Word,
    String,
    OpenParenthesis,
    CloseParenthesis,
    OpenBracket,
    CloseBracket,
    OpenBrace,
    CloseBrace,
    Less,
    Greater,
    LessEqual,
    GreaterEqual,
    Equal,
    NotEqual,
    Arrow,
    Comma,
    Semicolon,
    Colon,
    Dot,
    Plus,
    Minus,
    Star,
    Slash,
    Hash,
    Bar,
    Exclamation,
}

impl Kind {
    /// Whether both are one kind.
    #[tactic(auto, unfolding(crate::specs::Kinds::same_kind))]
    pub fn is(self, other: Kind) -> bool
        ensures { result ≡ same_kind self other }
    {
        self == other
    }
}

/// A token: its bytes, which it borrows from the text, the offset of the first of them in the text, and what it is. The
/// fields stand in the order that takes the least memory.
#[derive(Drop)]
pub struct Token<'t> {
    pub text: Slice<'t>,
    pub start: u32,
    pub kind: Kind,
}

fn first_byte(text: &[u8]) -> u8
    ensures { result ≡ slice_index text.now 0 }
{
    match text {
        [first, ..] => *first,
        [] => 0,
    }
}

impl<'t> Token<'t> {
    /// The same token once more.
    pub fn again(&self) -> Token<'t>
        ensures { result ≡ self.now }
    {
        Token {
            text: self.text.again(),
            start: self.start,
            kind: self.kind,
        }
    }
}

impl Token<'_> {
    /// Whether it is this word.
    pub fn is_word(&self, word: Keyword) -> bool
        ensures { result ≡ spec.is_word word self.now }
    {
        self.kind.is(Kind::Word) && self.text.as_bytes() == word.text().as_bytes()
    }

    /// Whether it may name a node or an edge.
    pub fn is_item(&self) -> bool
        ensures { result ≡ spec.is_item self.now }
    {
        self.kind.is(Kind::Number) || self.is_free_word()
    }

    /// Whether it may name a rule.
    pub fn is_rule_name(&self) -> bool
        ensures { result ≡ spec.is_rule_name self.now }
    {
        self.is_free_word() && first_byte(self.text.as_bytes()).is_ascii_lowercase()
    }

    /// Whether it may name a variable.
    pub fn is_variable(&self) -> bool
        ensures { result ≡ spec.is_variable self.now }
    {
        self.is_free_word() && first_byte(self.text.as_bytes()).is_ascii_alphabetic()
    }

    /// Whether it may name a procedure.
    pub fn is_procedure_name(&self) -> bool
        ensures { result ≡ spec.is_procedure_name self.now }
    {
        self.kind.is(Kind::Word) && first_byte(self.text.as_bytes()).is_ascii_uppercase()
    }

    /// The value of the digits of a number. It is nothing above 2 to the power of 127, where no
    /// number is that `lex` gives.
    pub fn number_value(&self) -> Option<u128>
        ensures { result ≡ checked_number self.now.text }
    {
        number(self.text.as_bytes())
    }

    fn is_free_word(&self) -> bool
        ensures { result ≡ spec.is_free_word self.now }
    {
        self.kind.is(Kind::Word) && !is_reserved(self.text.as_bytes())
    }
}
