//! Words that have a meaning of their own.

ghost use Rattle.std.specs.Prelude.{◌≡◌};
ghost use Rattle.gp_tokens.specs.Words.{keyword_text};
ghost use Rattle.gp_tokens.specs.Words as spec;

/// A word with a meaning of its own. All but `R` and `B` are reserved.
#[derive(Clone, Copy, PartialEq, Eq)]
pub enum Keyword {
    Interface,
    Where,
    Empty,
    Not,
    And,
    Or,
    Edge,
    Indegree,
    Outdegree,
    Length,
    Int,
    Char,
    String,
    Atom,
    List,
    If,
    Then,
    Else,
    Try,
    Skip,
    Fail,
    Break,
    /// `R`, for a root.
    Root,
    /// `B`, for an edge of both directions.
    Bidirectional,
}

/// The reserved words.
pub const RESERVED: [Keyword; 22] = [
    Keyword::Interface,
    Keyword::Where,
    Keyword::Empty,
    Keyword::Not,
    Keyword::And,
    Keyword::Or,
    Keyword::Edge,
    Keyword::Indegree,
    Keyword::Outdegree,
    Keyword::Length,
    Keyword::Int,
    Keyword::Char,
    Keyword::String,
    Keyword::Atom,
    Keyword::List,
    Keyword::If,
    Keyword::Then,
    Keyword::Else,
    Keyword::Try,
    Keyword::Skip,
    Keyword::Fail,
    Keyword::Break,
];

impl Keyword {
    /// How the word is spelled.
    pub fn text(self) -> &'static str
        ensures { result.now ≡ keyword_text self }
    {
        match self {
            Keyword::Interface => "interface",
            Keyword::Where => "where",
            Keyword::Empty => "empty",
            Keyword::Not => "not",
            Keyword::And => "and",
            Keyword::Or => "or",
            Keyword::Edge => "edge",
            Keyword::Indegree => "indeg",
            Keyword::Outdegree => "outdeg",
            Keyword::Length => "length",
            Keyword::Int => "int",
            Keyword::Char => "char",
            Keyword::String => "string",
            Keyword::Atom => "atom",
            Keyword::List => "list",
            Keyword::If => "if",
            Keyword::Then => "then",
            Keyword::Else => "else",
            Keyword::Try => "try",
            Keyword::Skip => "skip",
            Keyword::Fail => "fail",
            Keyword::Break => "break",
            Keyword::Root => "R",
            Keyword::Bidirectional => "B",
        }
    }
}

fn is_among(text: &[u8], words: &[Keyword]) -> bool
    ensures { result ≡ spec.is_among text.now words.now }
{
    words.iter().any(|word| word.text().as_bytes() == text)
}

/// Whether this is the text of a reserved word. None has a digit at its second place, as many names have.
#[tactic(auto, using(crate::proofs::Numerals::digit_is_free))]
pub fn is_reserved(text: &[u8]) -> bool
    ensures { result ≡ spec.is_reserved text.now }
{
    if text.len() > 1 && text[1].is_ascii_digit() {
        return false;
    }
    is_among(text, &RESERVED)
}
