//! The tokens of canonical texts.

use gp_tokens::{Keyword, Kind, Slice};

/// A token of a canonical text. A minus before one operand, `Negation`, is told from one between two. The bytes of a name
/// and the characters of a string are borrowed from the tree.
#[derive(Drop)]
pub enum Piece<'a> {
    Sign(Kind),
    Negation,
    Word(Keyword),
    Name(Slice<'a>),
    Number(u128),
    String(Slice<'a>),
}
