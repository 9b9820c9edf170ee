//! The sheet that the tokens of a declaration are put on.

ghost use Rattle.std.specs.Prelude.{◌≡◌, false, [], ◌∷◌, IfOk};
ghost use Rattle.gp_fmt.specs.declared.piece.Piece.TheVariants as p;

use crate::piece::Piece;
use gp_memory::NoMemory;
use gp_syntax::Name;
use gp_tokens::{Keyword, Kind, Slice};
use std::alloc::Global;

/// The tokens of one declaration, in order. Where memory is refused for one of them, the sheet says so at the end, and not
/// before.
#[derive(Drop)]
pub(crate) struct Sheet<'a> {
    pieces: Vec<Piece<'a>>,
    refused: bool,
}

impl<'a> Sheet<'a> {
    ghost use Rattle.gp_fmt.specs.inside.Puts.{Puts};

    /// An empty sheet.
    pub(crate) fn new(alloc: Global) -> Self
        ensures { result.pieces.items ≡ [] }
    {
        Sheet {
            pieces: Vec::new(alloc),
            refused: false,
        }
    }

    /// Puts a token.
    pub(crate) fn put(&mut self, piece: Piece<'a>)
        ensures { Puts self.old self.new (piece.entry ∷ []) }
    {
        if self.pieces.push(piece).is_err() {
            self.refused = true;
        }
    }

    /// Puts a sign.
    pub(crate) fn sign(&mut self, kind: Kind)
        ensures { Puts self.old self.new (p.Sign kind ∷ []) }
    {
        self.put(Piece::Sign(kind));
    }

    /// Puts a word with a meaning of its own.
    pub(crate) fn word(&mut self, word: Keyword)
        ensures { Puts self.old self.new (p.Word word ∷ []) }
    {
        self.put(Piece::Word(word));
    }

    /// Puts a name.
    pub(crate) fn name(&mut self, name: &'a Name)
        ensures { Puts self.old self.new (p.Name name.now ∷ []) }
    {
        self.put(Piece::Name(Slice::new(name.as_bytes())));
    }

    /// The tokens, if memory was refused for none.
    pub(crate) fn into_pieces(self) -> Result<Vec<Piece<'a>>, NoMemory>
        ensures { IfOk result (λ ps. (self.entry.refused ≡ false) × (ps.items ≡ self.entry.pieces.items)) }
    {
        if self.refused {
            return Err(NoMemory);
        }
        Ok(self.pieces)
    }
}
