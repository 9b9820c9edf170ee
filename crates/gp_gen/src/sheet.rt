//! The sheet that a host text is put on.

ghost use Rattle.std.specs.Prelude.{◌≡◌, false, IfOk};
ghost use Rattle.std.specs.Fmt.{decimal};

use gp_memory::NoMemory;
use itoa::Buffer;

/// A text, piece by piece. Where memory is refused for one of them, the sheet says so at the end, and not before.
#[derive(Drop)]
pub(crate) struct Sheet {
    text: Vec<u8>,
    refused: bool,
}

impl Sheet {
    ghost use Rattle.gp_gen.specs.inside.Puts.{Puts};

    /// A sheet that says what `text` says.
    pub(crate) fn new(text: Vec<u8>) -> Self
        ensures { result.text.items ≡ text.items }
    {
        Sheet {
            text,
            refused: false,
        }
    }

    /// Puts a piece.
    pub(crate) fn put(&mut self, piece: &[u8])
        ensures { Puts self.old self.new piece.now }
    {
        if self.text.extend_from_slice(piece).is_err() {
            self.refused = true;
        }
    }

    /// Puts a number.
    pub(crate) fn number(&mut self, number: u64)
        ensures { Puts self.old self.new (decimal number) }
    {
        self.put(Buffer::new().format(number).as_bytes());
    }

    /// The text, if memory was refused for no piece.
    pub(crate) fn into_text(self) -> Result<Vec<u8>, NoMemory>
        ensures { IfOk result (λ t. (self.refused ≡ false) × (t.items ≡ self.text.items)) }
    {
        if self.refused {
            return Err(NoMemory);
        }
        Ok(self.text)
    }
}
