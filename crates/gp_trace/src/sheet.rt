//! The sheet that a text is put on.

ghost use Rattle.std.specs.Prelude.{◌≡◌, false, [], IfOk};
ghost use Rattle.std.specs.Fmt.{decimal};
ghost use Rattle.gp_trace.specs.Reading.{IsNumber};

use gp_memory::NoMemory;
use itoa::Buffer;
use std::alloc::Global;

/// A text, piece by piece. Where memory is refused for one of them, the sheet says so at the end, and not before.
#[derive(Drop)]
pub(crate) struct Sheet {
    text: Vec<u8>,
    refused: bool,
}

impl Sheet {
    ghost use Rattle.gp_trace.specs.inside.Puts.{Puts};

    /// An empty sheet.
    pub(crate) fn new(alloc: Global) -> Self
        ensures { result.text.items ≡ [] }
    {
        Sheet {
            text: Vec::new(alloc),
            refused: false,
        }
    }

    /// Puts a piece.
    pub(crate) fn put(&mut self, piece: &[u8])
        ensures { Puts self.old self.new piece.now }
    {
        if self.text.extend_from_slice(piece).is_err() {
            self.refused = true;
        }
    }

    /// Puts a number.
    pub(crate) fn number(&mut self, number: u64)
        ensures text { Puts self.old self.new (decimal number) }
        ensures held { IsNumber number }
    {
        self.put(Buffer::new().format(number).as_bytes());
    }

    /// The text, if memory was refused for no piece.
    pub(crate) fn into_text(self) -> Result<Vec<u8>, NoMemory>
        ensures { IfOk result (λ v. (self.refused ≡ false) × (v.items ≡ self.text.items)) }
    {
        if self.refused {
            return Err(NoMemory);
        }
        Ok(self.text)
    }
}
