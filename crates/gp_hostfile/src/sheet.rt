//! The sheet that a text is put on.

ghost use Rattle.std.specs.Prelude.{◌≡◌, false, [], IfOk};
ghost use Rattle.std.specs.Fmt.{decimal};
ghost use Rattle.gp_tokens.specs.FaultText.{lex_text};
ghost use Rattle.gp_values.specs.Labels.{label_text};

use gp_memory::NoMemory;
use gp_tokens::LexFault;
use gp_values::List;
use itoa::Buffer;
use std::alloc::Global;

/// A text, piece by piece. Where memory is refused for one of them, the sheet says so at the end, and not before.
#[derive(Drop)]
pub(crate) struct Sheet {
    text: Vec<u8>,
    refused: bool,
}

impl Sheet {
    ghost use Rattle.gp_hostfile.specs.inside.Puts.{Puts};

    /// An empty sheet.
    pub(crate) fn new(alloc: Global) -> Self
        ensures { result.text.items ≡ [] }
    {
        Sheet {
            text: Vec::new(alloc),
            refused: false,
        }
    }

    /// An empty sheet with room for so many bytes.
    pub(crate) fn with_room(alloc: Global, room: u64) -> Self
        ensures { result.text.items ≡ [] }
    {
        match Vec::with_capacity(alloc, room as usize) {
            Ok(text) => Sheet {
                text,
                refused: false,
            },
            Err(_) => Sheet {
                text: Vec::new(alloc),
                refused: true,
            },
        }
    }

    /// Puts a piece.
    pub(crate) fn put(&mut self, piece: &[u8])
        ensures { Puts self.old self.new piece.now }
    {
        if self.text.extend_from_slice(piece).is_err() {
            self.refused = true;
        }
    }

    /// Puts a number.
    pub(crate) fn number(&mut self, number: u64)
        ensures { Puts self.old self.new (decimal number) }
    {
        self.put(Buffer::new().format(number).as_bytes());
    }

    /// Puts the text of a label.
    pub(crate) fn label(&mut self, label: &List)
        ensures { Puts self.old self.new (label_text label.now) }
    {
        if label.write_label(&mut self.text).is_err() {
            self.refused = true;
        }
    }

    /// Puts the text of a fault of the lexer.
    pub(crate) fn lex_fault(&mut self, fault: &LexFault)
        ensures { Puts self.old self.new (lex_text fault.now) }
    {
        if fault.write_text(&mut self.text).is_err() {
            self.refused = true;
        }
    }

    /// The text, if memory was refused for no piece.
    pub(crate) fn into_text(self) -> Result<Vec<u8>, NoMemory>
        ensures { IfOk result (λ v. (self.refused ≡ false) × (v.items ≡ self.text.items)) }
    {
        if self.refused {
            return Err(NoMemory);
        }
        Ok(self.text)
    }
}
