//! What is told of a row, as a text whose writing cannot fail.

use itoa::Buffer;
use std::alloc::Global;
use std::test::Fail;

/// A text. That memory was refused for a piece of it is kept in place of the piece.
pub(crate) struct Answer {
    text: String,
    is_cut: bool,
}

impl Drop for Answer {
    fn drop(self) {
        let Answer { text, is_cut: _ } = self;
        drop(text);
    }
}

impl Answer {
    /// Nothing.
    pub(crate) fn new(alloc: Global) -> Answer {
        Answer {
            text: String::new(alloc),
            is_cut: false,
        }
    }

    /// Writes a text.
    pub(crate) fn put(&mut self, text: &str) {
        if self.text.push_str(text).is_err() {
            self.is_cut = true;
        }
    }

    /// Writes a number.
    pub(crate) fn put_number(&mut self, number: u64) {
        self.put(Buffer::new().format(number));
    }

    /// Fails with what was told, where it is not what is wanted.
    pub(crate) fn expect(&self, wanted: &str) -> Result<(), Fail> {
        if self.text.as_str() == wanted && !self.is_cut {
            Ok(())
        } else {
            Err(Fail::new(self.text.as_str()))
        }
    }
}
