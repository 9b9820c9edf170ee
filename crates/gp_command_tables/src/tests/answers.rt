//! What is told of a row, as a text whose writing cannot fail, and the fields of rows.

use itoa::Buffer;
use std::alloc::Global;
use std::test::Fail;

/// A text. That memory was refused for a piece of it is kept in place of the piece.
pub(crate) struct Answer {
    text: Vec<u8>,
    is_cut: bool,
}

impl Drop for Answer {
    fn drop(self) {
        let Answer { text, is_cut: _ } = self;
        drop(text);
    }
}

impl Answer {
    /// Nothing.
    pub(crate) fn new(alloc: Global) -> Answer {
        Answer {
            text: Vec::new(alloc),
            is_cut: false,
        }
    }

    /// Writes bytes.
    pub(crate) fn put(&mut self, bytes: &[u8]) {
        if self.text.extend_from_slice(bytes).is_err() {
            self.is_cut = true;
        }
    }

    /// Writes a word, behind a blank where there is one before it.
    pub(crate) fn word(&mut self, word: &str) {
        if !self.text.is_empty() {
            self.put(b" ");
        }
        self.put(word.as_bytes());
    }

    /// Writes a number as a word.
    pub(crate) fn number(&mut self, number: u64) {
        self.word(Buffer::new().format(number));
    }

    /// Writes numbers as words.
    pub(crate) fn numbers(&mut self, numbers: &[u64]) {
        for number in numbers {
            self.number(*number);
        }
    }

    /// What was told.
    pub(crate) fn text(&self) -> &[u8] {
        self.text.as_slice()
    }

    /// Whether this and a newline was told.
    pub(crate) fn is_line(&self, wanted: &str) -> bool {
        !self.is_cut && self.text.strip_suffix(b"\n") == Some(wanted.as_bytes())
    }

    /// Whether this was told, or this and a newline.
    pub(crate) fn is(&self, wanted: &str) -> bool {
        !self.is_cut && self.text.as_slice() == wanted.as_bytes() || self.is_line(wanted)
    }
}

/// Fails with the row unless this is so.
pub(crate) fn expect(is_so: bool, row: &str) -> Result<(), Fail> {
    if is_so { Ok(()) } else { Err(Fail::new(row)) }
}

/// The word at this place of the row, where a blank stands between each two.
pub(crate) fn word_at(row: &str, place: usize) -> &str {
    row.split(' ').nth(place).unwrap_or("")
}

/// The number at this place of the row; none for another word.
pub(crate) fn number_at(row: &str, place: usize) -> Option<u64> {
    word_at(row, place).parse::<u64>().ok()
}

/// The part at this place of the row, where a percent sign at the head of a line stands between each two.
pub(crate) fn part_at(row: &str, place: usize) -> &str {
    row.split("\n% ").nth(place).unwrap_or("")
}
