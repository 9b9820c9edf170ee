//! Answers to rows: texts whose writing cannot fail. Where memory is refused, or a row cannot be answered, it is kept that
//! the text is no answer.

use crate::wrong::Wrong;
use itoa::Buffer;
use std::alloc::Global;
use std::fmt::{Debug, Display};
use std::io::Write;

/// An answer, most often of words with a space between each two of them.
pub struct Answer {
    text: Vec<u8>,
    is_answer: bool,
}

impl Drop for Answer {
    fn drop(self) {
        let Answer { text, is_answer: _ } = self;
        drop(text);
    }
}

impl Answer {
    /// Nothing.
    pub fn new(alloc: Global) -> Answer {
        Answer {
            text: Vec::new(alloc),
            is_answer: true,
        }
    }

    /// Writes bytes.
    pub fn put(&mut self, bytes: &[u8]) {
        self.is_answer &= self.text.extend_from_slice(bytes).is_ok();
    }

    /// Writes a number.
    pub fn put_number(&mut self, number: u64) {
        self.put(Buffer::new().format(number).as_bytes());
    }

    /// Writes a word.
    pub fn word(&mut self, word: &[u8]) {
        if !self.text.is_empty() {
            self.put(b" ");
        }
        self.put(word);
    }

    /// Writes a word if this is so.
    pub fn word_if(&mut self, is_so: bool, word: &[u8]) {
        if is_so {
            self.word(word);
        }
    }

    /// Writes a number as a word.
    pub fn number(&mut self, number: u64) {
        self.word(b"");
        self.put_number(number);
    }

    /// Writes a value as a word, as `{}` prints it.
    pub fn show<T: Display>(&mut self, value: &T) {
        self.word(b"");
        self.is_answer &= write!(self.text, "{value}").is_ok();
    }

    /// Writes a value as a word, as `{:?}` prints it.
    pub fn debug<T: Debug>(&mut self, value: &T) {
        self.word(b"");
        self.is_answer &= write!(self.text, "{value:?}").is_ok();
    }

    /// Writes what was made elsewhere.
    pub fn take(&mut self, given: Result<Vec<u8>, Wrong>) {
        match given {
            Ok(text) => self.put(&text),
            Err(wrong) => self.wrong(wrong),
        }
    }

    /// Says why there is no answer.
    pub fn wrong(&mut self, wrong: Wrong) {
        self.is_answer = false;
        self.word(wrong.text().as_bytes());
    }

    /// What is written so far.
    pub fn text(&self) -> &[u8] {
        &self.text
    }

    /// Whether what is written is an answer.
    pub fn is_answer(&self) -> bool {
        self.is_answer
    }
}
