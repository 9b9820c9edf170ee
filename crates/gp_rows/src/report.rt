//! The report of a file: how many rows it has, and each row that did not give what is wanted.

use crate::answers::Answer;
use crate::rows::{put_row, split_at};
use std::alloc::Global;

/// A report: the name of the file, the names that it has defined with their texts, its line, how many rows there were, and
/// the mistakes.
pub struct Report {
    alloc: Global,
    name: &'static str,
    names: Vec<(Answer, Answer)>,
    line: u64,
    rows: u64,
    mistakes: Answer,
}

impl Drop for Report {
    fn drop(self) {
        let Report {
            alloc: _,
            name: _,
            names,
            line: _,
            rows: _,
            mistakes,
        } = self;
        drop(names);
        drop(mistakes);
    }
}

impl Report {
    /// That of a file of this name, before its first line.
    pub fn new(alloc: Global, name: &'static str) -> Report {
        Report {
            alloc,
            name,
            names: Vec::new(alloc),
            line: 0,
            rows: 0,
            mistakes: Answer::new(alloc),
        }
    }

    /// The row of the next line, with what stands between backquotes written out; nothing, unless it is a row.
    pub fn read(&mut self, line: &[u8]) -> Answer {
        self.line = self.line.saturating_add(1);
        let mut row = Answer::new(self.alloc);
        put_row(self.alloc, &mut self.names, line, &mut row);
        if !row.is_answer() {
            self.put_mistake(&[row.text()]);
            return Answer::new(self.alloc);
        }
        if !row.text().is_empty() {
            self.rows = self.rows.saturating_add(1);
        }
        row
    }

    /// Tells an answer to the row of this line that is not the one that is wanted.
    pub fn judge(&mut self, wanted: &[u8], given: &Answer) {
        if !given.is_answer() || !is_one_of(given.text(), wanted) {
            let texts = [
                b"wanted ".as_slice(),
                wanted,
                b", gave ".as_slice(),
                given.text(),
            ];
            self.put_mistake(&texts);
        }
    }

    // Writes the line of a mistake.
    fn put_mistake(&mut self, texts: &[&[u8]]) {
        self.mistakes.put(self.name.as_bytes());
        self.mistakes.put(b" line ");
        self.mistakes.put_number(self.line);
        self.mistakes.put(b": ");
        for text in texts {
            self.mistakes.put(text);
        }
        self.mistakes.put(b"\n");
    }

    /// Its text: the line of the file, and the mistakes in it.
    pub fn text(&self) -> Answer {
        let mut text = Answer::new(self.alloc);
        text.put(self.name.as_bytes());
        text.put(b": ");
        text.put_number(self.rows);
        text.put(b" rows\n");
        text.put(self.mistakes.text());
        text.word_if(!self.mistakes.is_answer(), b"and more, without memory\n");
        text
    }
}

// Whether an answer is the one that is wanted, or one of several.
fn is_one_of(given: &[u8], wanted: &[u8]) -> bool {
    let mut left = wanted;
    for _ in 0..wanted.len() {
        match split_at(left, b" or else ") {
            Some((first, others)) => {
                if given == first {
                    return true;
                }
                left = others;
            }
            None => break,
        }
    }
    given == left
}
