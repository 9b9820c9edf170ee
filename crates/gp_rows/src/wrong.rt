//! What ends a row, or the program, before there is an answer.

use std::fmt::{Debug, InlineText};

// How many bytes of a message are kept.
const MOST: usize = 200;

/// What went wrong, as a text. It has no `Debug`, so that `?` turns each error that has one into it.
#[derive(Clone, Copy)]
pub struct Wrong {
    text: InlineText<{ MOST }>,
}

impl Wrong {
    /// This message.
    pub fn new(message: &'static str) -> Wrong {
        Wrong {
            text: InlineText::of(message),
        }
    }

    /// The message.
    pub fn text(&self) -> &str {
        self.text.as_str()
    }
}

impl<E: Debug + Drop> From<E> for Wrong {
    fn from(error: E) -> Wrong {
        Wrong {
            text: InlineText::of(format_args!("{error:?}")),
        }
    }
}
