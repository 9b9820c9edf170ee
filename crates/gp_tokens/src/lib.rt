//! The tokens of texts, of programs and hosts alike, and grammars over them.
//!
//! Call `lex` first: it answers the tokens of a text in order, or its first fault (whose text `LexFault::write_text`
//! writes), and `line_of_token` the line of one. `Cutter::new` takes less memory: it goes over the text, and then cuts each
//! token when it is asked for; `line_of_place` goes with it.
//! A token tells its kind, its offset and its bytes, whether it may name a thing, and the value of a number.
//! What the tokens of a text are, and what its first fault is, `specs/Cut` says, over the classes of bytes, the signs
//! and the words of `specs/Bytes`, `Signs` and `Words`. Each text has one cut into tokens or one first fault, and
//! what `lex` answers is the one or the other (`laws`).
//!
//! A grammar is one value of the specifications (`Grammar`), which is believed as a relation between tokens and trees and
//! read as a function; that both say the same is proved once, for every grammar that fits (`laws::grammars_are_read`). A
//! crate that reads a format writes its grammar and one short function for each of its lines, over a cursor: begin with
//! `Tokens::new` or `Cutter::new`, and read by `expect`, `eat`, `number`, `string`, `repeated_by` and `separated_by`; docs/GRAMMARS.md shows a
//! grammar from its first line to its laws. The texts are those of Bak's thesis (2015), appendix A.
#![tactic(auto)]

mod cursor;
mod cut;
mod cutter;
mod error;
mod fault;
mod fault_text;
mod front;
mod keyword;
pub mod laws;
mod line;
mod many;
mod number;
mod numeral;
mod quoted;
mod text;
mod token;
mod want;

pub use cursor::{Tokens, stands_before};
pub use cut::lex;
pub use cutter::Cutter;
pub use error::ReadError;
pub use fault::LexFault;
pub use keyword::{Keyword, RESERVED, is_reserved};
pub use line::{line_of_place, line_of_token};
pub use many::{repeated_by, separated_by};
pub use numeral::Numeral;
pub use text::{Slice, Text};
pub use token::{Kind, Token};
pub use want::Want;
