//! How deep brackets and runs of signs may be, and where a numeral of a list is out of range.

use crate::samples::tokens_of;
use gp_expressions::read_list;
use gp_program::first_too_deep;
use gp_rows::{Answer, field};
use gp_tokens::Tokens;
use std::alloc::Global;

/// The first token of a text that is nested too deep.
pub(crate) fn depth(alloc: Global, fields: &[&[u8]], out: &mut Answer) {
    if let Some(tokens) = tokens_of(alloc, field(fields, 0), out) {
        out.debug(&first_too_deep(alloc, &tokens));
    }
}

/// The offset of the first numeral of a list that is out of range.
pub(crate) fn range(alloc: Global, fields: &[&[u8]], out: &mut Answer) {
    if let Some(tokens) = tokens_of(alloc, field(fields, 0), out) {
        match read_list(&mut Tokens::new(alloc, &tokens), 3) {
            Ok(read) => out.debug(&read.past),
            Err(error) => out.debug(&error),
        }
    }
}
