//! Programs: texts with their trees, and texts with their first fault.
//!
//! A tree is written as bracketed text (`tree`): a word and its parts in parentheses.

pub(crate) mod cuts;
mod pieces;
mod terms;
mod tree;

use crate::samples::tree_of;
use gp_rows::{Answer, field};
use std::alloc::Global;
use tree::put_tree;

/// The tree of a text, or its fault.
pub(crate) fn answer(alloc: Global, fields: &[&[u8]], out: &mut Answer) {
    if let Some(tree) = tree_of(alloc, field(fields, 0), out) {
        put_tree(alloc, &tree, out);
    }
}

/// Whether a text is a program, or its fault.
pub(crate) fn read(alloc: Global, fields: &[&[u8]], out: &mut Answer) {
    put_fault(alloc, field(fields, 0), out);
}

// The fault of a text; the words `a program` for a program.
fn put_fault(alloc: Global, text: &[u8], out: &mut Answer) {
    let is_program = tree_of(alloc, text, out).is_some();
    out.word_if(is_program, b"a program");
}
