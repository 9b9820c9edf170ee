//! Traces that are read and written back, and texts that are none.

use gp_rows::{Answer, Wrong, field};
use gp_syntax::Item;
use gp_trace::{read_trace, write_trace};
use std::alloc::Global;

/// The version of a trace and how many items it has, whose copies are written as the same lines; or the line at which a text
/// breaks.
pub(crate) fn answer(alloc: Global, fields: &[&[u8]], out: &mut Answer) {
    match read_trace(alloc, field(fields, 0)) {
        Ok((version, items)) => match written(alloc, &items) {
            Ok(text) => {
                out.debug(&version);
                out.number(items.len() as u64);
                if lines(&text) != lines(field(fields, 0)) {
                    out.word(&text);
                }
            }
            Err(wrong) => out.wrong(wrong),
        },
        Err(fault) => out.show(&fault),
    }
}

// What stands behind the first line.
fn lines(text: &[u8]) -> &[u8] {
    text.get(b"gp2-trace 2\n".len()..).unwrap_or(&[])
}

// The text of copies of items.
fn written(alloc: Global, items: &[Item]) -> Result<Vec<u8>, Wrong> {
    let mut copies = Vec::new(alloc);
    for item in items {
        copies.push(item.copy(alloc)?)?;
    }
    let mut text = Vec::new(alloc);
    write_trace(alloc, &copies, &mut text)?;
    Ok(text)
}
