//! Rows cut into fields, and fields by their places.

use crate::rows::{number_of, split_at};
use crate::wrong::Wrong;
use std::alloc::Global;

/// The fields of a row; none of nothing.
pub fn fields_of<'a>(alloc: Global, row: &'a [u8]) -> Result<Vec<&'a [u8]>, Wrong> {
    let mut fields = Vec::new(alloc);
    let mut left = row;
    for _ in 0..row.len() {
        match split_at(left, b" @ ") {
            Some((field, behind)) => {
                fields.push(field)?;
                left = behind;
            }
            None => break,
        }
    }
    if !row.is_empty() {
        fields.push(left)?;
    }
    Ok(fields)
}

/// A field; nothing where it is not there.
pub fn field<'a>(fields: &[&'a [u8]], place: usize) -> &'a [u8] {
    match fields.get(place) {
        Some(field) => *field,
        None => b"",
    }
}

/// The number that a field is. One that is no number is the greatest one, which no row is about.
pub fn number(fields: &[&[u8]], place: usize) -> u64 {
    match number_of(field(fields, place)) {
        Some(number) => number,
        None => u64::MAX,
    }
}

/// The text of a field.
pub fn text_at<'a>(fields: &[&'a [u8]], place: usize) -> Result<&'a str, Wrong> {
    Ok(str::from_utf8(field(fields, place))?)
}
