//! Rows of a file: its lines, with what stands between backquotes written out.

ghost use Rattle.std.specs.Prelude.{◌≡◌, ◌++◌, IfSome};

use crate::answers::Answer;
use crate::wrong::Wrong;
use std::alloc::Global;

/// Writes the row of a line, with what stands between backquotes written out. An empty line, a comment and a definition,
/// which adds a name, have none.
pub(crate) fn put_row(
    alloc: Global,
    names: &mut Vec<(Answer, Answer)>,
    line: &[u8],
    out: &mut Answer,
) {
    if line.is_empty() || line.starts_with(b"//") {
        return;
    }
    match line.strip_prefix(b"`let ".as_slice()) {
        Some(definition) if is_defined(alloc, names, definition) => {}
        Some(_) => out.wrong(Wrong::new("no definition")),
        None => put_expanded(names, line, out),
    }
}

// Takes up the definition `NAME` text, unless it is none.
fn is_defined(alloc: Global, names: &mut Vec<(Answer, Answer)>, definition: &[u8]) -> bool {
    let Some((name, text)) = split_at(definition, b"` ") else {
        return false;
    };
    let mut word = Answer::new(alloc);
    word.put(name);
    let mut expanded = Answer::new(alloc);
    put_expanded(names, text, &mut expanded);
    expanded.is_answer() && names.push((word, expanded)).is_ok()
}

/// What stands before and behind the first of these marks.
pub fn split_at<'a>(text: &'a [u8], mark: &[u8]) -> Option<(&'a [u8], &'a [u8])>
    ensures { IfSome result (λ parts. text.now ≡ parts.0.now ++ mark.now ++ parts.1.now) }
{
    for place in 0..text.len() {
        let (before, rest) = text.split_at(place);
        if let Some(behind) = rest.strip_prefix(mark) {
            return Some((before, behind));
        }
    }
    None
}

// Writes a text with what stands between backquotes written out.
fn put_expanded(names: &[(Answer, Answer)], text: &[u8], out: &mut Answer) {
    let mut is_word = false;
    for piece in text.split(|byte| *byte == b'`') {
        if is_word {
            put_word(names, piece, out);
        } else {
            out.put(piece);
        }
        is_word = !is_word;
    }
    if !is_word {
        out.wrong(Wrong::new("a backquote without a second one"));
    }
}

// Writes the text of a name.
fn put_named(names: &[(Answer, Answer)], word: &[u8], out: &mut Answer) {
    for (name, text) in names {
        if name.text() == word {
            return out.put(text.text());
        }
    }
    out.wrong(Wrong::new("an unknown word between backquotes"));
}

// Writes what a word between backquotes stands for; no word stands for nothing.
fn put_word(names: &[(Answer, Answer)], word: &[u8], out: &mut Answer) {
    if let Some(byte) = byte_of(word) {
        out.put(&[byte]);
    } else if let Some((count, piece)) = split_at(word, b"*")
        && let Some(count) = number_of(count)
    {
        put_copies(count, piece, out);
    } else if !word.is_empty() {
        put_named(names, word, out);
    }
}

// The byte that a word stands for.
fn byte_of(word: &[u8]) -> Option<u8> {
    match word {
        b"n" => Some(b'\n'),
        b"t" => Some(b'\t'),
        b"r" => Some(b'\r'),
        [b'x', high, low] => Some((digit(*high)? & 15) * 16 + (digit(*low)? & 15)),
        _ => None,
    }
}

// The value of a hexadecimal digit.
fn digit(byte: u8) -> Option<u8> {
    match byte {
        b'0'..=b'9' => Some(byte & 15),
        b'a'..=b'f' => Some((byte & 7) + 9),
        _ => None,
    }
}

/// The number that a text is.
pub(crate) fn number_of(text: &[u8]) -> Option<u64> {
    match str::from_utf8(text) {
        Ok(text) => text.parse::<u64>().ok(),
        Err(_) => None,
    }
}

// Writes a text so many times.
fn put_copies(count: u64, piece: &[u8], out: &mut Answer) {
    for copy in 0..count {
        for byte in piece {
            put_byte(count, copy, *byte, out);
        }
    }
}

// Writes a byte of a copy: `%` is its number and `^` the one after it; `&` is how many copies are left with it, and `$`
// without it.
fn put_byte(count: u64, copy: u64, byte: u8, out: &mut Answer) {
    match byte {
        b'%' => out.put_number(copy),
        b'^' => out.put_number(copy.saturating_add(1)),
        b'&' => out.put_number(count.saturating_sub(copy)),
        b'$' => out.put_number(count.saturating_sub(copy).saturating_sub(1)),
        _ => out.put(&[byte]),
    }
}
