//! The lines of texts.

ghost use Rattle.std.specs.Prelude.{◌≡◌, ◌==◌, ◌<◌, ◌∷◌, length, position, IfOk, IfErr, MatchOption};
ghost use Rattle.gp_derivation.specs.Script.{word_of, lines_of, IsScript, HasFault};
ghost use Rattle.gp_derivation.specs.inside.Words.{IsNoWord};

use crate::line::Line;
use crate::script_fault::ScriptFault;
use std::alloc::Global;

/// The lines of the text of a script. Any other text is answered with the first line that is none of the three words.
pub fn read_script(alloc: Global, text: &[u8]) -> Result<Vec<Line>, ScriptFault>
    ensures lines { IfOk result (λ v. IsScript text.now v.items) }
    ensures fault { IfErr result (HasFault text.now) }
{
    let mut lines = Vec::new(alloc);
    let mut rest = text;
    while !rest.is_empty() {
        let (word, more) = split_line(rest);
        match read_line(word) {
            Some(line) => lines.push(line)?,
            None => return Err(ScriptFault::Line(lines.len() as u64 + 1)),
        }
        rest = more;
    }
    Ok(lines)
}

// The first line, without its line feed, and what stands behind.
fn split_line(text: &[u8]) -> (&[u8], &[u8])
    requires { 0 < length text.now }
    ensures lines { lines_of text.now ≡ result.0.now ∷ lines_of result.1.now }
    ensures shorter { length result.1.now < length text.now }
{
    match line_end(text) {
        Some(end) => (&text[..end], &text[end + 1..]),
        None => (text, &[]),
    }
}

// The place of the first line feed.
fn line_end(text: &[u8]) -> Option<usize>
    ensures { result ≡ position (λ b. b == 10) text.now }
{
    text.iter().position(|byte| *byte == b'\n')
}

// The line that a word is.
fn read_line(word: &[u8]) -> Option<Line>
    ensures { MatchOption result (IsNoWord word.now) (λ line. word.now ≡ word_of line) }
{
    if word == b"forward".as_slice() {
        Some(Line::Forward)
    } else if word == b"back".as_slice() {
        Some(Line::Back)
    } else if word == b"show".as_slice() {
        Some(Line::Show)
    } else {
        None
    }
}
