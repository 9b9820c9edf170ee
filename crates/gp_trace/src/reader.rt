//! The items of texts.

ghost use Rattle.gp_syntax.specs.Tree.{item_of};
ghost use Rattle.gp_trace.specs.Reading.{IsTraceOf, HasNoHeader, HasFault};
ghost use Rattle.gp_trace.specs.TraceText.{header};
ghost use Rattle.gp_trace.specs.declared.version.Version.TheVariants.{One, Two};
ghost use Rattle.gp_trace.specs.inside.Lines.{AreLinesOf, HasLineFault, EndsLine, EndsNoLine};
ghost use Rattle.std.specs.Prelude.{◌≡◌, ◌++◌, List, ℕ, map, IfOk, IfErr, MatchOption};

use crate::fault::TraceFault;
use crate::line::read_item;
use crate::version::Version;
use gp_syntax::Item;
use std::alloc::Global;

/// The version and the items of the text of a trace. Any other text is answered with the first line that is not of the
/// form of its place.
pub fn read_trace(alloc: Global, text: &[u8]) -> Result<(Version, Vec<Item>), TraceFault>
    ensures items { IfOk result (λ t. IsTraceOf text.now t.0 (map item_of t.1.items)) }
    ensures fault { IfErr result (HasFault text.now) }
{
    match split_header(text) {
        Some((version, lines)) => {
            let items = read_lines(alloc, lines)?;
            Ok((version, items))
        }
        None => Err(TraceFault::Line(1)),
    }
}

// The version that the first line tells, and the lines behind it.
fn split_header(text: &[u8]) -> Option<(Version, &[u8])>
    ensures { MatchOption result (HasNoHeader text.now 1) (λ t. text.now ≡ header t.0 ++ t.1.now) }
{
    if let Some(lines) = behind_first_header(text) {
        return Some((Version::One, lines));
    }
    match behind_second_header(text) {
        Some(lines) => Some((Version::Two, lines)),
        None => None,
    }
}

fn behind_first_header(text: &[u8]) -> Option<&[u8]>
    ensures { MatchOption result ((rest : List ℕ) → text.now ≡ header One ++ rest → ⊥) (λ rest. text.now ≡ header One ++ rest.now) }
{
    match text.strip_prefix(b"gp2-trace 1\n") {
        Some(lines) => Some(lines),
        None => None,
    }
}

fn behind_second_header(text: &[u8]) -> Option<&[u8]>
    ensures { MatchOption result ((rest : List ℕ) → text.now ≡ header Two ++ rest → ⊥) (λ rest. text.now ≡ header Two ++ rest.now) }
{
    match text.strip_prefix(b"gp2-trace 2\n") {
        Some(lines) => Some(lines),
        None => None,
    }
}

// The items of the lines behind the header.
fn read_lines(alloc: Global, text: &[u8]) -> Result<Vec<Item>, TraceFault>
    ensures items { IfOk result (λ t. AreLinesOf text.now (map item_of t.items)) }
    ensures fault { IfErr result (HasLineFault text.now) }
{
    let mut items = Vec::new(alloc);
    let mut rest = text;
    while let Some(end) = line_end(rest) {
        let (line, _) = rest.split_at(end);
        let (_, more) = rest.split_at(end + 1);
        if line == b"end".as_slice() {
            if more.is_empty() {
                return Ok(items);
            }
            return Err(TraceFault::Line(items.len() as u64 + 3));
        }
        match read_item(alloc, line)? {
            Some(item) => items.push(item)?,
            None => return Err(TraceFault::Line(items.len() as u64 + 2)),
        }
        rest = more;
    }
    Err(TraceFault::Line(2 + items.len() as u64))
}

// The place of the first line feed.
fn line_end(text: &[u8]) -> Option<usize>
    ensures { MatchOption result (EndsNoLine text.now) (EndsLine text.now) }
{
    for i in 0..text.len() {
        if text[i] == b'\n' {
            return Some(i);
        }
    }
    None
}
