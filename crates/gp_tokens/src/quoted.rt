//! The characters of a string.

ghost use Rattle.std.specs.Prelude.{◌≡◌, ◌∷◌, ◌++◌, [], ℕ, List, IfOk, MatchOption};
ghost use Rattle.gp_tokens.specs.Reading.{IsQuoted};

use gp_memory::NoMemory;
use gp_values::Chars;
use std::alloc::Global;

// The characters between two quotation marks.
pub(crate) fn quoted(alloc: Global, text: &[u8]) -> Result<Option<Chars>, NoMemory>
    ensures { IfOk result (λ o. IsQuoted o text.now) }
{
    let Some(inner) = between_marks(text) else {
        return Ok(None);
    };
    Ok(Chars::new(Vec::from_slice(alloc, inner)?))
}

// The bytes between two quotation marks.
fn between_marks(text: &[u8]) -> Option<&[u8]>
    ensures { MatchOption result ((inner : List ℕ) → text.now ≡ 34 ∷ inner ++ 34 ∷ [] → ⊥) (λ inner. text.now ≡ 34 ∷ inner.now ++ 34 ∷ []) }
{
    let Some((first, rest)) = text.split_first() else {
        return None;
    };
    let Some((last, inner)) = rest.split_last() else {
        return None;
    };
    if *first == b'"' && *last == b'"' {
        return Some(inner);
    }
    None
}
