//! Simple labels.

ghost use Rattle.std.specs.Prelude.{◌≡◌, MatchResult};
ghost use Rattle.gp_syntax.specs.declared.label.SimpleLabel.TheVariants as label;

use gp_values::Chars;
use sqlite_items::{Boxed, Items};

/// A label of the left side of a checked rule (Plump 2012, section 3: simple expressions). Variables are named by their
/// places. Of the operations it has the join of lists, that of strings, and a minus on a numeral.
pub enum SimpleLabel {
    Number(i128),
    NegatedNumber(i128),
    Text(Chars),
    Variable(u32),
    Empty,
    Dot(Boxed<SimpleLabel>, Items<SimpleLabel>),
    Join(Boxed<SimpleLabel>, Items<SimpleLabel>),
}

// Written, so that a function that lets a label go calls it.
impl Drop for SimpleLabel {
    fn drop(self) {
        match self {
            SimpleLabel::Number(_)
            | SimpleLabel::NegatedNumber(_)
            | SimpleLabel::Variable(_)
            | SimpleLabel::Empty => {}
            SimpleLabel::Text(text) => drop(text),
            SimpleLabel::Dot(first, rest) | SimpleLabel::Join(first, rest) => {
                drop(first);
                drop(rest);
            }
        }
    }
}

impl SimpleLabel {
    /// The first and the further parts of a string; any other is handed back.
    pub fn into_dots(self) -> Result<(Boxed<SimpleLabel>, Items<SimpleLabel>), SimpleLabel>
        ensures { MatchResult result (λ p. self ≡ label.Dot p.0 p.1) (λ other. other ≡ self) }
    {
        match self {
            SimpleLabel::Dot(first, rest) => Ok((first, rest)),
            other => Err(other),
        }
    }

    /// The first and the further parts of a list; any other is handed back.
    pub fn into_joins(self) -> Result<(Boxed<SimpleLabel>, Items<SimpleLabel>), SimpleLabel>
        ensures { MatchResult result (λ p. self ≡ label.Join p.0 p.1) (λ other. other ≡ self) }
    {
        match self {
            SimpleLabel::Join(first, rest) => Ok((first, rest)),
            other => Err(other),
        }
    }
}
