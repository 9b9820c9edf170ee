//! The characters of a string.

ghost use Rattle.std.specs.Prelude.{◌≡◌, ◌↔◌, IfOk, IsTrue, IfSome, IfNone, OnSome};
ghost use Rattle.gp_values.specs.Texts.{IsCharacter, IsText};

use gp_memory::NoMemory;
use std::alloc::Global;
use std::cmp::Ordering;
use std::marker::Model;

/// The characters of a string, each from 32 to 126 and no quotation mark. Contracts see the list of
/// their codes.
#[derive(Drop)]
pub struct Chars {
    codes: Vec<u8>,
}

impl Model for Chars {
    ghost use Rattle.std.specs.Prelude.{List, ℕ};
    ghost use Rattle.gp_values.specs.Texts.{IsText};

    ghost Value = { List ℕ };

    ghost view = { λ a. a.codes.items };

    ghost invariant = { λ a. IsText a.codes.items };
}

fn is_character(code: u8) -> bool
    ensures { IsTrue result ↔ IsCharacter code }
{
    32 <= code && code <= 126 && code != b'"'
}

fn is_text(codes: &[u8]) -> bool
    ensures { IsTrue result ↔ IsText codes.now }
{
    codes.iter().all(|code| is_character(*code))
}

impl Chars {
    /// The string of these codes, where each is a character of a string. It takes no memory.
    pub fn new(codes: Vec<u8>) -> Option<Chars>
        ensures text { OnSome result (IsText codes.items) }
        ensures same { IfSome result (λ s. s ≡ codes.items) }
        ensures none { IfNone result (IsText codes.items → ⊥) }
    {
        if is_text(&codes) {
            Some(Chars { codes })
        } else {
            None
        }
    }

    /// The codes of the characters, in order.
    pub fn as_bytes(&self) -> &[u8]
        ensures value { result.now ≡ self.now }
        ensures text { IsText self.now }
    {
        self.codes.as_slice()
    }

    /// A copy of its own memory.
    pub fn copy(&self, alloc: Global) -> Result<Chars, NoMemory>
        ensures { IfOk result (λ v. v ≡ self.now) }
    {
        match self.codes.as_slice().to_vec(alloc) {
            Ok(codes) => Ok(Chars { codes }),
            Err(_) => Err(NoMemory),
        }
    }

    /// Whether both have the same characters in the same order.
    pub fn same(&self, other: &Chars) -> bool
        ensures { IsTrue result ↔ (self.now ≡ other.now) }
    {
        self.codes.as_slice() == other.codes.as_slice()
    }
}

// Strings are compared by the codes of their characters, in order.
impl PartialEq for Chars {
    ghost use Rattle.std.specs.Prelude.{nat_eq};
    ghost use Rattle.std.specs.Cmp.Lexicographic.{pointwise};
    ghost use Rattle.gp_values.specs.inside.TextLaws.{texts_per};

    ghost eq = { pointwise nat_eq };

    ghost laws = { texts_per };

    fn eq(&self, other: &Chars) -> bool {
        self.codes.as_slice() == other.codes.as_slice()
    }
}

impl Eq for Chars {
    ghost use Rattle.std.specs.Cmp.Lexicographic.{nat_list_eq_equiv};

    ghost laws = { nat_list_eq_equiv };
}

impl PartialOrd for Chars {
    ghost use Rattle.std.specs.Prelude.{Some};
    ghost use Rattle.std.specs.Ordering.{nat_cmp};
    ghost use Rattle.std.specs.Cmp.Lexicographic.{slice_cmp, texts_po};

    ghost partial_cmp = { λ s t. Some (slice_cmp nat_cmp s t) };

    ghost laws = { texts_po };

    fn partial_cmp(&self, other: &Chars) -> Option<Ordering> {
        Some(self.cmp(other))
    }
}

impl Ord for Chars {
    ghost use Rattle.std.specs.Prelude.{refl};
    ghost use Rattle.std.specs.Ordering.{nat_cmp};
    ghost use Rattle.std.specs.Cmp.Lexicographic.{slice_cmp, nat_list_cmp_total, texts_ties};

    ghost cmp = { slice_cmp nat_cmp };

    ghost total = { nat_list_cmp_total };

    ghost matches_partial_cmp = { λ s t. refl };

    ghost matches_eq = { texts_ties };

    fn cmp(&self, other: &Chars) -> Ordering {
        self.codes.as_slice().cmp(&other.codes.as_slice())
    }
}
