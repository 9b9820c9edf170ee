//! Texts of tokens: slices of the whole text, and short texts that own their bytes.

ghost use Rattle.std.specs.Prelude.{◌≡◌, IfOk};
ghost use Rattle.std.specs.Cmp.{on_equiv, on_per, partial_equiv_from_equiv};
ghost use Rattle.std.specs.Cmp.Lexicographic.{nat_list_eq_equiv};
ghost use Rattle.std.specs.Str.{bytes_eq};

use std::alloc::{AllocError, Global};
use std::fmt;
use std::marker::Model;

/// A text of its own memory. Contracts see the list of its bytes.
#[derive(Drop, Debug)]
pub struct Text {
    bytes: Vec<u8>,
}

impl Model for Text {
    ghost use Rattle.std.specs.Prelude.{List, ℕ};

    ghost Value = { List ℕ };

    ghost view = { λ t. t.bytes.items };
}

impl Text {
    /// The text of these bytes, copied.
    pub fn from_slice(alloc: Global, bytes: &[u8]) -> Result<Text, AllocError>
        ensures { IfOk result (λ t. t ≡ bytes.now) }
    {
        let bytes = Vec::from_slice(alloc, bytes)?;
        Ok(Text { bytes })
    }

    /// The bytes, in order.
    pub fn as_bytes(&self) -> &[u8]
        ensures { result.now ≡ self.now }
    {
        &self.bytes
    }

    /// A copy with memory of its own.
    pub fn copy(&self, alloc: Global) -> Result<Text, AllocError>
        ensures { IfOk result (λ t. t ≡ self.now) }
    {
        Text::from_slice(alloc, self.as_bytes())
    }
}

impl PartialEq for Text {
    ghost eq = { bytes_eq };

    ghost laws = { partial_equiv_from_equiv nat_list_eq_equiv };

    fn eq(&self, other: &Text) -> bool {
        self.as_bytes() == other.as_bytes()
    }
}

impl Eq for Text {
    ghost laws = { nat_list_eq_equiv };
}

/// Its bytes as characters.
impl fmt::Display for Text {
    fn fmt<W: fmt::Write>(&self, f: &mut fmt::Formatter<W>) -> fmt::Result {
        for byte in self.as_bytes() {
            f.write_char(*byte as char)?;
        }
        Ok(())
    }
}

/// Bytes of a text that is held elsewhere, as those of a token. Contracts see their list.
#[derive(Drop)]
pub struct Slice<'t> {
    bytes: &'t [u8],
}

impl<'t> Model for Slice<'t> {
    ghost use Rattle.std.specs.Prelude.{List, ℕ};

    ghost Value = { List ℕ };

    ghost view = { λ s. s.bytes.now };
}

impl<'t> Slice<'t> {
    /// These bytes.
    pub fn new(bytes: &'t [u8]) -> Slice<'t>
        ensures { result ≡ bytes.now }
    {
        Slice { bytes }
    }

    /// The bytes, in order.
    pub fn as_bytes(&self) -> &'t [u8]
        ensures { result.now ≡ self.now }
    {
        self.bytes
    }

    /// The same slice once more.
    pub fn again(&self) -> Slice<'t>
        ensures { result ≡ self.now }
    {
        Slice { bytes: self.bytes }
    }
}

impl Slice<'_> {
    /// A text of these bytes with memory of its own.
    pub fn copy(&self, alloc: Global) -> Result<Text, AllocError>
        ensures { IfOk result (λ t. t ≡ self.now) }
    {
        Text::from_slice(alloc, self.as_bytes())
    }
}

impl<'t> PartialEq for Slice<'t> {
    ghost eq = { bytes_eq };

    ghost laws = { partial_equiv_from_equiv nat_list_eq_equiv };

    fn eq(&self, other: &Slice<'t>) -> bool {
        self.as_bytes() == other.as_bytes()
    }
}

impl<'t> Eq for Slice<'t> {
    ghost laws = { nat_list_eq_equiv };
}
