//! Entries that are handed out, and matches that are handed in.

ghost use Rattle.std.specs.Prelude.{◌≡◌, [], ◌∷◌, ◌++◌, OnOk, OnErr};

use gp_memory::NoMemory;
use std::alloc::Global;
use std::marker::Model;

/// A list of matches, which contracts see as that.
#[derive(Drop)]
pub struct Entries<F> {
    items: Vec<F>,
}

impl<F> Model for Entries<F> {
    ghost use Rattle.std.specs.Prelude.{List};

    ghost Value = { List F };

    ghost view = { λ e. e.items.items };
}

impl<F> Entries<F> {
    // No entries.
    pub(crate) fn new(alloc: Global) -> Entries<F>
        ensures { result ≡ [] }
    {
        Entries {
            items: Vec::new(alloc),
        }
    }

    /// These matches, in order. It takes no memory.
    pub fn from_vec(items: Vec<F>) -> Entries<F>
        ensures { result ≡ items.items }
    {
        Entries { items }
    }

    /// The matches, in order. It takes no memory.
    pub fn into_vec(self) -> Vec<F>
        ensures { result.items ≡ self }
    {
        self.items
    }

    /// The matches, in order.
    pub fn as_slice(&self) -> &[F]
        ensures { result.now ≡ self.now }
    {
        self.items.as_slice()
    }
}

impl<F: Drop> Entries<F> {
    // One more match at the end.
    pub(crate) fn push(&mut self, found: F) -> Result<(), NoMemory>
        ensures ok { OnOk result (self.new ≡ self.old ++ found ∷ []) }
        ensures err { OnErr result (self.new ≡ self.old) }
    {
        if self.items.push(found).is_err() {
            return Err(NoMemory);
        }
        Ok(())
    }
}
