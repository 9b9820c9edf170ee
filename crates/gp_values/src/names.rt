//! Tables of names.

ghost use Rattle.std.specs.Prelude.{◌≡◌, ◌∷◌, [], ◌++◌, not, length, if◌then◌else◌, IfOk, OnOk};
ghost use Rattle.gp_values.specs.Names.{has_name, place_of};

use gp_memory::NoMemory;
use indexmap::IndexSet;
use std::alloc::Global;
use std::marker::Model;

/// Names, each once, in the order in which they came, found by their bytes. Contracts see their list.
pub struct NameTable {
    places: IndexSet<Vec<u8>>,
}

impl Drop for NameTable {
    fn drop(self) {
        let NameTable { places } = self;
        drop(places);
    }
}

impl Model for NameTable {
    ghost use Rattle.std.specs.Prelude.{List, ℕ, map};
    ghost use Rattle.gp_values.specs.Names.{Name};

    ghost Value = { List Name };

    ghost view = { λ t. map (λ k. k.items) t.places.keys };
}

impl NameTable {
    /// The table of no names. It takes no memory.
    pub fn new(alloc: Global) -> NameTable
        ensures { result ≡ [] }
    {
        NameTable {
            places: IndexSet::new(alloc),
        }
    }

    /// Puts a name at the end, where it is new, and says whether it was.
    pub fn add(&mut self, alloc: Global, name: &[u8]) -> Result<bool, NoMemory>
        ensures new { IfOk result (λ r. r ≡ not (has_name self.old name.now)) }
        ensures names { OnOk result (self.new ≡ (if has_name self.old name.now then self.old else self.old ++ name.now ∷ [])) }
    {
        let name = Vec::from_slice(alloc, name)?;
        let (_, added) = self.places.insert_full(name)?;
        Ok(added)
    }

    /// The place of a name, counted from 0.
    pub fn place(&self, name: &[u8]) -> Option<usize>
        ensures { result ≡ place_of self.now name.now }
    {
        self.places.get_index_of(name)
    }

    /// Whether the name is among them.
    pub fn has(&self, name: &[u8]) -> bool
        ensures { result ≡ has_name self.now name.now }
    {
        self.places.contains(name)
    }
}
