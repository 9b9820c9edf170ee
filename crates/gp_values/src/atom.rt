//! Atoms.

ghost use Rattle.std.specs.Prelude.{◌≡◌, ◌↔◌, IfOk, IsTrue};
ghost use Rattle.gp_values.specs.Atoms.{IsAtom};
ghost use Rattle.gp_values.specs.declared.atom.Atom.TheVariants.{Int, Str};

use crate::chars::Chars;
use crate::integer::Integer;
use gp_memory::NoMemory;
use sqlite_items::Boxed;
use std::alloc::Global;
use std::cmp::Ordering;

/// One item of a list: an integer of 128 bits or a string (Plump 2012, section 2).
#[derive(Drop)]
pub enum Atom {
    Int(Integer),
    Str(Boxed<Chars>),
}

impl Atom {
    /// The atom of an integer. It takes no memory.
    pub fn of_integer(value: i128) -> Atom
        ensures { result ≡ Int value }
    {
        Atom::Int(Integer::new(value))
    }

    /// The atom of a string.
    pub fn of_string(alloc: Global, characters: Chars) -> Result<Atom, NoMemory>
        ensures { IfOk result (λ v. v ≡ Str characters) }
    {
        Ok(Atom::Str(Boxed::new(alloc, characters)?))
    }

    /// A copy of its own memory.
    pub fn copy(&self, alloc: Global) -> Result<Atom, NoMemory>
        ensures { IfOk result (λ v. v ≡ self.now) }
    {
        match self {
            Atom::Int(n) => Ok(Atom::of_integer(n.get())),
            Atom::Str(text) => Atom::of_string(alloc, text.get().copy(alloc)?),
        }
    }

    /// Whether both are one integer or one string.
    pub fn same(&self, other: &Atom) -> bool
        ensures { IsTrue result ↔ (self.now ≡ other.now) }
    {
        *self == *other
    }

    // What every atom keeps, told to a caller.
    pub(crate) fn told(&self)
        ensures { IsAtom self.now }
    {
        match self {
            Atom::Int(n) => {
                let _read = n.get();
            }
            Atom::Str(text) => {
                let _codes = text.get().as_bytes();
            }
        }
    }
}

// What stands in a place of a list that no atom has taken.
impl Default for Atom {
    fn default() -> Atom {
        Atom::of_integer(0)
    }
}

impl PartialEq for Atom {
    ghost use Rattle.gp_values.specs.Atoms.{same_atom};
    ghost use Rattle.gp_values.specs.inside.CompareLaws.{atoms_per};

    ghost eq = { same_atom };

    ghost laws = { atoms_per };

    fn eq(&self, other: &Atom) -> bool {
        match (self, other) {
            (Atom::Int(x), Atom::Int(y)) => x.get() == y.get(),
            (Atom::Str(s), Atom::Str(t)) => *s.get() == *t.get(),
            _ => false,
        }
    }
}

impl Eq for Atom {
    ghost use Rattle.gp_values.specs.inside.CompareLaws.{atoms_equiv};

    ghost laws = { atoms_equiv };
}

impl PartialOrd for Atom {
    ghost use Rattle.std.specs.Prelude.{Some};
    ghost use Rattle.gp_values.specs.Compare.{atom_cmp};
    ghost use Rattle.gp_values.specs.inside.CompareLaws.{atoms_po};

    ghost partial_cmp = { λ x y. Some (atom_cmp x y) };

    ghost laws = { atoms_po };

    fn partial_cmp(&self, other: &Atom) -> Option<Ordering> {
        Some(self.cmp(other))
    }
}

// Integers come before strings.
impl Ord for Atom {
    ghost use Rattle.std.specs.Prelude.{refl};
    ghost use Rattle.gp_values.specs.Compare.{atom_cmp};
    ghost use Rattle.gp_values.specs.inside.CompareLaws.{atoms_total, atoms_ties};

    ghost cmp = { atom_cmp };

    ghost total = { atoms_total };

    ghost matches_partial_cmp = { λ x y. refl };

    ghost matches_eq = { atoms_ties };

    fn cmp(&self, other: &Atom) -> Ordering {
        match (self, other) {
            (Atom::Int(x), Atom::Int(y)) => x.get().cmp(&y.get()),
            (Atom::Int(_), Atom::Str(_)) => Ordering::Less,
            (Atom::Str(_), Atom::Int(_)) => Ordering::Greater,
            (Atom::Str(s), Atom::Str(t)) => s.get().cmp(t.get()),
        }
    }
}
