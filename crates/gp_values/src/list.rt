//! Lists of atoms.

ghost use Rattle.std.specs.Prelude.{◌≡◌, ◌<◌, ◌↔◌, [], ◌∷◌, ◌++◌, IfOk, IfErr, OnOk, OnErr, IsTrue, vec_len, vec_capacity};
ghost use Rattle.gp_values.specs.Atoms.{AreAtoms};
ghost use Rattle.gp_values.specs.inside.Held.{held_atoms};

use crate::atom::Atom;
use gp_memory::NoMemory;
use std::alloc::Global;
use std::cmp::Ordering;
use std::marker::Model;
use std::mem;
use std::slice::from_ref;

// Where the atoms of a list are held: none and one take no memory of their own.
#[derive(Drop)]
pub(crate) enum Held {
    None,
    One(Atom),
    Many(Vec<Atom>),
}

/// A list of atoms, the value of a label. Contracts see the list of its atoms. A list of no atom or of one integer takes no
/// memory of its own.
pub struct List {
    held: Held,
    alloc: Global,
}

impl Drop for List {
    fn drop(self) {
        let List { held, alloc: _ } = self;
        drop(held);
    }
}

impl Model for List {
    ghost use Rattle.std.specs.Prelude.{List as Seq};
    ghost use Rattle.gp_values.specs.declared.atom.Atom.{Atom};

    ghost Value = { Seq Atom };

    ghost use Rattle.gp_values.specs.Atoms.{AreAtoms};
    ghost use Rattle.gp_values.specs.inside.Held.{held_atoms};

    ghost view = { λ a. held_atoms a.held };

    ghost invariant = { λ a. AreAtoms (held_atoms a.held) };
}

impl Held {
    // The atoms, in order.
    fn as_slice(&self) -> &[Atom]
        ensures { result.now ≡ held_atoms self.now }
    {
        match self {
            Held::None => &[],
            Held::One(atom) => from_ref(atom),
            Held::Many(atoms) => atoms.as_slice(),
        }
    }
}

// Puts an atom at the end, where there is a spare place.
fn push_spare(atoms: &mut Vec<Atom>, atom: Atom)
    requires { vec_len atoms.old < vec_capacity atoms.old }
    ensures { atoms.new.items ≡ atoms.old.items ++ atom ∷ [] }
{
    match atoms.push(atom) {
        Ok(()) => (),
        Err(_) => unreachable!(),
    }
}

// One atom in a vector with room for another, or, on refusal, as it was.
fn vector_of(alloc: Global, atom: Atom) -> Result<Vec<Atom>, Held>
    ensures ok { IfOk result (λ v. v.items ≡ atom ∷ []) }
    ensures err { IfErr result (λ h. held_atoms h ≡ atom ∷ []) }
{
    match Vec::with_capacity(alloc, 2) {
        Ok(mut atoms) => {
            push_spare(&mut atoms, atom);
            Ok(atoms)
        }
        Err(_) => Err(Held::One(atom)),
    }
}

// The atoms in a vector, or, on refusal, as they were.
fn in_vector(held: Held, alloc: Global) -> Result<Vec<Atom>, Held>
    ensures ok { IfOk result (λ v. v.items ≡ held_atoms held) }
    ensures err { IfErr result (λ h. held_atoms h ≡ held_atoms held) }
{
    match held {
        Held::None => Ok(Vec::new(alloc)),
        Held::One(atom) => vector_of(alloc, atom),
        Held::Many(atoms) => Ok(atoms),
    }
}

// Copies of these atoms, in a vector.
fn copy_all(alloc: Global, atoms: &[Atom]) -> Result<Vec<Atom>, NoMemory>
    ensures { IfOk result (λ v. v.items ≡ atoms.now) }
{
    let mut copies = Vec::with_capacity(alloc, atoms.len())?;
    for atom in atoms {
        copies.push(atom.copy(alloc)?)?;
    }
    Ok(copies)
}

impl List {
    /// The empty list. It takes no memory.
    pub fn new(alloc: Global) -> List
        ensures { result ≡ [] }
    {
        List {
            held: Held::None,
            alloc,
        }
    }

    /// Puts an atom at the end. On refusal the list is as before.
    pub fn push(&mut self, atom: Atom) -> Result<(), NoMemory>
        ensures ok { OnOk result (self.new ≡ self.old ++ atom ∷ []) }
        ensures err { OnErr result (self.new ≡ self.old) }
    {
        atom.told();
        if self.held.as_slice().is_empty() {
            self.held = Held::One(atom);
            return Ok(());
        }
        match in_vector(mem::replace(&mut self.held, Held::None), self.alloc) {
            Ok(mut atoms) => {
                let pushed = atoms.push(atom);
                self.held = Held::Many(atoms);
                pushed?;
                Ok(())
            }
            Err(held) => {
                self.held = held;
                Err(NoMemory)
            }
        }
    }

    /// The atoms, in order.
    pub fn atoms(&self) -> &[Atom]
        ensures value { result.now ≡ self.now }
        ensures in_range { AreAtoms self.now }
    {
        self.held.as_slice()
    }

    /// A copy of its own memory.
    pub fn copy(&self, alloc: Global) -> Result<List, NoMemory>
        ensures { IfOk result (λ v. v ≡ self.now) }
    {
        let held = match &self.held {
            Held::None => Held::None,
            Held::One(atom) => Held::One(atom.copy(alloc)?),
            Held::Many(atoms) => Held::Many(copy_all(alloc, atoms)?),
        };
        Ok(List { held, alloc })
    }

    /// Puts the atoms of another list behind those of this one. On refusal the list is as before.
    pub fn join(&mut self, other: &List) -> Result<(), NoMemory>
        ensures ok { OnOk result (self.new ≡ self.old ++ other.now) }
        ensures err { OnErr result (self.new ≡ self.old) }
    {
        let _in_range = other.atoms();
        if self.held.as_slice().is_empty() {
            *self = other.copy(self.alloc)?;
            return Ok(());
        }
        let mut tail = copy_all(self.alloc, other.atoms())?;
        match in_vector(mem::replace(&mut self.held, Held::None), self.alloc) {
            Ok(mut atoms) => {
                let joined = atoms.append(&mut tail);
                self.held = Held::Many(atoms);
                joined?;
                Ok(())
            }
            Err(held) => {
                self.held = held;
                Err(NoMemory)
            }
        }
    }

    /// Whether both have the same atoms in the same order.
    pub fn same(&self, other: &List) -> bool
        ensures { IsTrue result ↔ (self.now ≡ other.now) }
    {
        *self == *other
    }
}

impl PartialEq for List {
    ghost use Rattle.gp_values.specs.Atoms.{same_list};
    ghost use Rattle.gp_values.specs.inside.CompareLaws.{lists_per};

    ghost eq = { same_list };

    ghost laws = { lists_per };

    fn eq(&self, other: &List) -> bool {
        self.atoms() == other.atoms()
    }
}

impl Eq for List {
    ghost use Rattle.gp_values.specs.inside.CompareLaws.{lists_equiv};

    ghost laws = { lists_equiv };
}

impl PartialOrd for List {
    ghost use Rattle.std.specs.Prelude.{Some};
    ghost use Rattle.gp_values.specs.Compare.{list_cmp};
    ghost use Rattle.gp_values.specs.inside.CompareLaws.{lists_po};

    ghost partial_cmp = { λ v w. Some (list_cmp v w) };

    ghost laws = { lists_po };

    fn partial_cmp(&self, other: &List) -> Option<Ordering> {
        Some(self.cmp(other))
    }
}

// A list comes before each that it begins.
impl Ord for List {
    ghost use Rattle.std.specs.Prelude.{refl};
    ghost use Rattle.gp_values.specs.Compare.{list_cmp};
    ghost use Rattle.gp_values.specs.inside.CompareLaws.{list_cmp_total, list_cmp_ties};

    ghost cmp = { list_cmp };

    ghost total = { list_cmp_total };

    ghost matches_partial_cmp = { λ v w. refl };

    ghost matches_eq = { list_cmp_ties };

    fn cmp(&self, other: &List) -> Ordering {
        self.atoms().cmp(&other.atoms())
    }
}
