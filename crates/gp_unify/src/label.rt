//! Labels, read along a list.

ghost use Rattle.std.specs.Prelude.{◌≡◌, ◌-◌, ◌<◌, length, map, All, neg_ℤ, take, drop, true, false};
ghost use Rattle.gp_syntax.specs.Expression.{Variable, Number, Negated};
ghost use Rattle.gp_syntax.specs.Tree.{label_of, dots, joins};
ghost use Rattle.gp_syntax.specs.Typing.{type_in};
ghost use Rattle.gp_syntax.specs.Value.{ranged};
ghost use Rattle.gp_unify.specs.Extension.{AreKnown, known_of};
ghost use Rattle.gp_unify.specs.inside.Reading.{Begins, BeginsValue, Hands, Reads, Tells};
ghost use Rattle.gp_unify.specs.Trail.{Grown};
ghost use Rattle.gp_unify.specs.Unify.{atoms_in, read, unify, unify_text, told_rest, on_text};

use crate::mismatch::Mismatch;
use crate::pieces::{atoms_for, behind_integer, behind_string, fixed_atoms, split_atoms, type_at};
use crate::reading::Reading;
use crate::text::unify_dots;
use crate::trail::{Trail, tell};
use gp_syntax::{Assignment, SimpleLabel, VariableType};
use gp_values::Atom;
use std::alloc::Global;

// How many of so many atoms are to spare for the list variable of a label.
#[cycle(spare_label)]
fn spare_in_label(types: &[VariableType], label: &SimpleLabel, count: usize) -> usize
    requires { AreKnown (length types.now) (label_of label.now) }
    ensures { result ≡ count - atoms_in (type_in types.now) (label_of label.now) }
{
    match label {
        SimpleLabel::Variable(x) => count.saturating_sub(fixed_atoms(type_at(types, *x))),
        SimpleLabel::Empty => count,
        SimpleLabel::Join(first, rest) => {
            spare_in_joins(types, first.get(), rest.as_slice(), count)
        }
        SimpleLabel::Dot(first, rest) => {
            if rest.is_empty() {
                spare_in_label(types, first.get(), count)
            } else {
                count.saturating_sub(1)
            }
        }
        SimpleLabel::Number(_) | SimpleLabel::NegatedNumber(_) | SimpleLabel::Text(_) => {
            count.saturating_sub(1)
        }
    }
}

#[cycle(spare_label)]
fn spare_in_joins(
    types: &[VariableType],
    first: &SimpleLabel,
    rest: &[SimpleLabel],
    count: usize,
) -> usize
    requires first { AreKnown (length types.now) (label_of first.now) }
    requires rest { All (λ l. AreKnown (length types.now) (label_of l)) rest.now }
    ensures { result ≡ count - atoms_in (type_in types.now) (joins (label_of first.now) (map label_of rest.now)) }
{
    let mut left = spare_in_label(types, first, count);
    'parts: for part in rest {
        left = spare_in_label(types, part, left);
    }
    left
}

// What is left of a list behind minus an integer, where that is one of 128 bits.
fn behind_minus<'v>(z: &i128, atoms: &'v [Atom]) -> Option<&'v [Atom]>
    ensures { BeginsValue result (ranged (neg_ℤ z.now)) atoms.now }
{
    match z.checked_neg() {
        Some(n) => behind_integer(&n, atoms),
        None => None,
    }
}

// What is left of a list behind the value of a variable.
fn read_variable<'v>(
    reading: Reading,
    x: u32,
    atoms: &'v [Atom],
    assignment: &mut Assignment,
    trail: &mut Trail,
) -> Result<&'v [Atom], Mismatch>
    requires { x < length assignment.old.types }
    ensures reads { Reads result (read (type_in assignment.old.types) reading.spare (Variable x) atoms.now (known_of assignment.old)) assignment.new }
    ensures grown { Grown assignment.old assignment.new trail.old.items trail.new.items }
{
    let count = atoms_for(type_at(assignment.types(), x), reading.spare);
    let (front, left) = split_atoms(atoms, count);
    tell(reading.alloc, x, front, assignment, trail)?;
    Ok(left)
}

// What is left of a list behind a chain of strings.
fn read_chain<'v>(
    alloc: Global,
    first: &SimpleLabel,
    rest: &[SimpleLabel],
    atoms: &'v [Atom],
    assignment: &mut Assignment,
    trail: &mut Trail,
) -> Result<&'v [Atom], Mismatch>
    requires first { AreKnown (length assignment.old.types) (label_of first.now) }
    requires rest { All (λ l. AreKnown (length assignment.old.types) (label_of l)) rest.now }
    ensures reads { Reads result (told_rest (on_text (take 1 atoms.now) (λ s. unify_text (type_in assignment.old.types) (dots (label_of first.now) (map label_of rest.now)) s (known_of assignment.old))) (drop 1 atoms.now)) assignment.new }
    ensures grown { Grown assignment.old assignment.new trail.old.items trail.new.items }
{
    match atoms {
        [Atom::Str(text), left @ ..] => {
            unify_dots(alloc, first, rest, text.get().as_bytes(), assignment, trail)?;
            Ok(left)
        }
        _ => Err(Mismatch::Differs),
    }
}

fn or_differs(left: Option<&[Atom]>) -> Result<&[Atom], Mismatch>
    ensures { Hands result left.entry }
{
    match left {
        Some(left) => Ok(left),
        None => Err(Mismatch::Differs),
    }
}

// What is left of a list behind a label.
#[cycle(label)]
fn read<'v>(
    reading: Reading,
    label: &SimpleLabel,
    atoms: &'v [Atom],
    assignment: &mut Assignment,
    trail: &mut Trail,
) -> Result<&'v [Atom], Mismatch>
    requires { AreKnown (length assignment.old.types) (label_of label.now) }
    ensures reads { Reads result (read (type_in assignment.old.types) reading.spare (label_of label.now) atoms.now (known_of assignment.old)) assignment.new }
    ensures grown { Grown assignment.old assignment.new trail.old.items trail.new.items }
{
    match label {
        SimpleLabel::Number(z) => or_differs(behind_integer(z, atoms)),
        SimpleLabel::NegatedNumber(z) => or_differs(behind_minus(z, atoms)),
        SimpleLabel::Text(text) => or_differs(behind_string(text.as_bytes(), atoms)),
        SimpleLabel::Variable(x) => read_variable(reading, *x, atoms, assignment, trail),
        SimpleLabel::Empty => Ok(atoms),
        SimpleLabel::Dot(first, rest) => {
            if rest.is_empty() {
                read(reading, first.get(), atoms, assignment, trail)
            } else {
                read_chain(
                    reading.alloc,
                    first.get(),
                    rest.as_slice(),
                    atoms,
                    assignment,
                    trail,
                )
            }
        }
        SimpleLabel::Join(first, rest) => {
            read_joins(
                reading,
                first.get(),
                rest.as_slice(),
                atoms,
                assignment,
                trail,
            )
        }
    }
}

#[cycle(label)]
fn read_joins<'v>(
    reading: Reading,
    first: &SimpleLabel,
    rest: &[SimpleLabel],
    atoms: &'v [Atom],
    assignment: &mut Assignment,
    trail: &mut Trail,
) -> Result<&'v [Atom], Mismatch>
    requires first { AreKnown (length assignment.old.types) (label_of first.now) }
    requires rest { All (λ l. AreKnown (length assignment.old.types) (label_of l)) rest.now }
    ensures reads { Reads result (read (type_in assignment.old.types) reading.spare (joins (label_of first.now) (map label_of rest.now)) atoms.now (known_of assignment.old)) assignment.new }
    ensures grown { Grown assignment.old assignment.new trail.old.items trail.new.items }
{
    let mut left = read(reading, first, atoms, assignment, trail)?;
    'parts: for part in rest {
        left = read(reading, part, left, assignment, trail)?;
    }
    Ok(left)
}

/// A label has this list as its value. What was told is behind the others in the trail, whatever the answer.
pub(crate) fn unify_label(
    alloc: Global,
    label: &SimpleLabel,
    atoms: &[Atom],
    assignment: &mut Assignment,
    trail: &mut Trail,
) -> Result<(), Mismatch>
    requires { AreKnown (length assignment.old.types) (label_of label.now) }
    ensures told { Tells result (unify (type_in assignment.old.types) (label_of label.now) atoms.now (known_of assignment.old)) assignment.new }
    ensures grown { Grown assignment.old assignment.new trail.old.items trail.new.items }
{
    let spare = spare_in_label(assignment.types(), label, atoms.len());
    let reading = Reading { alloc, spare };
    let left = read(reading, label, atoms, assignment, trail)?;
    if left.is_empty() {
        Ok(())
    } else {
        Err(Mismatch::Differs)
    }
}
