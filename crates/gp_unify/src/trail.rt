//! Values that variables are told, and that are taken back.

ghost use Rattle.std.specs.Prelude.{◌≡◌, ◌<◌, ◌≤◌, ◌∷◌, [], ◌++◌, length, take, drop, true, None, All, slice_get, Some, OnOk, OnErr};
ghost use Rattle.gp_values.specs.declared.atom.Atom.TheVariants.{Str};
ghost use Rattle.gp_values.specs.Texts.{IsText};
ghost use Rattle.gp_syntax.specs.Assigned.{declared_type};
ghost use Rattle.gp_syntax.specs.Typing.{type_in};
ghost use Rattle.gp_syntax.specs.Value.{is_of};
ghost use Rattle.gp_unify.specs.Extension.{known_of};
ghost use Rattle.gp_unify.specs.inside.Reading.{Tells};
ghost use Rattle.gp_unify.specs.Trail.{cleared, Grown};
ghost use Rattle.gp_unify.specs.Unify.{tell, with_value};

use crate::mismatch::Mismatch;
use crate::pieces::{is_text, list_of, takes_text, text_of, type_at};
use gp_memory::NoMemory;
use gp_syntax::{Assignment, is_of};
use gp_values::{Atom, List};
use smallvec::SmallVec;
use std::alloc::Global;

/// So many of the variables that were told stand in a trail itself; more take memory.
pub const INLINE_TOLD: usize = 4;

/// The variables that were told, in order.
pub type Trail = SmallVec<u32, { INLINE_TOLD }>;

/// Takes the values away of the variables behind the first so many of the trail.
pub fn take_back(assignment: &mut Assignment, trail: &mut Trail, count: usize)
    requires places { All (λ x. x < length assignment.old.types) (drop count trail.old.items) }
    ensures assignment { assignment.new ≡ cleared (drop count trail.old.items) assignment.old }
    ensures trail { trail.new.items ≡ take count trail.old.items }
{
    'told: while trail.len() > count {
        if let Some(x) = trail.pop() {
            assignment.clear(x as usize);
        }
    }
}

// Puts a variable behind the others.
fn note(trail: &mut Trail, x: u32) -> Result<(), NoMemory>
    ensures ok { OnOk result (trail.new.items ≡ trail.old.items ++ x ∷ []) }
    ensures err { OnErr result (trail.new.items ≡ trail.old.items) }
{
    trail.push(x)?;
    Ok(())
}

// Gives a variable that has none its value.
fn bind(x: u32, value: List, assignment: &mut Assignment, trail: &mut Trail) -> Result<(), NoMemory>
    requires known { x < length assignment.old.types }
    requires in_type { is_of (declared_type assignment.old x) value ≡ true }
    requires vacant { slice_get assignment.old.values x ≡ Some None }
    ensures ok { OnOk result (known_of assignment.new ≡ with_value (known_of assignment.old) x value) }
    ensures grown { Grown assignment.old assignment.new trail.old.items trail.new.items }
{
    note(trail, x)?;
    assignment.set(x as usize, value);
    Ok(())
}

/// A variable has these atoms as its value: it is told them, unless it has a value.
pub(crate) fn tell(
    alloc: Global,
    x: u32,
    atoms: &[Atom],
    assignment: &mut Assignment,
    trail: &mut Trail,
) -> Result<(), Mismatch>
    requires known { x < length assignment.old.types }
    ensures told { Tells result (tell (type_in assignment.old.types) x atoms.now (known_of assignment.old)) assignment.new }
    ensures grown { Grown assignment.old assignment.new trail.old.items trail.new.items }
{
    if !is_of(type_at(assignment.types(), x), atoms) {
        return Err(Mismatch::Differs);
    }
    match assignment.value(x as usize) {
        Some(list) => {
            if list.atoms() == atoms {
                Ok(())
            } else {
                Err(Mismatch::Differs)
            }
        }
        None => {
            let list = list_of(alloc, atoms)?;
            bind(x, list, assignment, trail)?;
            Ok(())
        }
    }
}

/// A variable has the string of these characters as its value: it is told it, unless it has a value.
pub(crate) fn tell_text(
    alloc: Global,
    x: u32,
    codes: &[u8],
    assignment: &mut Assignment,
    trail: &mut Trail,
) -> Result<(), Mismatch>
    requires known { x < length assignment.old.types }
    requires text { IsText codes.now }
    ensures told { Tells result (tell (type_in assignment.old.types) x (Str codes.now ∷ []) (known_of assignment.old)) assignment.new }
    ensures grown { Grown assignment.old assignment.new trail.old.items trail.new.items }
{
    if !takes_text(type_at(assignment.types(), x), codes) {
        return Err(Mismatch::Differs);
    }
    match assignment.value(x as usize) {
        Some(list) => {
            if is_text(list, codes) {
                Ok(())
            } else {
                Err(Mismatch::Differs)
            }
        }
        None => {
            let list = text_of(alloc, codes)?;
            bind(x, list, assignment, trail)?;
            Ok(())
        }
    }
}
