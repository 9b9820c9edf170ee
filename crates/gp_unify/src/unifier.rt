//! Unification.

ghost use Rattle.std.specs.Prelude.{◌≡◌, length};
ghost use Rattle.gp_syntax.specs.Simple.{IsSimple};
ghost use Rattle.gp_syntax.specs.Tree.{label_of};
ghost use Rattle.gp_syntax.specs.Typing.{type_in};
ghost use Rattle.gp_unify.specs.Extension.{AreKnown, Answers, known_of};
ghost use Rattle.gp_unify.specs.inside.Reading.{Told, KeepsTrail};
ghost use Rattle.gp_unify.specs.Trail.{Grown};
ghost use Rattle.gp_unify.specs.Unify.{unify};

use crate::label::unify_label;
use crate::mismatch::Mismatch;
use crate::trail::{Trail, take_back};
use gp_syntax::{Assignment, SimpleLabel};
use gp_values::List;
use std::alloc::Global;

/// The label has the value by an extension of the assignment, it has it by none, or memory was refused.
#[derive(Clone, Copy)]
pub enum Unified {
    Yes,
    No,
    NoMemory,
}

/// A simple label has this list as its value. Where it can, the assignment becomes the least extension by which it has;
/// else it stays as it was.
pub fn unify(
    alloc: Global,
    label: &SimpleLabel,
    list: &List,
    assignment: &mut Assignment,
) -> Unified
    requires known { AreKnown (length assignment.old.types) (label_of label.now) }
    requires simple { IsSimple (type_in assignment.old.types) (label_of label.now) }
    ensures answers { Answers result assignment.old assignment.new (label_of label.now) list.now }
    ensures told { Told result (unify (type_in assignment.old.types) (label_of label.now) list.now (known_of assignment.old)) assignment.new }
{
    let mut trail = Trail::new(alloc);
    unify_on(alloc, label, list, assignment, &mut trail)
}

/// The same. The variables that get their values are put at the end of the trail, so that `take_back` takes them away
/// again.
pub fn unify_on(
    alloc: Global,
    label: &SimpleLabel,
    list: &List,
    assignment: &mut Assignment,
    trail: &mut Trail,
) -> Unified
    requires known { AreKnown (length assignment.old.types) (label_of label.now) }
    requires simple { IsSimple (type_in assignment.old.types) (label_of label.now) }
    ensures answers { Answers result assignment.old assignment.new (label_of label.now) list.now }
    ensures told { Told result (unify (type_in assignment.old.types) (label_of label.now) list.now (known_of assignment.old)) assignment.new }
    ensures grown { Grown assignment.old assignment.new trail.old.items trail.new.items }
    ensures trail { KeepsTrail result trail.old.items trail.new.items }
{
    let count = trail.len();
    match unify_label(alloc, label, list.atoms(), assignment, trail) {
        Ok(()) => Unified::Yes,
        Err(Mismatch::Differs) => {
            take_back(assignment, trail, count);
            Unified::No
        }
        Err(Mismatch::NoMemory) => {
            take_back(assignment, trail, count);
            Unified::NoMemory
        }
    }
}
