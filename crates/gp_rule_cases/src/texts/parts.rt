//! What runs are made of: names, matches and assignments.

use gp_rows::{Answer, Wrong, field, number};
use gp_syntax::{Assignment, EdgeImage, Found, Item, Name, VariableType};
use gp_values::{Atom, List};
use std::alloc::Global;

/// A copy of a name, and whether it is the same as another.
pub(crate) fn name(alloc: Global, fields: &[&[u8]], out: &mut Answer) {
    match copy_of(alloc, field(fields, 0)) {
        Ok(name) => {
            out.show(&name);
            out.word(name.as_bytes());
            match copy_of(alloc, field(fields, 1)) {
                Ok(other) => out.word(if name.same(&other) { b"same" } else { b"other" }),
                Err(wrong) => out.wrong(wrong),
            }
        }
        Err(wrong) => out.wrong(wrong),
    }
}

fn copy_of(alloc: Global, bytes: &[u8]) -> Result<Name, Wrong> {
    let name = Name::from_slice(alloc, bytes)?;
    Ok(name.copy(alloc)?)
}

/// The rule of a copied match of so many nodes and edges, and how many of each it has.
pub(crate) fn found(alloc: Global, fields: &[&[u8]], out: &mut Answer) {
    match match_of(alloc, number(fields, 0)) {
        Ok(Item::Step(copy)) => {
            out.number(u64::from(copy.rule()));
            out.number(copy.nodes().len() as u64);
            out.number(copy.edges().len() as u64);
        }
        Ok(_) => out.wrong(Wrong::new("no step")),
        Err(wrong) => out.wrong(wrong),
    }
}

// A copy of a match of rule 4, which was one of rule 3 before.
fn match_of(alloc: Global, count: u64) -> Result<Item, Wrong> {
    let mut found = Found::new(alloc, 3);
    for number in 0..count {
        found.push_node(number)?;
        found.push_edge(EdgeImage::new(number, number == 1))?;
    }
    found.set_rule(4);
    Ok(Item::Step(found).copy(alloc)?)
}

/// Which of an integer and a list have a value: the second one, which is this integer, and nothing once it is cleared.
pub(crate) fn assignment(alloc: Global, fields: &[&[u8]], out: &mut Answer) {
    match assigned(alloc, number(fields, 0)) {
        Ok(mut assignment) => {
            out.number(assignment.types().len() as u64);
            put_values(&assignment, out);
            if assignment.types().len() == 2 {
                assignment.clear(1);
            }
            put_values(&assignment, out);
        }
        Err(wrong) => out.wrong(wrong),
    }
}

fn assigned(alloc: Global, number: u64) -> Result<Assignment, Wrong> {
    let mut value = List::new(alloc);
    value.push(Atom::of_integer(i128::from(number)))?;
    let types = [VariableType::Int, VariableType::List];
    let mut assignment = Assignment::new(alloc, &types)?;
    assignment.set(1, value);
    Ok(assignment)
}

fn put_values(assignment: &Assignment, out: &mut Answer) {
    if assignment.types().len() == 2 {
        for variable in 0..2 {
            out.show(&assignment.value(variable).is_some());
        }
    }
}
