//! Chains of strings, read along a string.

ghost use Rattle.std.specs.Prelude.{◌≡◌, ◌-◌, ◌<◌, length, map, All, IfOk};
ghost use Rattle.gp_values.specs.Texts.{IsText};
ghost use Rattle.gp_syntax.specs.Expression.{Variable};
ghost use Rattle.gp_syntax.specs.Tree.{label_of, dots};
ghost use Rattle.gp_syntax.specs.Typing.{type_in};
ghost use Rattle.gp_unify.specs.Extension.{AreKnown, known_of};
ghost use Rattle.gp_unify.specs.inside.Reading.{Reads, Tells};
ghost use Rattle.gp_unify.specs.Trail.{Grown};
ghost use Rattle.gp_unify.specs.Unify.{characters_in, read_text, unify_text};

use crate::mismatch::Mismatch;
use crate::pieces::{behind_codes, characters_for, fixed_characters, split_codes, type_at};
use crate::reading::Reading;
use crate::trail::{Trail, tell_text};
use gp_syntax::{Assignment, SimpleLabel, VariableType};
use std::alloc::Global;

// How many of so many characters are to spare for the string variable of a chain.
#[cycle(spare_text)]
fn spare_in_text(types: &[VariableType], part: &SimpleLabel, count: usize) -> usize
    requires { AreKnown (length types.now) (label_of part.now) }
    ensures { result ≡ count - characters_in (type_in types.now) (label_of part.now) }
{
    match part {
        SimpleLabel::Text(text) => count.saturating_sub(text.as_bytes().len()),
        SimpleLabel::Variable(x) => { count.saturating_sub(fixed_characters(type_at(types, *x))) }
        SimpleLabel::Dot(first, rest) => spare_in_dots(types, first.get(), rest.as_slice(), count),
        SimpleLabel::Join(first, rest) => {
            if rest.is_empty() {
                spare_in_text(types, first.get(), count)
            } else {
                count
            }
        }
        SimpleLabel::Number(_) | SimpleLabel::NegatedNumber(_) | SimpleLabel::Empty => count,
    }
}

#[cycle(spare_text)]
fn spare_in_dots(
    types: &[VariableType],
    first: &SimpleLabel,
    rest: &[SimpleLabel],
    count: usize,
) -> usize
    requires first { AreKnown (length types.now) (label_of first.now) }
    requires rest { All (λ l. AreKnown (length types.now) (label_of l)) rest.now }
    ensures { result ≡ count - characters_in (type_in types.now) (dots (label_of first.now) (map label_of rest.now)) }
{
    let mut left = spare_in_text(types, first, count);
    'parts: for part in rest {
        left = spare_in_text(types, part, left);
    }
    left
}

// What is left of a string behind the value of a variable.
fn read_variable<'v>(
    reading: Reading,
    x: u32,
    codes: &'v [u8],
    assignment: &mut Assignment,
    trail: &mut Trail,
) -> Result<&'v [u8], Mismatch>
    requires known { x < length assignment.old.types }
    requires text { IsText codes.now }
    ensures reads { Reads result (read_text (type_in assignment.old.types) reading.spare (Variable x) codes.now (known_of assignment.old)) assignment.new }
    ensures grown { Grown assignment.old assignment.new trail.old.items trail.new.items }
    ensures text { IfOk result (λ left. IsText left.now) }
{
    let count = characters_for(type_at(assignment.types(), x), reading.spare);
    let (front, left) = split_codes(codes, count);
    tell_text(reading.alloc, x, front, assignment, trail)?;
    Ok(left)
}

// What is left of a string behind a part of a chain.
#[cycle(text)]
fn read_text<'v>(
    reading: Reading,
    part: &SimpleLabel,
    codes: &'v [u8],
    assignment: &mut Assignment,
    trail: &mut Trail,
) -> Result<&'v [u8], Mismatch>
    requires known { AreKnown (length assignment.old.types) (label_of part.now) }
    requires text { IsText codes.now }
    ensures reads { Reads result (read_text (type_in assignment.old.types) reading.spare (label_of part.now) codes.now (known_of assignment.old)) assignment.new }
    ensures grown { Grown assignment.old assignment.new trail.old.items trail.new.items }
    ensures text { IfOk result (λ left. IsText left.now) }
{
    match part {
        SimpleLabel::Text(text) => match behind_codes(text.as_bytes(), codes) {
            Some(left) => Ok(left),
            None => Err(Mismatch::Differs),
        },
        SimpleLabel::Variable(x) => read_variable(reading, *x, codes, assignment, trail),
        SimpleLabel::Dot(first, rest) => {
            read_dots(
                reading,
                first.get(),
                rest.as_slice(),
                codes,
                assignment,
                trail,
            )
        }
        SimpleLabel::Join(first, rest) => {
            if rest.is_empty() {
                read_text(reading, first.get(), codes, assignment, trail)
            } else {
                Err(Mismatch::Differs)
            }
        }
        SimpleLabel::Number(_) | SimpleLabel::NegatedNumber(_) | SimpleLabel::Empty => {
            Err(Mismatch::Differs)
        }
    }
}

#[cycle(text)]
fn read_dots<'v>(
    reading: Reading,
    first: &SimpleLabel,
    rest: &[SimpleLabel],
    codes: &'v [u8],
    assignment: &mut Assignment,
    trail: &mut Trail,
) -> Result<&'v [u8], Mismatch>
    requires first { AreKnown (length assignment.old.types) (label_of first.now) }
    requires rest { All (λ l. AreKnown (length assignment.old.types) (label_of l)) rest.now }
    requires text { IsText codes.now }
    ensures reads { Reads result (read_text (type_in assignment.old.types) reading.spare (dots (label_of first.now) (map label_of rest.now)) codes.now (known_of assignment.old)) assignment.new }
    ensures grown { Grown assignment.old assignment.new trail.old.items trail.new.items }
    ensures text { IfOk result (λ left. IsText left.now) }
{
    let mut left = read_text(reading, first, codes, assignment, trail)?;
    'parts: for part in rest {
        left = read_text(reading, part, left, assignment, trail)?;
    }
    Ok(left)
}

/// A chain of strings has this string as its value.
pub(crate) fn unify_dots(
    alloc: Global,
    first: &SimpleLabel,
    rest: &[SimpleLabel],
    codes: &[u8],
    assignment: &mut Assignment,
    trail: &mut Trail,
) -> Result<(), Mismatch>
    requires first { AreKnown (length assignment.old.types) (label_of first.now) }
    requires rest { All (λ l. AreKnown (length assignment.old.types) (label_of l)) rest.now }
    requires text { IsText codes.now }
    ensures told { Tells result (unify_text (type_in assignment.old.types) (dots (label_of first.now) (map label_of rest.now)) codes.now (known_of assignment.old)) assignment.new }
    ensures grown { Grown assignment.old assignment.new trail.old.items trail.new.items }
{
    let spare = spare_in_dots(assignment.types(), first, rest, codes.len());
    let reading = Reading { alloc, spare };
    let left = read_dots(reading, first, rest, codes, assignment, trail)?;
    if left.is_empty() {
        Ok(())
    } else {
        Err(Mismatch::Differs)
    }
}
