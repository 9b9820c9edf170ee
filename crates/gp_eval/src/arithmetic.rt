//! Integers, and lists of one atom.

ghost use Rattle.std.specs.Prelude.{◌≡◌, ℤ, [], ◌∷◌, ◌++◌, IfOk, IfSome};
ghost use Rattle.std.specs.Prelude.{FitsSigned, IfErr};
ghost use Rattle.gp_values.specs.declared.atom.Atom.TheVariants.{Str};
ghost use Rattle.gp_eval.specs.declared.valued.Missing.TheVariants as missing;
ghost use Rattle.std.specs.Int.{w128};
ghost use Rattle.std.specs.Option.{SomeIff};
ghost use Rattle.gp_values.specs.Texts.{IsText};
ghost use Rattle.gp_syntax.specs.Value.{Valued, Value, ranged, quotient, integer, characters, number};
ghost use Rattle.gp_eval.specs.inside.Chains.{Values, Gives, counted, listed, opposite, added, multiplied};

use crate::valued::Missing;
use gp_memory::NoMemory;
use gp_syntax::{NumberKind, ProductSign, SumSign};
use gp_values::{Atom, Chars, List};
use std::alloc::Global;

// The list of this atom.
fn single(alloc: Global, atom: Atom) -> Result<List, NoMemory>
    ensures { IfOk result (λ v. v ≡ atom ∷ []) }
{
    let mut list = List::new(alloc);
    list.push(atom)?;
    Ok(list)
}

/// The list of an integer.
pub fn number(alloc: Global, z: &i128) -> Result<List, Missing>
    ensures { Gives result (Value (number z.now)) }
{
    Ok(single(alloc, Atom::of_integer(*z))?)
}

/// A list of one integer as that integer, another as 0.
pub fn integer(list: &List) -> i128
    ensures { result ≡ integer list.now }
{
    match list.atoms() {
        [Atom::Int(z)] => z.get(),
        _ => 0,
    }
}

/// The integer of a list that has nothing else.
pub fn only_integer(list: &List) -> Option<i128>
    ensures { IfSome result (λ z. list.now ≡ number z) }
{
    match list.atoms() {
        [Atom::Int(z)] => Some(z.get()),
        _ => None,
    }
}

/// A list of one string as its characters, another as none.
pub fn characters(list: &List) -> &[u8]
    ensures value { result.now ≡ characters list.now }
    ensures text { IsText result.now }
{
    match list.atoms() {
        [Atom::Str(text)] => text.get().as_bytes(),
        _ => &[],
    }
}

/// The list of an integer, if there is one.
pub fn listed(alloc: Global, z: Result<i128, Missing>) -> Result<List, Missing>
    ensures { (m : Valued ℤ) → Gives z m → Gives result (listed m) }
{
    match z {
        Ok(z) => number(alloc, &z),
        Err(missing) => Err(missing),
    }
}

/// The integer of a list, if there is one.
pub fn counted(list: Result<List, Missing>) -> Result<i128, Missing>
    ensures { (m : Values) → Gives list m → Gives result (counted m) }
{
    match list {
        Ok(list) => Ok(integer(&list)),
        Err(missing) => Err(missing),
    }
}

// This integer, where it is one of 128 bits.
fn in_range(checked: Option<i128>) -> Result<i128, Missing>
    ensures { (z : ℤ) → SomeIff checked (FitsSigned w128 z) z → Gives result (counted (ranged z)) }
{
    match checked {
        Some(z) => Ok(z),
        None => Err(Missing::NoValue(NumberKind::PastBits)),
    }
}

/// Minus an integer, if there is one.
pub fn negated(x: Result<i128, Missing>) -> Result<i128, Missing>
    ensures { (v : Valued ℤ) → Gives x v → Gives result (opposite v) }
{
    match x {
        Ok(x) => in_range(x.checked_neg()),
        Err(missing) => Err(missing),
    }
}

/// The sum or the difference of two integers.
pub fn added(sign: SumSign, x: i128, y: i128) -> Result<i128, Missing>
    ensures { Gives result (counted (added sign x y)) }
{
    match sign {
        SumSign::Plus => in_range(x.checked_add(y)),
        SumSign::Minus => in_range(x.checked_sub(y)),
    }
}

/// Their product or their quotient, which is truncated towards zero.
pub fn multiplied(sign: ProductSign, x: i128, y: i128) -> Result<i128, Missing>
    ensures { Gives result (counted (multiplied sign x y)) }
{
    match sign {
        ProductSign::Times => in_range(x.checked_mul(y)),
        ProductSign::Over => quotient(x, y),
    }
}

fn quotient(x: i128, y: i128) -> Result<i128, Missing>
    ensures { Gives result (counted (quotient x y)) }
{
    if y == 0 {
        return Err(Missing::NoValue(NumberKind::ZeroDivisor));
    }
    in_range(x.checked_div(y))
}

/// The list of a string.
pub fn string(alloc: Global, text: &Chars) -> Result<List, Missing>
    ensures { Gives result (Value (Str text.now ∷ [])) }
{
    Ok(single(alloc, Atom::of_string(alloc, text.copy(alloc)?)?)?)
}

/// The characters of a string, to which others are added.
pub fn begin_text(alloc: Global, list: &List) -> Result<Vec<u8>, Missing>
    ensures codes { IfOk result (λ v. v.items ≡ characters list.now) }
    ensures text { IfOk result (λ v. IsText v.items) }
    ensures err { IfErr result (λ e. e ≡ missing.NoMemory) }
{
    Ok(characters(list).to_vec(alloc)?)
}

/// The same, with the characters of another string at the end.
pub fn add_text(codes: Vec<u8>, list: &List) -> Result<Vec<u8>, Missing>
    requires { IsText codes.items }
    ensures codes { IfOk result (λ v. v.items ≡ codes.items ++ characters list.now) }
    ensures text { IfOk result (λ v. IsText v.items) }
    ensures err { IfErr result (λ e. e ≡ missing.NoMemory) }
{
    let mut codes = codes;
    codes.extend_from_slice(characters(list))?;
    Ok(codes)
}

/// The list of the string of these characters.
pub fn end_text(alloc: Global, codes: Vec<u8>) -> Result<List, Missing>
    requires { IsText codes.items }
    ensures { Gives result (Value (Str codes.items ∷ [])) }
{
    match Chars::new(codes) {
        Some(text) => Ok(single(alloc, Atom::of_string(alloc, text)?)?),
        None => unreachable!(),
    }
}

/// A list with another one behind it.
pub fn joined(list: List, more: &List) -> Result<List, Missing>
    ensures { Gives result (Value (list ++ more.now)) }
{
    let mut list = list;
    list.join(more)?;
    Ok(list)
}
