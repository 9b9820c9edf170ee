//! Lists and strings in pieces.

ghost use Rattle.std.specs.Prelude.{◌≡◌, ◌<◌, ◌-◌, ◌∷◌, [], take, drop, length, true, false, nat_eq, IfOk, MatchOption};
ghost use Rattle.std.specs.Cmp.Lexicographic.{pointwise};
ghost use Rattle.gp_values.specs.declared.atom.Atom.TheVariants.{Int, Str};
ghost use Rattle.gp_values.specs.Atoms.{same_list};
ghost use Rattle.gp_values.specs.Texts.{IsText};
ghost use Rattle.gp_syntax.specs.Simple.{strings_of, lists_of};
ghost use Rattle.gp_syntax.specs.Typing.{type_in};
ghost use Rattle.gp_syntax.specs.Value.{is_of};
ghost use Rattle.gp_unify.specs.inside.Reading.{Begins};
ghost use Rattle.gp_unify.specs.Unify.{span};

use gp_memory::NoMemory;
use gp_syntax::VariableType;
use gp_values::{Atom, Chars, List};
use std::alloc::Global;

/// The first so many atoms, and the others.
pub(crate) fn split_atoms(atoms: &[Atom], count: usize) -> (&[Atom], &[Atom])
    ensures front { result.0.now ≡ take count atoms.now }
    ensures back { result.1.now ≡ drop count atoms.now }
{
    let count = count.min(atoms.len());
    (&atoms[..count], &atoms[count..])
}

/// The first so many characters, and the others.
pub(crate) fn split_codes(codes: &[u8], count: usize) -> (&[u8], &[u8])
    ensures front { result.0.now ≡ take count codes.now }
    ensures back { result.1.now ≡ drop count codes.now }
{
    let count = count.min(codes.len());
    (&codes[..count], &codes[count..])
}

/// The declared type of a variable.
pub(crate) fn type_at(types: &[VariableType], x: u32) -> VariableType
    requires { x < length types.now }
    ensures { result ≡ type_in types.now x }
{
    types[x as usize]
}

/// How many characters a variable of a chain of strings has, if that is fixed, and else none.
pub(crate) fn fixed_characters(declared: VariableType) -> usize
    ensures { result ≡ 1 - strings_of declared }
{
    match declared {
        VariableType::String => 0,
        _ => 1,
    }
}

/// How many characters it takes, where so many are to spare.
pub(crate) fn characters_for(declared: VariableType, spare: usize) -> usize
    ensures { result ≡ span spare (strings_of declared) }
{
    match declared {
        VariableType::String => spare,
        _ => 1,
    }
}

/// How many atoms a variable has, if that is fixed, and else none.
pub(crate) fn fixed_atoms(declared: VariableType) -> usize
    ensures { result ≡ 1 - lists_of declared }
{
    match declared {
        VariableType::List => 0,
        _ => 1,
    }
}

/// How many atoms it takes, where so many are to spare.
pub(crate) fn atoms_for(declared: VariableType, spare: usize) -> usize
    ensures { result ≡ span spare (lists_of declared) }
{
    match declared {
        VariableType::List => spare,
        _ => 1,
    }
}

/// What is left behind an integer, where the list begins with it.
pub(crate) fn behind_integer<'v>(z: &i128, atoms: &'v [Atom]) -> Option<&'v [Atom]>
    ensures { Begins result (same_list (Int z.now ∷ []) (take 1 atoms.now)) (drop 1 atoms.now) }
{
    match atoms {
        [Atom::Int(n), left @ ..] if n.get() == *z => Some(left),
        _ => None,
    }
}

/// What is left behind a string, where the list begins with it.
pub(crate) fn behind_string<'v>(text: &[u8], atoms: &'v [Atom]) -> Option<&'v [Atom]>
    ensures { Begins result (same_list (Str text.now ∷ []) (take 1 atoms.now)) (drop 1 atoms.now) }
{
    match atoms {
        [Atom::Str(found), left @ ..] if text == found.get().as_bytes() => Some(left),
        _ => None,
    }
}

/// What is left behind some characters, where the string begins with them.
pub(crate) fn behind_codes<'v>(text: &[u8], codes: &'v [u8]) -> Option<&'v [u8]>
    ensures { MatchOption result
        (pointwise nat_eq text.now (take (length text.now) codes.now) ≡ false)
        (λ r. (pointwise nat_eq text.now (take (length text.now) codes.now) ≡ true) × (r.now ≡ drop (length text.now) codes.now)) }
{
    let (front, left) = split_codes(codes, text.len());
    if text == front { Some(left) } else { None }
}

/// Whether the list of a string is a value of the type.
pub(crate) fn takes_text(declared: VariableType, codes: &[u8]) -> bool
    ensures { result ≡ is_of declared (Str codes.now ∷ []) }
{
    match declared {
        VariableType::List | VariableType::Atom | VariableType::String => true,
        VariableType::Char => codes.len() == 1,
        VariableType::Int => false,
    }
}

/// Whether the list is that of the string.
pub(crate) fn is_text(list: &List, codes: &[u8]) -> bool
    ensures { result ≡ same_list list.now (Str codes.now ∷ []) }
{
    match list.atoms() {
        [Atom::Str(text)] => text.get().as_bytes() == codes,
        _ => false,
    }
}

/// The list of these atoms, copied.
pub(crate) fn list_of(alloc: Global, atoms: &[Atom]) -> Result<List, NoMemory>
    ensures { IfOk result (λ v. v ≡ atoms.now) }
{
    let mut list = List::new(alloc);
    for atom in atoms {
        list.push(atom.copy(alloc)?)?;
    }
    Ok(list)
}

/// The list of the string of these characters, copied.
pub(crate) fn text_of(alloc: Global, codes: &[u8]) -> Result<List, NoMemory>
    requires { IsText codes.now }
    ensures { IfOk result (λ v. v ≡ Str codes.now ∷ []) }
{
    let mut list = List::new(alloc);
    match Chars::new(codes.to_vec(alloc)?) {
        Some(text) => list.push(Atom::of_string(alloc, text)?)?,
        None => unreachable!(),
    }
    Ok(list)
}
