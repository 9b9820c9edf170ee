//! The types of variables, the comparisons, and why an expression may have no value.

ghost use Rattle.std.specs.Prelude.{◌≡◌};
ghost use Rattle.gp_syntax.specs.Value.{is_of};

use gp_values::Atom;

/// The declared type of a variable (Plump 2012, section 2: char is a subtype of string; int and string are subtypes
/// of atom; atom is a subtype of list).
#[derive(Clone, Copy, Default, PartialEq, Eq)]
pub enum VariableType {
    Int,
    Char,
    String,
    Atom,
    #[default]
    List,
}

/// Whether a list is a value of the type.
pub fn is_of(declared: VariableType, atoms: &[Atom]) -> bool
    ensures { result ≡ is_of declared atoms.now }
{
    match (declared, atoms) {
        (VariableType::List, _) => true,
        (VariableType::Atom, [_]) => true,
        (VariableType::Int, [Atom::Int(_)]) => true,
        (VariableType::String, [Atom::Str(_)]) => true,
        (VariableType::Char, [Atom::Str(text)]) => text.get().as_bytes().len() == 1,
        _ => false,
    }
}

/// Why an expression has no value: a result past 128 bits, or a divisor that is zero.
#[derive(Clone, Copy, Debug, PartialEq, Eq)]
pub enum NumberKind {
    PastBits,
    ZeroDivisor,
}

/// The comparisons of conditions: the first two compare lists, the others integers.
#[derive(Clone, Copy)]
pub enum Comparison {
    Equal,
    NotEqual,
    Less,
    LessEqual,
    Greater,
    GreaterEqual,
}
