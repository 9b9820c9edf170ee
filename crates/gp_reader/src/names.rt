//! The names of procedures, by their numbers.

ghost use Rattle.std.specs.Prelude.{◌≡◌, ◌<◌, List, ◌++◌, length, Some, slice_get, IfOk};
ghost use Rattle.std.specs.Option.{option_or, option_copied};
ghost use Rattle.gp_values.specs.Names.{Name};
ghost use Rattle.gp_scope.specs.Outline.{Outline, declared, outline, is_main};
ghost use Rattle.gp_reader.specs.inside.Named.{procedure_names, TellsName};

use gp_memory::NoMemory;
use gp_syntax::{Decl, Name};
use std::alloc::Global;

/// The name of the procedure of this number.
pub(crate) fn name_at(alloc: Global, declarations: &[Decl], number: usize) -> Result<Name, NoMemory>
    requires { number < length (procedure_names (outline declarations.now)) }
    ensures { IfOk result (λ n. slice_get (procedure_names (outline declarations.now)) number ≡ Some n) }
{
    let mut left = number;
    let name = name_among(declarations, &mut left).unwrap();
    name.copy(alloc)
}

// The name of the procedure that stands behind so many, if these declarations have it; else they are counted off.
#[cycle(name)]
fn name_among<'a>(declarations: &'a [Decl], left: &mut usize) -> Option<&'a Name>
    ensures { (ns : List Name) → slice_get (procedure_names (outline declarations.now) ++ ns) left.old ≡ option_or (option_copied result) (slice_get ns left.new) }
{
    'each: for declaration in declarations {
        let found = name_within(declaration, left);
        if found.is_some() {
            return found;
        }
    }
    None
}

// The same of one declaration.
#[cycle(name)]
fn name_within<'a>(declaration: &'a Decl, left: &mut usize) -> Option<&'a Name>
    ensures { TellsName declaration.now left.old (option_copied result) left.new }
{
    match declaration {
        Decl::Rule(_) => None,
        Decl::Procedure {
            name,
            declarations,
            ..
        } => {
            if !is_main(name) {
                if *left == 0 {
                    return Some(name);
                }
                *left -= 1;
            }
            name_among(declarations.as_slice(), left)
        }
    }
}

// Whether the name is Main's.
fn is_main(name: &Name) -> bool
    ensures { result ≡ is_main name.now }
{
    name.as_bytes() == b"Main".as_slice()
}
