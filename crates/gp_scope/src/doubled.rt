//! Names that are declared twice among the same declarations.

ghost use Rattle.std.specs.Prelude.{◌≡◌, [], IfOk};
ghost use Rattle.std.specs.Option.{option_copied};
ghost use Rattle.gp_values.specs.Names.{has_name};
ghost use Rattle.gp_scope.specs.Outline.{outline};
ghost use Rattle.gp_scope.specs.Fault.{doubled_behind};
ghost use Rattle.gp_scope.specs.inside.Doubles.{TellsDoubled, StopsDoubled, name_of};

use gp_memory::NoMemory;
use gp_syntax::{Decl, Name};
use gp_values::NameTable;
use std::alloc::Global;

/// The first name, in text order, that stood before among the same declarations.
#[cycle(doubled)]
pub(crate) fn first_doubled<'a>(
    alloc: Global,
    declarations: &'a [Decl],
) -> Result<Option<&'a Name>, NoMemory>
    ensures { IfOk result (λ o. option_copied o ≡ doubled_behind [] (outline declarations.now)) }
{
    let mut seen = NameTable::new(alloc);
    'each: for declaration in declarations {
        let name = name_of(declaration);
        if !seen.add(alloc, name.as_bytes())? {
            return Ok(Some(name));
        }
        let within = doubled_within(alloc, declaration)?;
        if within.is_some() {
            return Ok(within);
        }
    }
    Ok(None)
}

// The same within a declaration.
#[cycle(doubled)]
fn doubled_within<'a>(alloc: Global, declaration: &'a Decl) -> Result<Option<&'a Name>, NoMemory>
    ensures { IfOk result (λ o. TellsDoubled declaration.now (option_copied o)) }
{
    match declaration {
        Decl::Rule(_) => Ok(None),
        Decl::Procedure { declarations, .. } => {
            let found = first_doubled(alloc, declarations.as_slice())?;
            Ok(found)
        }
    }
}

/// The name that is declared.
pub(crate) fn name_of(declaration: &Decl) -> &Name
    ensures name { result.now ≡ name_of declaration.now }
    ensures again { StopsDoubled declaration.now }
{
    match declaration {
        Decl::Rule(rule) => &rule.name,
        Decl::Procedure { name, .. } => name,
    }
}
