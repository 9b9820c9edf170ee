//! Names that mean nothing, in the bodies of all procedures.

ghost use Rattle.std.specs.Prelude.{◌≡◌, ◌+◌, ◌<◌, ◌^◌, [], IfOk, OnOk};
ghost use Rattle.std.specs.Option.{option_copied};
ghost use Rattle.gp_scope.specs.Outline.{outline};
ghost use Rattle.gp_scope.specs.Names.{bodies_in_text};
ghost use Rattle.gp_scope.specs.Fault.{doubled_behind, first_told};
ghost use Rattle.gp_scope.specs.inside.Levels.{scope_of};
ghost use Rattle.gp_scope.specs.Surveys.{declarations_in};
ghost use Rattle.gp_scope.specs.inside.Declares.{KeepsOnce, Stands, TellsUnknown, unknown_of};

use crate::declare::enter;
use crate::level::Level;
use crate::survey::{Survey, count_one};
use crate::unknown::unknown_in;
use gp_memory::NoMemory;
use gp_syntax::{Decl, Name};
use std::alloc::Global;

/// The first name that means nothing where it is called, in the bodies of these declarations; behind so many.
#[cycle(strangers)]
pub(crate) fn first_unknown<'a>(
    alloc: Global,
    declarations: &'a [Decl],
    levels: &mut Vec<Level>,
    first: Survey,
) -> Result<Option<&'a Name>, NoMemory>
    requires once { doubled_behind [] (outline declarations.now) ≡ None }
    requires few { first.rules + first.procedures + first.mains + declarations_in (outline declarations.now) < 2 ^ 32 }
    ensures told { IfOk result (λ o. option_copied o ≡ first_told unknown_of (bodies_in_text (scope_of levels.old.items) first.rules first.procedures (outline declarations.now))) }
    ensures levels { OnOk result (levels.new.items ≡ levels.old.items) }
{
    let mut at = first;
    'each: for declaration in declarations {
        let behind = at.plus(count_one(declaration));
        let found = unknown_within(alloc, declaration, levels, at)?;
        if found.is_some() {
            return Ok(found);
        }
        at = behind;
    }
    Ok(None)
}

// The same, in the bodies of one declaration.
#[cycle(strangers)]
fn unknown_within<'a>(
    alloc: Global,
    declaration: &'a Decl,
    levels: &mut Vec<Level>,
    at: Survey,
) -> Result<Option<&'a Name>, NoMemory>
    requires { Stands declaration.now at }
    ensures told { IfOk result (λ o. TellsUnknown declaration.now (scope_of levels.old.items) at.rules at.procedures (option_copied o)) }
    ensures levels { OnOk result (levels.new.items ≡ levels.old.items) }
    ensures once { OnOk result (KeepsOnce declaration.now) }
{
    match declaration {
        Decl::Rule(_) => Ok(None),
        Decl::Procedure {
            name,
            declarations,
            body,
        } => {
            let within = at.with_procedure(name);
            enter(alloc, declarations.as_slice(), within, levels)?;
            let found = match first_unknown(alloc, declarations.as_slice(), levels, within)? {
                None => unknown_in(levels.as_slice(), body),
                found => found,
            };
            levels.pop();
            Ok(found)
        }
    }
}
