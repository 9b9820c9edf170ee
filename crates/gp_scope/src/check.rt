//! The names of a program text.

ghost use Rattle.std.specs.Prelude.{◌≡◌, ◌<◌, ◌^◌, [], Some, None, IfErr, IfOk, OnOk};
ghost use Rattle.std.specs.Option.{option_copied};
ghost use Rattle.gp_scope.specs.Outline.{outline};
ghost use Rattle.gp_scope.specs.Fault.{Fault, fault_of_names, told, doubled_behind, unknown_name};
ghost use Rattle.gp_scope.specs.Surveys.{declarations_in};

use crate::declare::enter;
use crate::doubled::first_doubled;
use crate::fault::ScopeFault;
use crate::few::declaration_count;
use crate::strangers::first_unknown;
use crate::survey::{Survey, count_declared, has_main};
use gp_memory::NoMemory;
use gp_syntax::{Decl, Name};
use std::alloc::Global;

/// Whether the names of a program text are in order: Main is declared once, no name twice among the same declarations,
/// and each name that is called is visible where it is called. The first fault, if they are not. More declarations than a
/// `u32` can count are want of memory.
pub fn check_names(alloc: Global, declarations: &[Decl]) -> Result<(), ScopeFault>
    ensures ok { OnOk result (fault_of_names (outline declarations.now) ≡ None) }
    ensures few { OnOk result (declarations_in (outline declarations.now) < 2 ^ 32) }
    ensures err { IfErr result (λ e. (f : Fault) → told e ≡ Some f → fault_of_names (outline declarations.now) ≡ Some f) }
{
    if !has_main(declarations) {
        return Err(ScopeFault::NoMain);
    }
    if declaration_count(declarations).is_none() {
        return Err(ScopeFault::NoMemory);
    }
    if count_declared(declarations).mains > 1 {
        return Err(ScopeFault::TwoMains);
    }
    if let Some(name) = first_doubled(alloc, declarations)? {
        return Err(ScopeFault::TwoRules(name.copy(alloc)?));
    }
    if let Some(name) = unknown_name(alloc, declarations)? {
        return Err(ScopeFault::Unknown(name.copy(alloc)?));
    }
    Ok(())
}

// The first name that is called and means nothing there.
fn unknown_name<'a>(alloc: Global, declarations: &'a [Decl]) -> Result<Option<&'a Name>, NoMemory>
    requires once { doubled_behind [] (outline declarations.now) ≡ None }
    requires few { declarations_in (outline declarations.now) < 2 ^ 32 }
    ensures { IfOk result (λ o. option_copied o ≡ unknown_name (outline declarations.now)) }
{
    let top = Survey {
        rules: 0,
        procedures: 0,
        mains: 0,
    };
    let mut levels = Vec::new(alloc);
    enter(alloc, declarations, top, &mut levels)?;
    first_unknown(alloc, declarations, &mut levels, top)
}
