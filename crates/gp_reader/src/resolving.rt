//! The names and calls of a program text.

ghost use Rattle.std.specs.Prelude.{◌≡◌, Some, IfOk, IfErr, OnOk};
ghost use Rattle.gp_scope.specs.Outline.{outline};
ghost use Rattle.gp_scope.specs.Fault.{Fault, IsFault, told};
ghost use Rattle.gp_scope.specs.Bodies.{AreBodies};
ghost use Rattle.gp_reader.specs.Resolution.{IsFaultless, IsResolved};

use crate::check::check_calls;
use crate::scoped::{Scoped, ScopedParts};
use crate::taken::take_rules;
use gp_memory::NoMemory;
use gp_scope::{Bodies, ScopeFault, bodies_of, check_names};
use gp_syntax::{Ast, Decl, Items};
use std::alloc::Global;

/// Puts numbers in place of the names of a program text, and takes the declarations of its rules out of it. The first
/// fault of names and calls, if there is one.
pub fn resolve(alloc: Global, tree: Ast) -> Result<Scoped, ScopeFault>
    ensures faultless { OnOk result (IsFaultless (outline tree.declarations)) }
    ensures ok { IfOk result (λ s. IsResolved (outline tree.declarations) s) }
    ensures err { IfErr result (λ e. (f : Fault) → told e ≡ Some f → IsFault (outline tree.declarations) f) }
{
    let Ast { declarations } = tree;
    let bodies = faultless_bodies(alloc, declarations.as_slice())?;
    let rules = take_rules(alloc, declarations)?;
    let (main, procedures, sets) = bodies.into_parts();
    Ok(Scoped::new(ScopedParts {
        main: main.unwrap(),
        procedures: Items::from_vec(procedures),
        sets: Items::from_vec(sets),
        rules,
    }))
}

// The bodies, where there is no fault; else the first one.
fn faultless_bodies(alloc: Global, declarations: &[Decl]) -> Result<Bodies, ScopeFault>
    ensures faultless { OnOk result (IsFaultless (outline declarations.now)) }
    ensures ok { IfOk result (λ b. AreBodies (outline declarations.now) b) }
    ensures err { IfErr result (λ e. (f : Fault) → told e ≡ Some f → IsFault (outline declarations.now) f) }
{
    check_names(alloc, declarations)?;
    let bodies = bodies_of(alloc, declarations)?;
    let main = bodies.main.as_ref().unwrap();
    check_calls(alloc, declarations, main, bodies.procedures.as_slice())?;
    Ok(bodies)
}
