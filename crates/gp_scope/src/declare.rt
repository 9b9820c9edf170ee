//! What declarations among one another give names to.

ghost use Rattle.std.specs.Prelude.{◌≡◌, ◌+◌, ◌<◌, ◌^◌, [], ◌∷◌, ◌++◌, false, IfOk, OnOk};
ghost use Rattle.gp_values.specs.Names.{has_name};
ghost use Rattle.gp_scope.specs.Outline.{outline};
ghost use Rattle.gp_scope.specs.Names.{entries};
ghost use Rattle.gp_scope.specs.Fault.{doubled_behind};
ghost use Rattle.gp_scope.specs.inside.Doubles.{name_of};
ghost use Rattle.gp_scope.specs.inside.Levels.{names_of};
ghost use Rattle.gp_scope.specs.Surveys.{declarations_in};
ghost use Rattle.gp_scope.specs.inside.Declares.{GivesEntries, KeepsOnce, Declares, NamesNoOther};

use crate::doubled::name_of;
use crate::level::Level;
use crate::meaning::Meaning;
use crate::survey::{Survey, count_one, is_main};
use gp_memory::NoMemory;
use gp_syntax::{Decl, Name};
use std::alloc::Global;

/// What the name of a declaration means, behind so many rules and procedures. Main means nothing.
pub(crate) fn own_meaning(declaration: &Decl, rules: u32, procedures: u32) -> Option<Meaning>
    ensures entries { GivesEntries declaration.now rules procedures result }
    ensures once { KeepsOnce declaration.now }
{
    match declaration {
        Decl::Rule(_) => Some(Meaning::Rule(rules)),
        Decl::Procedure { name, .. } => {
            if is_main(name) {
                None
            } else {
                Some(Meaning::Procedure(procedures))
            }
        }
    }
}

// With what the declaration gives a name to.
fn declare(
    alloc: Global,
    level: Level,
    name: &Name,
    declaration: &Decl,
    at: Survey,
) -> Result<Level, NoMemory>
    requires name { name.now ≡ name_of declaration.now }
    requires new { has_name (names_of level) name.now ≡ false }
    ensures entries { IfOk result (λ l. Declares declaration.now at.rules at.procedures level l) }
    ensures names { IfOk result (λ l. NamesNoOther declaration.now level l) }
    ensures once { OnOk result (KeepsOnce declaration.now) }
{
    match own_meaning(declaration, at.rules, at.procedures) {
        None => Ok(level),
        Some(meaning) => Ok(level.with(alloc, name, meaning)?),
    }
}

// The names of these declarations with their meanings, behind so many rules and procedures.
fn level_of(alloc: Global, declarations: &[Decl], first: Survey) -> Result<Level, NoMemory>
    requires once { doubled_behind [] (outline declarations.now) ≡ None }
    requires few { first.rules + first.procedures + first.mains + declarations_in (outline declarations.now) < 2 ^ 32 }
    ensures { IfOk result (λ l. l ≡ entries first.rules first.procedures (outline declarations.now)) }
{
    let mut level = Level::new(alloc);
    let mut at = first;
    'each: for declaration in declarations {
        let name = name_of(declaration);
        level = declare(alloc, level, name, declaration, at)?;
        at = at.plus(count_one(declaration));
    }
    Ok(level)
}

/// Puts the level of these declarations behind those that are there.
pub(crate) fn enter(
    alloc: Global,
    declarations: &[Decl],
    first: Survey,
    levels: &mut Vec<Level>,
) -> Result<(), NoMemory>
    requires once { doubled_behind [] (outline declarations.now) ≡ None }
    requires few { first.rules + first.procedures + first.mains + declarations_in (outline declarations.now) < 2 ^ 32 }
    ensures { OnOk result (levels.new.items ≡ levels.old.items ++ entries first.rules first.procedures (outline declarations.now) ∷ []) }
{
    let level = level_of(alloc, declarations, first)?;
    levels.push(level)?;
    Ok(())
}
