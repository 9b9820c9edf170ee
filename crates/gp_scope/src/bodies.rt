//! The bodies of a program text, with numbers in place of names.

ghost use Rattle.std.specs.Prelude.{◌≡◌, ◌+◌, ◌<◌, ◌^◌, [], None, IfOk, OnOk};
ghost use Rattle.gp_syntax.specs.Tree.{command_of};
ghost use Rattle.gp_scope.specs.Outline.{outline, named};
ghost use Rattle.gp_scope.specs.Names.{bodies};
ghost use Rattle.gp_scope.specs.Fault.{doubled_behind, fault_of_names};
ghost use Rattle.gp_scope.specs.Bodies.{AreBodies};
ghost use Rattle.gp_scope.specs.inside.Levels.{scope_of};
ghost use Rattle.gp_scope.specs.Surveys.{declarations_in};
ghost use Rattle.gp_scope.specs.inside.Declares.{KeepsOnce, Stands};
ghost use Rattle.gp_scope.specs.inside.Numbering.{Numbers, numbered_of, with_command, with_body, with_bodies};

use crate::declare::enter;
use crate::few::declaration_count;
use crate::level::Level;
use crate::number::number;
use crate::survey::{Survey, count_one, is_main};
use gp_memory::NoMemory;
use gp_syntax::{Command, CommandTree, Decl, Items, Name};
use std::alloc::Global;

/// Bodies with numbers in place of names: that of Main, if it is among them, and those of procedures, by their numbers;
/// and the rules of the sets that they call, by the numbers of the calls.
pub struct Bodies {
    pub main: Option<Command>,
    pub procedures: Vec<Command>,
    pub sets: Vec<Items<u32>>,
}

impl Drop for Bodies {
    fn drop(self) {
        let Bodies {
            main,
            procedures,
            sets,
        } = self;
        drop(main);
        drop(procedures);
        drop(sets);
    }
}

impl Bodies {
    // Puts the body of this name in. A second Main is left out.
    fn put(&mut self, name: &Name, command: Command) -> Result<(), NoMemory>
        ensures { OnOk result (numbered_of self.new ≡ with_command (numbered_of self.old) name.now (command_of command)) }
    {
        if !is_main(name) {
            self.procedures.push(command)?;
        } else if self.main.is_none() {
            self.main = Some(command);
        }
        Ok(())
    }

    /// The body of Main, those of procedures, and the sets.
    pub fn into_parts(self) -> (Option<Command>, Vec<Command>, Vec<Items<u32>>)
        ensures main { result.0 ≡ self.main }
        ensures procedures { result.1 ≡ self.procedures }
        ensures sets { result.2 ≡ self.sets }
    {
        let Bodies {
            main,
            procedures,
            sets,
        } = self;
        (main, procedures, sets)
    }
}

/// The bodies of a program text whose names are in order.
pub fn bodies_of(alloc: Global, declarations: &[Decl]) -> Result<Bodies, NoMemory>
    requires { fault_of_names (outline declarations.now) ≡ None }
    ensures { IfOk result (λ b. AreBodies (outline declarations.now) b) }
{
    if declaration_count(declarations).is_none() {
        return Err(NoMemory);
    }
    let top = Survey {
        rules: 0,
        procedures: 0,
        mains: 0,
    };
    let mut levels = Vec::new(alloc);
    enter(alloc, declarations, top, &mut levels)?;
    let mut all = Bodies {
        main: None,
        procedures: Vec::new(alloc),
        sets: Vec::new(alloc),
    };
    put_bodies(alloc, declarations, &mut levels, top, &mut all)?;
    Ok(all)
}

// Puts the bodies of these declarations in, behind so many.
#[cycle(bodies)]
fn put_bodies(
    alloc: Global,
    declarations: &[Decl],
    levels: &mut Vec<Level>,
    first: Survey,
    done: &mut Bodies,
) -> Result<(), NoMemory>
    requires once { doubled_behind [] (outline declarations.now) ≡ None }
    requires few { first.rules + first.procedures + first.mains + declarations_in (outline declarations.now) < 2 ^ 32 }
    ensures bodies { OnOk result (numbered_of done.new ≡ with_bodies (numbered_of done.old) (bodies (scope_of levels.old.items) first.rules first.procedures (outline declarations.now))) }
    ensures levels { OnOk result (levels.new.items ≡ levels.old.items) }
{
    let mut at = first;
    'each: for declaration in declarations {
        put_own(alloc, declaration, levels, at, done)?;
        at = at.plus(count_one(declaration));
    }
    Ok(())
}

// Puts those of one declaration in.
#[cycle(bodies)]
fn put_own(
    alloc: Global,
    declaration: &Decl,
    levels: &mut Vec<Level>,
    at: Survey,
    done: &mut Bodies,
) -> Result<(), NoMemory>
    requires { Stands declaration.now at }
    ensures bodies { OnOk result (Numbers declaration.now (scope_of levels.old.items) at.rules at.procedures (numbered_of done.old) (numbered_of done.new)) }
    ensures levels { OnOk result (levels.new.items ≡ levels.old.items) }
    ensures once { OnOk result (KeepsOnce declaration.now) }
{
    match declaration {
        Decl::Rule(_) => Ok(()),
        Decl::Procedure {
            name,
            declarations,
            body,
        } => {
            let within = at.with_procedure(name);
            enter(alloc, declarations.as_slice(), within, levels)?;
            put_body(alloc, levels.as_slice(), name, body, done)?;
            put_bodies(alloc, declarations.as_slice(), levels, within, done)?;
            levels.pop();
            Ok(())
        }
    }
}

// Puts one body in.
fn put_body(
    alloc: Global,
    levels: &[Level],
    name: &Name,
    body: &CommandTree,
    done: &mut Bodies,
) -> Result<(), NoMemory>
    ensures { OnOk result (numbered_of done.new ≡ with_body (numbered_of done.old) (record { name = name.now; scope = scope_of levels.now; command = named body.now })) }
{
    let command = number(alloc, levels, body, &mut done.sets)?;
    done.put(name, command)
}
