//! Commands and programs.

ghost use Rattle.std.specs.Prelude.{◌≡◌};
ghost use Rattle.gp_syntax.specs.Scoped.{IsScoped};
ghost use Rattle.gp_syntax.specs.Tree.{program_of_tree};

use crate::rule::Rule;
use sqlite_items::{Boxed, Items};
use std::marker::Model;

/// A command (Plump 2012, section 4). Rule sets and procedures are named by their numbers. A chain has a first part and
/// further ones.
pub enum Command {
    Call(u32),
    Seq(Boxed<Command>, Items<Command>),
    If(Boxed<Command>, Boxed<Command>, Boxed<Command>),
    Try(Boxed<Command>, Boxed<Command>, Boxed<Command>),
    Loop(Boxed<Command>),
    Or(Boxed<Command>, Items<Command>),
    Skip,
    Fail,
    Break,
    Proc(u32),
}

/// The parts of a program: the body of Main and of each procedure, the rule set of each call by the numbers of its
/// rules, and the rules in the order of the text.
pub struct ProgramParts {
    pub main: Command,
    pub procedures: Items<Command>,
    pub sets: Items<Items<u32>>,
    pub rules: Items<Rule>,
}

impl Drop for ProgramParts {
    fn drop(self) {
        let ProgramParts {
            main,
            procedures,
            sets,
            rules,
        } = self;
        drop(main);
        drop(procedures);
        drop(sets);
        drop(rules);
    }
}

/// A program whose numbers are in range, in which no procedure reaches itself, no chain of calls has more than 64
/// procedures, and neither Main nor a condition may break. Contracts see its parts.
#[derive(Drop)]
pub struct Program {
    parts: ProgramParts,
}

impl Model for Program {
    ghost use Rattle.gp_syntax.specs.contracts.command.ProgramParts.{the_row};
    ghost use Rattle.gp_syntax.specs.declared.command.ProgramParts.{ProgramParts};

    ghost Value = { ProgramParts };

    ghost coded = { the_row.coded };

    ghost use Rattle.gp_syntax.specs.Scoped.{IsScoped};
    ghost use Rattle.gp_syntax.specs.Tree.{program_of_tree};

    ghost view = { λ a. a.parts };

    ghost invariant = { λ a. IsScoped (program_of_tree a.parts) };
}

impl Program {
    /// The program of these parts.
    pub fn new(parts: ProgramParts) -> Program
        requires { IsScoped (program_of_tree parts) }
        ensures { result ≡ parts }
    {
        Program { parts }
    }

    /// The parts.
    pub fn parts(&self) -> &ProgramParts
        ensures value { result.now ≡ self.now }
        ensures scoped { IsScoped (program_of_tree self.now) }
    {
        &self.parts
    }
}

// Written, so that a function that lets a command go calls it.
impl Drop for Command {
    fn drop(self) {
        match self {
            Command::Call(_) | Command::Proc(_) | Command::Skip | Command::Fail | Command::Break =>
                {}
            Command::Seq(first, rest) | Command::Or(first, rest) => {
                drop(first);
                drop(rest);
            }
            Command::If(test, first, second) | Command::Try(test, first, second) => {
                drop(test);
                drop(first);
                drop(second);
            }
            Command::Loop(body) => drop(body),
        }
    }
}
