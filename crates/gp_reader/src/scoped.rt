//! A program text with numbers in place of names, whose rules are still declarations.

ghost use Rattle.std.specs.Prelude.{◌≡◌, map, length};
ghost use Rattle.gp_syntax.specs.Tree.{rule_of_tree, program_of_tree};
ghost use Rattle.gp_scope.specs.Outline.{Outline};
ghost use Rattle.gp_scope.specs.Resolved.{program_with};
ghost use Rattle.gp_reader.specs.Resolution.{IsResolved, IsAlwaysScoped};

use gp_syntax::{Command, Items, Program, ProgramParts, Rule, RuleDecl};
use std::marker::Model;

/// The bodies of Main and of the procedures, the rule set of each call by the numbers of its rules, and the declarations
/// of the rules in text order.
pub struct ScopedParts {
    pub main: Command,
    pub procedures: Items<Command>,
    pub sets: Items<Items<u32>>,
    pub rules: Items<RuleDecl>,
}

impl Drop for ScopedParts {
    fn drop(self) {
        let ScopedParts {
            main,
            procedures,
            sets,
            rules,
        } = self;
        drop(main);
        drop(procedures);
        drop(sets);
        drop(rules);
    }
}

impl ScopedParts {
    // With these rules in place of declarations.
    fn with(self, rules: Items<Rule>) -> ProgramParts
        ensures { result ≡ record { main = self.main; procedures = self.procedures; sets = self.sets; rules = rules } }
    {
        let ScopedParts {
            main,
            procedures,
            sets,
            rules: _,
        } = self;
        ProgramParts {
            main,
            procedures,
            sets,
            rules,
        }
    }
}

/// A text without a fault of names or calls. Contracts see its parts.
#[derive(Drop)]
pub struct Scoped {
    parts: ScopedParts,
}

impl Model for Scoped {
    ghost use Rattle.gp_reader.specs.contracts.scoped.ScopedParts.{the_row};
    ghost use Rattle.gp_reader.specs.declared.scoped.ScopedParts.{ScopedParts};

    ghost Value = { ScopedParts };

    ghost coded = { the_row.coded };

    ghost use Rattle.gp_reader.specs.Resolution.{IsAlwaysScoped};

    ghost view = { λ a. a.parts };

    ghost invariant = { λ a. IsAlwaysScoped a.parts };
}

impl Scoped {
    // Of these parts.
    pub(crate) fn new(parts: ScopedParts) -> Scoped
        requires { IsAlwaysScoped parts }
        ensures { result ≡ parts }
    {
        Scoped { parts }
    }

    /// The declarations of the rules, in text order.
    pub fn rules(&self) -> &[RuleDecl]
        ensures { result.now ≡ self.now.rules }
    {
        self.parts.rules.as_slice()
    }

    /// The program, where these are the rules that are declared, in the same order.
    pub fn finish(self, rules: Items<Rule>) -> Program
        requires { length rules ≡ length self.rules }
        ensures program { (os : Outline) → IsResolved os self → program_of_tree result ≡ program_with os (map rule_of_tree rules) }
        ensures rules { result.rules ≡ rules }
    {
        Program::new(self.parts.with(rules))
    }
}
