//! Names that are called and mean nothing where they stand.

ghost use Rattle.std.specs.Prelude.{◌≡◌, is_some};
ghost use Rattle.std.specs.Option.{option_copied};
ghost use Rattle.gp_scope.specs.Outline.{named};
ghost use Rattle.gp_scope.specs.Names.{meaning_in, rule_of, procedure_of};
ghost use Rattle.gp_scope.specs.Fault.{unless, first_told, unknown_in};
ghost use Rattle.gp_scope.specs.inside.Levels.{scope_of};
ghost use Rattle.gp_scope.specs.inside.Commands.{unknown_rule, unknown_in_rest};

use crate::level::{Level, meaning_at};
use gp_syntax::{CommandTree, Name};

/// The first name that a command calls, and that means no rule, or no procedure.
#[cycle(unknown)]
pub(crate) fn unknown_in<'a>(levels: &[Level], command: &'a CommandTree) -> Option<&'a Name>
    ensures { option_copied result ≡ unknown_in (scope_of levels.now) (named command.now) }
{
    match command {
        CommandTree::Call(names) => unknown_rule(levels, names.as_slice()),
        CommandTree::Procedure(name) => unknown_procedure(levels, name),
        CommandTree::Seq(first, rest) | CommandTree::Or(first, rest) => {
            let found = unknown_in(levels, first.get());
            if found.is_some() {
                return found;
            }
            unknown_in_rest(levels, rest.as_slice())
        }
        CommandTree::If(condition, then, other) | CommandTree::Try(condition, then, other) => {
            let found = unknown_in(levels, condition.get());
            if found.is_some() {
                return found;
            }
            let found = unknown_in(levels, then.get());
            if found.is_some() {
                return found;
            }
            unknown_in(levels, other.get())
        }
        CommandTree::Loop(body) => unknown_in(levels, body.get()),
        CommandTree::Skip | CommandTree::Fail | CommandTree::Break => None,
    }
}

#[cycle(unknown)]
fn unknown_in_rest<'a>(levels: &[Level], commands: &'a [CommandTree]) -> Option<&'a Name>
    ensures { option_copied result ≡ unknown_in_rest (scope_of levels.now) commands.now }
{
    'each: for command in commands {
        let found = unknown_in(levels, command);
        if found.is_some() {
            return found;
        }
    }
    None
}

// The first of the names that means no rule.
fn unknown_rule<'a>(levels: &[Level], names: &'a [Name]) -> Option<&'a Name>
    ensures { option_copied result ≡ first_told (unknown_rule (scope_of levels.now)) names.now }
{
    'each: for name in names {
        if !is_rule(levels, name) {
            return Some(name);
        }
    }
    None
}

// Whether the name means a rule.
fn is_rule(levels: &[Level], name: &Name) -> bool
    ensures { result ≡ is_some (rule_of (meaning_in (scope_of levels.now) name.now)) }
{
    match meaning_at(levels, name) {
        Some(meaning) => meaning.rule().is_some(),
        None => false,
    }
}

// The name, unless it means a procedure.
fn unknown_procedure<'a>(levels: &[Level], name: &'a Name) -> Option<&'a Name>
    ensures { option_copied result ≡ unless (is_some (procedure_of (meaning_in (scope_of levels.now) name.now))) name.now }
{
    match meaning_at(levels, name) {
        Some(meaning) if meaning.procedure().is_some() => None,
        _ => Some(name),
    }
}
