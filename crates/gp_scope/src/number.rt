//! Commands with numbers in place of names.

ghost use Rattle.std.specs.Prelude.{◌≡◌, ◌+◌, ◌<◌, ◌^◌, [], ◌∷◌, ◌++◌, map, length, IfOk, OnOk};
ghost use Rattle.gp_syntax.specs.declared.command.Command.TheVariants as command;
ghost use Rattle.gp_syntax.specs.Tree.{command_of};
ghost use Rattle.gp_scope.specs.Outline.{named};
ghost use Rattle.gp_scope.specs.Resolved.{called_sets, resolved, rule_number, procedure_number};
ghost use Rattle.gp_scope.specs.inside.Levels.{scope_of};
ghost use Rattle.gp_scope.specs.inside.Commands.{sets_in, called_in_rest, resolved_rest, sets_in_rest};

use crate::level::{Level, meaning_at};
use gp_memory::NoMemory;
use gp_syntax::{Boxed, Command, CommandTree, Items, Name};
use std::alloc::Global;

// A condition with its branches.
struct Branches {
    condition: Boxed<Command>,
    then: Boxed<Command>,
    other: Boxed<Command>,
}

impl Drop for Branches {
    fn drop(self) {
        let Branches {
            condition,
            then,
            other,
        } = self;
        drop(condition);
        drop(then);
        drop(other);
    }
}

impl Branches {
    fn into_if(self) -> Command
        ensures { result ≡ command.If self.condition self.then self.other }
    {
        let Branches {
            condition,
            then,
            other,
        } = self;
        Command::If(condition, then, other)
    }

    fn into_try(self) -> Command
        ensures { result ≡ command.Try self.condition self.then self.other }
    {
        let Branches {
            condition,
            then,
            other,
        } = self;
        Command::Try(condition, then, other)
    }
}

// The parts of a chain.
struct Chain {
    first: Boxed<Command>,
    rest: Items<Command>,
}

impl Drop for Chain {
    fn drop(self) {
        let Chain { first, rest } = self;
        drop(first);
        drop(rest);
    }
}

impl Chain {
    fn into_seq(self) -> Command
        ensures { result ≡ command.Seq self.first self.rest }
    {
        let Chain { first, rest } = self;
        Command::Seq(first, rest)
    }

    fn into_or(self) -> Command
        ensures { result ≡ command.Or self.first self.rest }
    {
        let Chain { first, rest } = self;
        Command::Or(first, rest)
    }
}

/// The command with numbers. The sets that it calls are put behind those that are there, and numbered by their places.
#[cycle(number)]
pub(crate) fn number(
    alloc: Global,
    levels: &[Level],
    command: &CommandTree,
    sets: &mut Vec<Items<u32>>,
) -> Result<Command, NoMemory>
    ensures command { IfOk result (λ c. command_of c ≡ resolved (scope_of levels.now) (length sets.old.items) (named command.now)) }
    ensures sets { OnOk result (sets.new.items ≡ sets.old.items ++ sets_in (scope_of levels.now) (named command.now)) }
{
    match command {
        CommandTree::Call(names) => {
            let place = push_set(alloc, levels, names.as_slice(), sets)?;
            Ok(Command::Call(place))
        }
        CommandTree::Procedure(name) => Ok(Command::Proc(procedure_at(levels, name))),
        CommandTree::Seq(first, rest) => {
            let chain = number_chain(alloc, levels, first.get(), rest.as_slice(), sets)?;
            Ok(chain.into_seq())
        }
        CommandTree::Or(first, rest) => {
            let chain = number_chain(alloc, levels, first.get(), rest.as_slice(), sets)?;
            Ok(chain.into_or())
        }
        CommandTree::If(condition, then, other) => {
            let branches = number_branches(alloc, levels, condition, then, other, sets)?;
            Ok(branches.into_if())
        }
        CommandTree::Try(condition, then, other) => {
            let branches = number_branches(alloc, levels, condition, then, other, sets)?;
            Ok(branches.into_try())
        }
        CommandTree::Loop(body) => Ok(Command::Loop(number_boxed(
            alloc,
            levels,
            body.get(),
            sets,
        )?)),
        CommandTree::Skip => Ok(Command::Skip),
        CommandTree::Fail => Ok(Command::Fail),
        CommandTree::Break => Ok(Command::Break),
    }
}

#[cycle(number)]
fn number_boxed(
    alloc: Global,
    levels: &[Level],
    command: &CommandTree,
    sets: &mut Vec<Items<u32>>,
) -> Result<Boxed<Command>, NoMemory>
    ensures command { IfOk result (λ c. command_of c ≡ resolved (scope_of levels.now) (length sets.old.items) (named command.now)) }
    ensures sets { OnOk result (sets.new.items ≡ sets.old.items ++ sets_in (scope_of levels.now) (named command.now)) }
{
    let numbered = number(alloc, levels, command, sets)?;
    Ok(Boxed::new(alloc, numbered)?)
}

// A condition and its branches.
#[cycle(number)]
fn number_branches(
    alloc: Global,
    levels: &[Level],
    first: &Boxed<CommandTree>,
    second: &Boxed<CommandTree>,
    third: &Boxed<CommandTree>,
    sets: &mut Vec<Items<u32>>,
) -> Result<Branches, NoMemory>
    ensures first { IfOk result (λ r. command_of r.condition ≡ resolved (scope_of levels.now) (length sets.old.items) (named first.now)) }
    ensures second { IfOk result (λ r. command_of r.then ≡ resolved (scope_of levels.now) (length sets.old.items + length (called_sets (named first.now))) (named second.now)) }
    ensures third { IfOk result (λ r. command_of r.other ≡ resolved (scope_of levels.now) (length sets.old.items + length (called_sets (named first.now)) + length (called_sets (named second.now))) (named third.now)) }
    ensures sets { OnOk result (sets.new.items ≡ sets.old.items ++ (sets_in (scope_of levels.now) (named first.now) ++ (sets_in (scope_of levels.now) (named second.now) ++ sets_in (scope_of levels.now) (named third.now)))) }
{
    let first = number_boxed(alloc, levels, first.get(), sets)?;
    let second = number_boxed(alloc, levels, second.get(), sets)?;
    let third = number_boxed(alloc, levels, third.get(), sets)?;
    Ok(Branches {
        condition: first,
        then: second,
        other: third,
    })
}

// A chain.
#[cycle(number)]
fn number_chain(
    alloc: Global,
    levels: &[Level],
    first: &CommandTree,
    rest: &[CommandTree],
    sets: &mut Vec<Items<u32>>,
) -> Result<Chain, NoMemory>
    ensures first { IfOk result (λ r. command_of r.first ≡ resolved (scope_of levels.now) (length sets.old.items) (named first.now)) }
    ensures rest { IfOk result (λ r. map command_of r.rest ≡ resolved_rest (scope_of levels.now) (length sets.old.items + length (called_sets (named first.now))) rest.now) }
    ensures sets { OnOk result (sets.new.items ≡ sets.old.items ++ (sets_in (scope_of levels.now) (named first.now) ++ sets_in_rest (scope_of levels.now) rest.now)) }
{
    let first = number_boxed(alloc, levels, first, sets)?;
    let rest = number_rest(alloc, levels, rest, sets)?;
    Ok(Chain { first, rest })
}

// The further parts of a chain.
#[cycle(number)]
fn number_rest(
    alloc: Global,
    levels: &[Level],
    commands: &[CommandTree],
    sets: &mut Vec<Items<u32>>,
) -> Result<Items<Command>, NoMemory>
    ensures commands { IfOk result (λ cs. map command_of cs ≡ resolved_rest (scope_of levels.now) (length sets.old.items) commands.now) }
    ensures sets { OnOk result (sets.new.items ≡ sets.old.items ++ sets_in_rest (scope_of levels.now) commands.now) }
{
    let mut numbered = Vec::with_capacity(alloc, commands.len())?;
    'each: for command in commands {
        numbered.push(number(alloc, levels, command, sets)?)?;
    }
    Ok(Items::from_vec(numbered))
}

// Puts the set of these rules at the end, and gives its place.
fn push_set(
    alloc: Global,
    levels: &[Level],
    names: &[Name],
    sets: &mut Vec<Items<u32>>,
) -> Result<u32, NoMemory>
    ensures place { IfOk result (λ n. n ≡ length sets.old.items) }
    ensures sets { OnOk result (sets.new.items ≡ sets.old.items ++ map (rule_number (scope_of levels.now)) names.now ∷ []) }
{
    let Ok(place) = u32::try_from(sets.len()) else {
        return Err(NoMemory);
    };
    let set = rules_of(alloc, levels, names)?;
    sets.push(set)?;
    Ok(place)
}

// The numbers of the rules of these names.
fn rules_of(alloc: Global, levels: &[Level], names: &[Name]) -> Result<Items<u32>, NoMemory>
    ensures { IfOk result (λ rs. rs ≡ map (rule_number (scope_of levels.now)) names.now) }
{
    let mut rules = Vec::with_capacity(alloc, names.len())?;
    'each: for name in names {
        rules.push(rule_at(levels, name))?;
    }
    Ok(Items::from_vec(rules))
}

fn rule_at(levels: &[Level], name: &Name) -> u32
    ensures { result ≡ rule_number (scope_of levels.now) name.now }
{
    match meaning_at(levels, name) {
        Some(meaning) => meaning.rule().unwrap_or(0),
        None => 0,
    }
}

fn procedure_at(levels: &[Level], name: &Name) -> u32
    ensures { result ≡ procedure_number (scope_of levels.now) name.now }
{
    match meaning_at(levels, name) {
        Some(meaning) => meaning.procedure().unwrap_or(0),
        None => 0,
    }
}
