//! The tokens of commands.

ghost use Rattle.std.specs.Prelude.{◌≡◌, nat_lt, ◌∷◌, ◌++◌};
ghost use Rattle.std.specs.List.{flat_map};
ghost use Rattle.gp_tokens.specs.declared.keyword.Keyword.TheVariants as words;
ghost use Rattle.gp_fmt.specs.declared.piece.Piece.TheVariants as p;
ghost use Rattle.gp_fmt.specs.Expressions.{in_parentheses_if};
ghost use Rattle.gp_fmt.specs.Commands.{part_of_command, command, level, is_call, is_nothing, called, in_braces, names_behind, names, in_sequence, in_branch, in_choice, optional};
ghost use Rattle.gp_fmt.specs.inside.Puts.{Puts};
ghost use Rattle.gp_fmt.specs.inside.Links.{sequence_link, choice_link};

use crate::sheet::Sheet;
use gp_syntax::{CommandTree, Name};
use gp_tokens::{Keyword, Kind};

const SEQUENCE_LEVEL: u8 = 0;

const BRANCH_LEVEL: u8 = 1;

const CHOICE_LEVEL: u8 = 2;

const SIMPLE_LEVEL: u8 = 3;

// How tightly a command holds together: a chain of `;` least, then `if` and `try`, then a chain of `or`.
fn level_of(c: &CommandTree) -> u8
    ensures { result ≡ level (part_of_command c.now).form }
{
    match c {
        CommandTree::Seq(_, _) => SEQUENCE_LEVEL,
        CommandTree::If(_, _, _) => BRANCH_LEVEL,
        CommandTree::Try(_, _, _) => BRANCH_LEVEL,
        CommandTree::Or(_, _) => CHOICE_LEVEL,
        CommandTree::Call(_) => SIMPLE_LEVEL,
        CommandTree::Procedure(_) => SIMPLE_LEVEL,
        CommandTree::Loop(_) => SIMPLE_LEVEL,
        CommandTree::Skip => SIMPLE_LEVEL,
        CommandTree::Fail => SIMPLE_LEVEL,
        CommandTree::Break => SIMPLE_LEVEL,
    }
}

fn is_call(c: &CommandTree) -> bool
    ensures { result ≡ is_call (part_of_command c.now).form }
{
    match c {
        CommandTree::Call(_) => true,
        CommandTree::Procedure(_) => true,
        CommandTree::Seq(_, _) => false,
        CommandTree::If(_, _, _) => false,
        CommandTree::Try(_, _, _) => false,
        CommandTree::Or(_, _) => false,
        CommandTree::Loop(_) => false,
        CommandTree::Skip => false,
        CommandTree::Fail => false,
        CommandTree::Break => false,
    }
}

fn is_nothing(c: &CommandTree) -> bool
    ensures { result ≡ is_nothing (part_of_command c.now).form }
{
    match c {
        CommandTree::Skip => true,
        CommandTree::Call(_) => false,
        CommandTree::Procedure(_) => false,
        CommandTree::Seq(_, _) => false,
        CommandTree::If(_, _, _) => false,
        CommandTree::Try(_, _, _) => false,
        CommandTree::Or(_, _) => false,
        CommandTree::Loop(_) => false,
        CommandTree::Fail => false,
        CommandTree::Break => false,
    }
}

/// Puts names, each behind a comma.
pub(crate) fn put_names_behind<'a>(names: &'a [Name], sheet: &mut Sheet<'a>)
    ensures { Puts sheet.old sheet.new (names_behind names.now) }
{
    'each: for name in names {
        sheet.sign(Kind::Comma);
        sheet.name(name);
    }
}

// Puts names with commas between them.
fn put_names<'a>(all: &'a [Name], sheet: &mut Sheet<'a>)
    ensures { Puts sheet.old sheet.new (names all.now) }
{
    match all.split_first() {
        None => {}
        Some((first, rest)) => {
            sheet.name(first);
            put_names_behind(rest, sheet);
        }
    }
}

/// Puts names in braces, with commas between them.
pub(crate) fn put_set<'a>(all: &'a [Name], sheet: &mut Sheet<'a>)
    ensures { Puts sheet.old sheet.new (in_braces (names all.now)) }
{
    sheet.sign(Kind::OpenBrace);
    put_names(all, sheet);
    sheet.sign(Kind::CloseBrace);
}

// Puts a call of rules: of one alone by its name.
fn put_called<'a>(rules: &'a [Name], sheet: &mut Sheet<'a>)
    ensures { Puts sheet.old sheet.new (called rules.now) }
{
    match rules {
        [rule] => sheet.name(rule),
        _ => put_set(rules, sheet),
    }
}

/// Puts a command.
#[cycle(command)]
pub(crate) fn put_command<'a>(c: &'a CommandTree, sheet: &mut Sheet<'a>)
    ensures { Puts sheet.old sheet.new (command c.now) }
{
    match c {
        CommandTree::Call(rules) => put_called(rules.as_slice(), sheet),
        CommandTree::Procedure(name) => sheet.name(name),
        CommandTree::Seq(first, rest) => put_sequence(first.get(), rest.as_slice(), sheet),
        CommandTree::If(test, then, other) => put_if(test.get(), then.get(), other.get(), sheet),
        CommandTree::Try(test, then, other) => {
            put_try(test.get(), then.get(), other.get(), sheet);
        }
        CommandTree::Loop(body) => {
            let body = body.get();
            put_part(!is_call(body), body, sheet);
            sheet.sign(Kind::Exclamation);
        }
        CommandTree::Or(first, rest) => put_choice(first.get(), rest.as_slice(), sheet),
        CommandTree::Skip => sheet.word(Keyword::Skip),
        CommandTree::Fail => sheet.word(Keyword::Fail),
        CommandTree::Break => sheet.word(Keyword::Break),
    }
}

// Puts a command, in parentheses where they are asked for.
#[cycle(command)]
fn put_part<'a>(needed: bool, c: &'a CommandTree, sheet: &mut Sheet<'a>)
    ensures { Puts sheet.old sheet.new (in_parentheses_if needed (command c.now)) }
{
    if needed {
        sheet.sign(Kind::OpenParenthesis);
        put_command(c, sheet);
        sheet.sign(Kind::CloseParenthesis);
    } else {
        put_command(c, sheet);
    }
}

// Puts a command, in parentheses where its own level is below this one.
#[cycle(command)]
fn put_from<'a>(limit: u8, c: &'a CommandTree, sheet: &mut Sheet<'a>)
    ensures { Puts sheet.old sheet.new (in_parentheses_if (nat_lt (level (part_of_command c.now).form) limit) (command c.now)) }
{
    put_part(level_of(c) < limit, c, sheet);
}

// Puts a part that may be missing, behind its word: `skip` is not written.
#[cycle(command)]
fn put_optional<'a>(word: Keyword, c: &'a CommandTree, sheet: &mut Sheet<'a>)
    ensures { Puts sheet.old sheet.new (optional word (part_of_command c.now)) }
{
    if is_nothing(c) {
        return;
    }
    sheet.word(word);
    put_from(CHOICE_LEVEL, c, sheet);
}

// Puts an `if`.
#[cycle(command)]
fn put_if<'a>(
    test: &'a CommandTree,
    then: &'a CommandTree,
    other: &'a CommandTree,
    sheet: &mut Sheet<'a>,
)
    ensures { Puts sheet.old sheet.new (p.Word words.If ∷ in_branch (part_of_command test.now) ++ p.Word words.Then ∷ in_branch (part_of_command then.now) ++ optional words.Else (part_of_command other.now)) }
{
    sheet.word(Keyword::If);
    put_from(CHOICE_LEVEL, test, sheet);
    sheet.word(Keyword::Then);
    put_from(CHOICE_LEVEL, then, sheet);
    put_optional(Keyword::Else, other, sheet);
}

// Puts a `try`.
#[cycle(command)]
fn put_try<'a>(
    test: &'a CommandTree,
    then: &'a CommandTree,
    other: &'a CommandTree,
    sheet: &mut Sheet<'a>,
)
    ensures { Puts sheet.old sheet.new (p.Word words.Try ∷ in_branch (part_of_command test.now) ++ optional words.Then (part_of_command then.now) ++ optional words.Else (part_of_command other.now)) }
{
    sheet.word(Keyword::Try);
    put_from(CHOICE_LEVEL, test, sheet);
    put_optional(Keyword::Then, then, sheet);
    put_optional(Keyword::Else, other, sheet);
}

// Puts a chain of `;`.
#[cycle(command)]
fn put_sequence<'a>(first: &'a CommandTree, rest: &'a [CommandTree], sheet: &mut Sheet<'a>)
    ensures { Puts sheet.old sheet.new (in_sequence (part_of_command first.now) ++ flat_map sequence_link rest.now) }
{
    put_from(BRANCH_LEVEL, first, sheet);
    'each: for part in rest {
        sheet.sign(Kind::Semicolon);
        put_from(BRANCH_LEVEL, part, sheet);
    }
}

// Puts a chain of `or`.
#[cycle(command)]
fn put_choice<'a>(first: &'a CommandTree, rest: &'a [CommandTree], sheet: &mut Sheet<'a>)
    ensures { Puts sheet.old sheet.new (in_choice (part_of_command first.now) ++ flat_map choice_link rest.now) }
{
    put_from(SIMPLE_LEVEL, first, sheet);
    'each: for part in rest {
        sheet.word(Keyword::Or);
        put_from(SIMPLE_LEVEL, part, sheet);
    }
}
