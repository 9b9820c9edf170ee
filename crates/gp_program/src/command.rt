//! Reads commands, one function for each line of the grammar.

ghost use Rattle.std.specs.Prelude.{◌≡◌, MatchResult};
ghost use Rattle.gp_tokens.specs.Cursor.{Reads};
ghost use Rattle.gp_tokens.specs.Reading.{reader_of};
ghost use Rattle.gp_program.specs.Commands as spec;
ghost use Rattle.gp_program.specs.inside.Branches.{part_of, branches_behind};
ghost use Rattle.gp_program.specs.inside.Calls.{call};
ghost use Rattle.gp_program.specs.inside.Groups.{group_of, branches_of};

use crate::rule::read_names;
use gp_expressions::read_name;
use gp_syntax::{Boxed, CommandTree, Items, Name};
use gp_tokens::{Keyword, Kind, ReadError, Tokens, Want, separated_by};
use std::alloc::Global;

const OPEN: Want = Want::Kind(Kind::OpenParenthesis);

const CLOSE: Want = Want::Kind(Kind::CloseParenthesis);

const SEMICOLON: Want = Want::Kind(Kind::Semicolon);

const OR: Want = Want::Keyword(Keyword::Or);

const THEN: Want = Want::Keyword(Keyword::Then);

const ELSE: Want = Want::Keyword(Keyword::Else);

// How commands are grouped: by `or`, or one behind the other.
#[derive(Clone, Copy)]
enum Group {
    Or,
    Sequence,
}

fn group_of(group: Group, first: Boxed<CommandTree>, rest: Items<CommandTree>) -> CommandTree
    ensures { result ≡ group_of group first rest }
{
    match group {
        Group::Or => CommandTree::Or(first, rest),
        Group::Sequence => CommandTree::Seq(first, rest),
    }
}

fn grouped(alloc: Global, group: Group, parts: Vec<CommandTree>) -> Result<CommandTree, ReadError>
    ensures { MatchResult result (λ p. p ≡ spec.grouped (group_of group) parts.items) (λ e. e ≡ ReadError.NoMemory) }
{
    let mut rest = Items::from_vec(parts);
    if rest.is_empty() {
        return Ok(CommandTree::Skip);
    }
    let first = rest.remove(0);
    if rest.is_empty() {
        return Ok(first);
    }
    Ok(group_of(group, Boxed::new(alloc, first)?, rest))
}

fn call_of_one(alloc: Global, name: Name) -> Result<CommandTree, ReadError>
    ensures { MatchResult result (λ p. p ≡ spec.call_of_one name) (λ e. e ≡ ReadError.NoMemory) }
{
    let mut names = Items::new(alloc);
    names.push(name)?;
    Ok(CommandTree::Call(names))
}

// The branches of a condition that is tried, or only met.
fn branches(
    alloc: Global,
    tried: bool,
    condition: CommandTree,
    met: CommandTree,
    unmet: CommandTree,
) -> Result<CommandTree, ReadError>
    ensures { MatchResult result (λ p. p ≡ branches_of tried condition met unmet) (λ e. e ≡ ReadError.NoMemory) }
{
    let condition = Boxed::new(alloc, condition)?;
    let met = Boxed::new(alloc, met)?;
    let unmet = Boxed::new(alloc, unmet)?;
    if tried {
        return Ok(CommandTree::Try(condition, met, unmet));
    }
    Ok(CommandTree::If(condition, met, unmet))
}

// ["!"]
#[tactic(auto, unfolding(crate::specs::Commands::bang))]
fn read_bang(tokens: &mut Tokens<'_, '_>) -> Result<bool, ReadError>
    ensures { Reads (reader_of spec.bang tokens.old) result tokens.new }
{
    Ok(tokens.eat(Want::Kind(Kind::Exclamation)))
}

fn looped(alloc: Global, body: CommandTree, looped: bool) -> Result<CommandTree, ReadError>
    ensures { MatchResult result (λ p. p ≡ spec.looped (body, looped)) (λ e. e ≡ ReadError.NoMemory) }
{
    if looped {
        return Ok(CommandTree::Loop(Boxed::new(alloc, body)?));
    }
    Ok(body)
}

// RuleName | "{" [RuleName {"," RuleName}] "}" | ProcName
#[tactic(auto, unfolding(crate::specs::Commands::rule_names))]
fn read_call(tokens: &mut Tokens<'_, '_>) -> Result<CommandTree, ReadError>
    ensures { Reads (reader_of call tokens.old) result tokens.new }
{
    if tokens.eat(Want::Kind(Kind::OpenBrace)) {
        let names = read_names(tokens, Want::RuleName)?;
        if !tokens.eat(Want::Kind(Kind::CloseBrace)) {
            return Err(tokens.refusal());
        }
        return Ok(CommandTree::Call(names));
    }
    if tokens.begins(Want::RuleName) {
        let name = read_name(tokens, Want::RuleName)?;
        return call_of_one(tokens.alloc(), name);
    }
    let name = read_name(tokens, Want::ProcedureName)?;
    Ok(CommandTree::Procedure(name))
}

// "(" ComSeq ")" | RuleName | "{" [RuleName {"," RuleName}] "}" | ProcName, inside so much room.
#[cycle(command)]
#[tactic(auto, unfolding(crate::specs::Commands::repeatable))]
fn read_repeatable(tokens: &mut Tokens<'_, '_>, room: u64) -> Result<CommandTree, ReadError>
    ensures { Reads (reader_of (spec.repeatable (spec.commands_of room)) tokens.old) result tokens.new }
{
    if tokens.eat(OPEN) {
        let inner = read_commands(tokens, room)?;
        if !tokens.eat(CLOSE) {
            return Err(tokens.refusal());
        }
        return Ok(inner);
    }
    read_call(tokens)
}

// Simple, inside so much room.
#[cycle(command)]
#[tactic(auto, unfolding(crate::specs::Commands::simple_in))]
fn read_simple_in(tokens: &mut Tokens<'_, '_>, room: u64) -> Result<CommandTree, ReadError>
    ensures { Reads (reader_of (spec.simple_in (spec.commands_of room)) tokens.old) result tokens.new }
{
    if tokens.eat(Want::Keyword(Keyword::Break)) {
        return Ok(CommandTree::Break);
    }
    if tokens.eat(Want::Keyword(Keyword::Skip)) {
        return Ok(CommandTree::Skip);
    }
    if tokens.eat(Want::Keyword(Keyword::Fail)) {
        return Ok(CommandTree::Fail);
    }
    let body = read_repeatable(tokens, room)?;
    let bang = read_bang(tokens)?;
    looped(tokens.alloc(), body, bang)
}

#[cycle(command)]
#[tactic(auto, unfolding(crate::specs::Commands::simple))]
fn read_simple(tokens: &mut Tokens<'_, '_>, room: u64) -> Result<CommandTree, ReadError>
    ensures { Reads (reader_of (spec.simple room) tokens.old) result tokens.new }
{
    if room == 0 {
        return Err(tokens.refusal());
    }
    read_simple_in(tokens, room - 1)
}

// Block = Simple {"or" Simple}
#[cycle(command)]
#[tactic(auto, unfolding(crate::specs::Commands::block))]
fn read_block(tokens: &mut Tokens<'_, '_>, room: u64) -> Result<CommandTree, ReadError>
    ensures { Reads (reader_of (spec.block (spec.simple room)) tokens.old) result tokens.new }
{
    let parts = separated_by(tokens, OR, room, read_simple)?;
    grouped(tokens.alloc(), Group::Or, parts)
}

// word Block where it has to be there, [word Block] elsewhere
#[cycle(command)]
#[tactic(auto, unfolding(crate::specs::Commands::part))]
fn read_part(
    tokens: &mut Tokens<'_, '_>,
    room: u64,
    word: Want,
    required: bool,
) -> Result<CommandTree, ReadError>
    ensures { Reads (reader_of (part_of required (spec.simple room) word) tokens.old) result tokens.new }
{
    if tokens.eat(word) {
        return read_block(tokens, room);
    }
    if required {
        return Err(tokens.refusal());
    }
    let missing = CommandTree::Skip;
    Ok(missing)
}

// Block "then" Block ["else" Block], behind "if", and Block ["then" Block] ["else" Block], behind "try"
#[cycle(command)]
#[tactic(auto, unfolding(crate::specs::inside::Branches::branches_behind))]
fn read_branches(
    tokens: &mut Tokens<'_, '_>,
    room: u64,
    tried: bool,
) -> Result<CommandTree, ReadError>
    ensures { Reads (reader_of (branches_behind tried (spec.simple room)) tokens.old) result tokens.new }
{
    let condition = read_block(tokens, room)?;
    let met = read_part(tokens, room, THEN, !tried)?;
    let unmet = read_part(tokens, room, ELSE, false)?;
    branches(tokens.alloc(), tried, condition, met, unmet)
}

// Com = Block | "if" Block "then" Block ["else" Block] | "try" Block ["then" Block] ["else" Block]
#[cycle(command)]
#[tactic(auto, using(crate::proofs::CommandParts::if_parts, crate::proofs::CommandParts::try_parts, crate::proofs::CommandParts::block_alone))]
fn read_command(tokens: &mut Tokens<'_, '_>, room: u64) -> Result<CommandTree, ReadError>
    ensures { Reads (reader_of (spec.command (spec.simple room)) tokens.old) result tokens.new }
{
    if tokens.eat(Want::Keyword(Keyword::If)) {
        return read_branches(tokens, room, false);
    }
    if tokens.eat(Want::Keyword(Keyword::Try)) {
        return read_branches(tokens, room, true);
    }
    read_block(tokens, room)
}

/// ComSeq = Com {";" Com}
#[cycle(command)]
#[tactic(auto, unfolding(crate::specs::Commands::sequence))]
pub(crate) fn read_commands(
    tokens: &mut Tokens<'_, '_>,
    room: u64,
) -> Result<CommandTree, ReadError>
    ensures { Reads (reader_of (spec.commands_of room) tokens.old) result tokens.new }
{
    let parts = separated_by(tokens, SEMICOLON, room, read_command)?;
    grouped(tokens.alloc(), Group::Sequence, parts)
}
