//! Reads declarations and programs, one function for each line of the grammar.

ghost use Rattle.std.specs.Prelude.{◌≡◌, MatchResult};
ghost use Rattle.gp_tokens.specs.Grammar.{Made};
ghost use Rattle.gp_tokens.specs.Cursor.{Reads};
ghost use Rattle.gp_tokens.specs.Reading.{reader_of};
ghost use Rattle.gp_program.specs.Rules.{rule};
ghost use Rattle.gp_program.specs.Programs as spec;

use crate::command::read_commands;
use crate::rule::read_rule;
use gp_expressions::{Ranged, gather, join, read_name, whole};
use gp_syntax::{Ast, Decl, Items};
use gp_tokens::{Kind, ReadError, Tokens, Want, repeated_by};
use std::alloc::Global;

fn read_rule_declaration(tokens: &mut Tokens<'_, '_>, room: u64) -> Result<Ranged<Decl>, ReadError>
    ensures { Reads (reader_of (Made spec.rule_decl (rule room)) tokens.old) result tokens.new }
{
    let rule = read_rule(tokens, room)?;
    Ok(Ranged {
        tree: Decl::Rule(rule.tree),
        past: rule.past,
    })
}

// {RuleDecl}
#[tactic(auto, unfolding(crate::specs::Programs::rules))]
pub(crate) fn read_rules(
    tokens: &mut Tokens<'_, '_>,
    room: u64,
) -> Result<Ranged<Items<Decl>>, ReadError>
    ensures { Reads (reader_of (spec.rules room) tokens.old) result tokens.new }
{
    let rules = repeated_by(tokens, Want::RuleName, room, read_rule_declaration)?;
    let rules = gather(tokens.alloc(), rules)?;
    Ok(rules)
}

pub(crate) fn procedure_first(
    alloc: Global,
    procedure: Ranged<Decl>,
    rules: Ranged<Items<Decl>>,
) -> Result<Ranged<Items<Decl>>, ReadError>
    ensures { MatchResult result (λ r. r ≡ spec.procedure_first (procedure, rules)) (λ e. e ≡ ReadError.NoMemory) }
{
    let mut declarations = Items::new(alloc);
    declarations.push(procedure.tree)?;
    declarations.append(rules.tree)?;
    Ok(Ranged {
        tree: declarations,
        past: procedure.past.or(rules.past),
    })
}

/// How much room is left, for rules and commands, and for local declarations.
#[derive(Clone, Copy)]
struct Rooms {
    rules: u64,
    locals: u64,
}

// ["[" {Decl} "]"], inside so much room.
#[cycle(declaration)]
#[tactic(auto, unfolding(crate::specs::Programs::locals))]
fn read_locals(tokens: &mut Tokens<'_, '_>, rooms: Rooms) -> Result<Ranged<Items<Decl>>, ReadError>
    ensures { Reads (reader_of (spec.locals (spec.declarations rooms.rules rooms.locals)) tokens.old) result tokens.new }
{
    if tokens.eat(Want::Kind(Kind::OpenBracket)) {
        let locals = read_declarations(tokens, rooms)?;
        if !tokens.eat(Want::Kind(Kind::CloseBracket)) {
            return Err(tokens.refusal());
        }
        return Ok(locals);
    }
    Ok(whole(Items::new(tokens.alloc())))
}

// ProcName "=" ["[" {Decl} "]"] ComSeq, and the rules between it and the next procedure.
#[cycle(declaration)]
#[tactic(auto, unfolding(crate::specs::Programs::procedure, crate::specs::Programs::procedure_group))]
fn read_group(tokens: &mut Tokens<'_, '_>, rooms: Rooms) -> Result<Ranged<Items<Decl>>, ReadError>
    ensures { Reads (reader_of (spec.procedure_group rooms.rules (spec.declarations rooms.rules rooms.locals)) tokens.old) result tokens.new }
{
    let name = read_name(tokens, Want::ProcedureName)?;
    if !tokens.eat(Want::Kind(Kind::Equal)) {
        return Err(tokens.refusal());
    }
    let locals = read_locals(tokens, rooms)?;
    let body = read_commands(tokens, rooms.rules)?;
    let rules = read_rules(tokens, rooms.rules)?;
    let procedure = Ranged {
        tree: Decl::Procedure {
            name,
            declarations: locals.tree,
            body,
        },
        past: locals.past,
    };
    procedure_first(tokens.alloc(), procedure, rules)
}

// {Decl}, inside so much room.
#[cycle(declaration)]
#[tactic(auto, unfolding(crate::specs::Programs::declarations_in))]
fn read_declarations_in(
    tokens: &mut Tokens<'_, '_>,
    rooms: Rooms,
) -> Result<Ranged<Items<Decl>>, ReadError>
    ensures { Reads (reader_of (spec.declarations_in rooms.rules (spec.declarations rooms.rules rooms.locals)) tokens.old) result tokens.new }
{
    let rules = read_rules(tokens, rooms.rules)?;
    let groups = repeated_by(tokens, Want::ProcedureName, rooms, read_group)?;
    let all = join(rules, groups)?;
    Ok(all)
}

#[cycle(declaration)]
#[tactic(auto, unfolding(crate::specs::Programs::declarations))]
fn read_declarations(
    tokens: &mut Tokens<'_, '_>,
    rooms: Rooms,
) -> Result<Ranged<Items<Decl>>, ReadError>
    ensures { Reads (reader_of (spec.declarations rooms.rules rooms.locals) tokens.old) result tokens.new }
{
    let Rooms { rules, locals } = rooms;
    if locals == 0 {
        return Err(tokens.refusal());
    }
    let inside = Rooms {
        rules,
        locals: locals - 1,
    };
    read_declarations_in(tokens, inside)
}

/// Program = {Decl}
#[tactic(auto, unfolding(crate::specs::Programs::program))]
pub(crate) fn read_ast(tokens: &mut Tokens<'_, '_>, room: u64) -> Result<Ranged<Ast>, ReadError>
    ensures { Reads (reader_of (spec.program room) tokens.old) result tokens.new }
{
    let rooms = Rooms {
        rules: room,
        locals: room,
    };
    let declarations = read_declarations_in(tokens, rooms)?;
    Ok(Ranged {
        tree: Ast {
            declarations: declarations.tree,
        },
        past: declarations.past,
    })
}
