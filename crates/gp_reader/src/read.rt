//! Program texts.

ghost use Rattle.std.specs.Prelude.{◌≡◌};
ghost use Rattle.gp_reader.specs.Program.{ReadsProgram, ReadsRules, ReadsTree};
ghost use Rattle.gp_reader.specs.inside.Stages.{IsParsed, ReadsScoped, with_line};

use crate::fault::ProgramFault;
use crate::resolving::resolve;
use crate::rules::checked_rules;
use crate::scoped::Scoped;
use gp_program::{ParseFault, parse_program};
use gp_syntax::{Ast, Items, Program, Rule};
use gp_tokens::{Token, lex, line_of_token};
use std::alloc::Global;

/// The program of a text. Any other text is answered with its first fault.
pub fn read_program(alloc: Global, bytes: &[u8]) -> Result<Program, ProgramFault>
    ensures { ReadsProgram bytes.now result }
{
    let scoped = scoped_text(alloc, bytes)?;
    let rules = checked_rules(alloc, scoped.rules())?;
    Ok(scoped.finish(rules))
}

/// The rules of a program's text, in its order, without its commands.
pub fn read_rules(alloc: Global, bytes: &[u8]) -> Result<Items<Rule>, ProgramFault>
    ensures { ReadsRules bytes.now result }
{
    let scoped = scoped_text(alloc, bytes)?;
    checked_rules(alloc, scoped.rules())
}

/// The tree of a text, whatever its names mean. A text that has none is answered with its first fault. Its tokens are
/// let go.
pub fn read_tree(alloc: Global, bytes: &[u8]) -> Result<Ast, ProgramFault>
    ensures { ReadsTree bytes.now result }
{
    let tokens = lex(alloc, bytes)?;
    tree_of_tokens(alloc, bytes, &tokens)
}

// A text without a fault of names or calls, or one before.
fn scoped_text(alloc: Global, bytes: &[u8]) -> Result<Scoped, ProgramFault>
    ensures { ReadsScoped bytes.now result }
{
    let tree = read_tree(alloc, bytes)?;
    Ok(resolve(alloc, tree)?)
}

// The tree of the tokens of a text.
fn tree_of_tokens(alloc: Global, bytes: &[u8], tokens: &[Token<'_>]) -> Result<Ast, ProgramFault>
    ensures { IsParsed bytes.now tokens.now result }
{
    match parse_program(alloc, tokens) {
        Ok(tree) => Ok(tree),
        Err(fault) => Err(fault_of_text(bytes, tokens, fault)),
    }
}

// The fault of a text by that of its tokens: with a line in place of a token's number.
fn fault_of_text(bytes: &[u8], tokens: &[Token<'_>], fault: ParseFault) -> ProgramFault
    ensures { result ≡ with_line bytes.now tokens.now fault }
{
    match fault {
        ParseFault::TooDeep(place) => {
            let line = line_of_token(bytes, tokens, place);
            ProgramFault::TooDeep { line }
        }
        ParseFault::Syntax(place) => {
            let line = line_of_token(bytes, tokens, place);
            ProgramFault::Syntax { line }
        }
        ParseFault::NumberRange(place) => {
            let line = line_of_token(bytes, tokens, place);
            ProgramFault::NumberRange { line }
        }
        ParseFault::NoMemory => ProgramFault::NoMemory,
    }
}
