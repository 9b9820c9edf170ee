//! How deep tokens are nested.

ghost use Rattle.std.specs.Prelude.{◌≡◌, ◌<◌, ◌^◌};
ghost use Rattle.gp_program.specs.Depth.{FindsDepth, outside};
ghost use Rattle.gp_program.specs.inside.Deep.{GivesPlace, too_deep_from};
ghost use Rattle.gp_program.specs.Depth as spec;

use gp_memory::NoMemory;
use gp_tokens::{Keyword, Kind, Token};
use std::alloc::Global;

/// The greatest depth of a program text.
pub const DEEPEST: usize = 64;

/// What a token is to the depth.
#[derive(Clone, Copy)]
pub enum Role {
    Opening,
    Closing,
    Minus,
    Not,
    Other,
}

/// A run of equal tokens that ends here.
#[derive(Clone, Copy)]
pub struct Run {
    pub role: Role,
    pub len: usize,
}

#[tactic(auto, unfolding(crate::specs::Depth::role_of))]
fn role_of(token: &Token<'_>) -> Role
    ensures { result ≡ spec.role_of token.now }
{
    match token.kind {
        Kind::OpenParenthesis | Kind::OpenBracket | Kind::OpenBrace => Role::Opening,
        Kind::CloseParenthesis | Kind::CloseBracket | Kind::CloseBrace => Role::Closing,
        Kind::Minus => Role::Minus,
        _ if token.is_word(Keyword::Not) => Role::Not,
        _ => Role::Other,
    }
}

fn next_run(run: Run, role: Role) -> Run
    requires { run.len < 2 ^ 63 }
    ensures { result ≡ spec.next_run run role }
{
    match (role, run.role) {
        (Role::Minus, Role::Minus) | (Role::Not, Role::Not) => Run {
            role,
            len: run.len + 1,
        },
        (Role::Minus, _) | (Role::Not, _) => Run { role, len: 1 },
        _ => Run { role, len: 0 },
    }
}

/// The first token at which the depth is above 64, counted from 0. It takes memory for the brackets that are open.
pub fn first_too_deep(alloc: Global, tokens: &[Token<'_>]) -> Result<Option<u64>, NoMemory>
    ensures { FindsDepth tokens.now result }
{
    first_deep(alloc, tokens)
}

fn first_deep(alloc: Global, tokens: &[Token<'_>]) -> Result<Option<u64>, NoMemory>
    ensures { GivesPlace result (too_deep_from outside tokens.now) }
{
    let mut added = Vec::new(alloc);
    let mut count = 0usize;
    let mut run = Run {
        role: Role::Other,
        len: 0,
    };
    let mut at = 0usize;
    let mut rest = tokens;
    'each: while let [token, after @ ..] = rest {
        let role = role_of(token);
        let next = next_run(run, role);
        match role {
            Role::Opening => {
                added.push(1 + run.len)?;
                count += 1 + run.len;
            }
            Role::Closing => {
                if let Some(last) = added.pop() {
                    count -= last;
                }
            }
            _ => {}
        }
        if DEEPEST < count + next.len {
            return Ok(Some(at as u64));
        }
        run = next;
        at += 1;
        rest = after;
    }
    Ok(None)
}
