//! Cuts a text into tokens.

ghost use Rattle.std.specs.Prelude.{◌≡◌, ◌≢◌, All, IfErr, IfOk};
ghost use Rattle.gp_tokens.specs.Cut.{IsCutOf, IsFaultOf, IsInRange};
ghost use Rattle.gp_tokens.specs.Lexed.{Gives, tokens_of};

use crate::cutter::Cutter;
use crate::fault::LexFault;
use crate::token::Token;
use std::alloc::Global;

/// The tokens of the text, each a slice of it, or the first fault that is met from the front.
pub fn lex<'t>(alloc: Global, text: &'t [u8]) -> Result<Vec<Token<'t>>, LexFault>
    ensures gives { Gives (λ v. v.items) result (tokens_of text.now) }
    ensures cut { IfOk result (λ tokens. IsCutOf text.now tokens.items) }
    ensures first_fault { IfErr result (λ e. e ≢ LexFault.NoMemory → IsFaultOf text.now e) }
    ensures numbers { IfOk result (λ tokens. All IsInRange tokens.items) }
{
    let mut left = Cutter::new(alloc, text)?;
    let mut tokens = Vec::with_capacity(alloc, left.count())?;
    'each: while let Some(token) = left.step() {
        tokens.push(token)?;
    }
    Ok(tokens)
}
