//! Chains of trees, which are the first tree and the further ones; one tree is no chain.

ghost use Rattle.std.specs.Prelude.{◌≡◌, MatchResult};
ghost use Rattle.gp_expressions.specs.inside.Chains as spec;

use crate::ranged::{Ranged, gather};
use gp_syntax::{Boxed, Items};
use gp_tokens::ReadError;
use std::alloc::Global;

/// What a chain is made of: its first tree, and the further ones.
#[derive(Drop)]
pub(crate) enum Links<T, R> {
    Nothing,
    One(T),
    More(Boxed<T>, Items<R>),
}

/// What a chain of these trees is made of.
pub(crate) fn linked<T: Drop>(
    alloc: Global,
    parts: Vec<Ranged<T>>,
) -> Result<Ranged<Links<T, T>>, ReadError>
    ensures { MatchResult result (λ x. x ≡ spec.linked parts.items) (λ e. e ≡ ReadError.NoMemory) }
{
    let Ranged { mut tree, past } = gather(alloc, parts)?;
    if tree.is_empty() {
        let tree = Links::Nothing;
        return Ok(Ranged { tree, past });
    }
    let first = tree.remove(0);
    if tree.is_empty() {
        let tree = Links::One(first);
        return Ok(Ranged { tree, past });
    }
    let tree = Links::More(Boxed::new(alloc, first)?, tree);
    Ok(Ranged { tree, past })
}
