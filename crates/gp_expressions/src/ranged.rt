//! Trees, with the first numeral that is out of range.

ghost use Rattle.std.specs.Prelude.{◌≡◌, ◌∷◌, IfOk};
ghost use Rattle.gp_expressions.specs.Ranges as spec;

use gp_memory::NoMemory;
use gp_syntax::Items;
use std::alloc::Global;

/// A tree, and the offset of its first numeral that is out of range: 2 to the power of 127 without a minus. What stands in
/// the place of such a numeral means nothing.
#[derive(Drop)]
pub struct Ranged<T> {
    pub tree: T,
    pub past: Option<u64>,
}

/// A tree without numerals.
pub fn whole<T>(tree: T) -> Ranged<T>
    ensures { result ≡ spec.whole tree }
{
    Ranged { tree, past: None }
}

/// The list of trees.
#[tactic(auto, using(crate::proofs::Gathers::past_more), unfolding(crate::specs::Ranges::first_past))]
pub fn gather<T: Drop>(alloc: Global, parts: Vec<Ranged<T>>) -> Result<Ranged<Items<T>>, NoMemory>
    ensures { IfOk result (λ r. r ≡ spec.gathered parts.items) }
{
    let mut trees = Items::new(alloc);
    let mut past = None;
    for part in parts {
        let Ranged { tree, past: more } = part;
        trees.push(tree)?;
        past = past.or(more);
    }
    Ok(Ranged { tree: trees, past })
}

/// The lists one behind the other.
#[tactic(auto, using(crate::proofs::Gathers::past_behind, crate::proofs::Gathers::joined_more), unfolding(crate::specs::Ranges::first_past, crate::specs::Ranges::joined))]
pub fn join<T: Drop>(
    first: Ranged<Items<T>>,
    rest: Vec<Ranged<Items<T>>>,
) -> Result<Ranged<Items<T>>, NoMemory>
    ensures { IfOk result (λ r. r ≡ spec.all_joined (first ∷ rest.items)) }
{
    let Ranged { mut tree, mut past } = first;
    for part in rest {
        let Ranged {
            tree: more,
            past: next,
        } = part;
        tree.append(more)?;
        past = past.or(next);
    }
    Ok(Ranged { tree, past })
}
