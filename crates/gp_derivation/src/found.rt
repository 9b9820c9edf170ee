//! Matches by today's numbers.

ghost use Rattle.std.specs.Prelude.{◌≡◌, ◌<◌, ◌+◌, ◌^◌, length, count_by, is_none, IfOk};
ghost use Rattle.gp_syntax.specs.Rule.{kept_edges};
ghost use Rattle.gp_syntax.specs.Tree.{rule_of_tree};
ghost use Rattle.gp_step.specs.Halves.{images_from};
ghost use Rattle.gp_derivation.specs.inside.Table.{found_today};

use crate::table::EdgeTable;
use gp_memory::NoMemory;
use gp_syntax::{EdgeImage, Found, Rule};
use std::alloc::Global;

/// The match by today's numbers of its edges, where all of these are there.
pub(crate) fn found_today(
    alloc: Global,
    table: &EdgeTable,
    was: &Found,
) -> Result<Option<Found>, NoMemory>
    ensures { IfOk result (λ o. o ≡ found_today table.now.now was.now) }
{
    let mut found = Found::new(alloc, was.rule());
    for node in was.nodes() {
        found.push_node(*node)?;
    }
    for image in was.edges() {
        let Some(number) = table.today(image.number()) else {
            return Ok(None);
        };
        found.push_edge(EdgeImage::new(number, image.reversed()))?;
    }
    Ok(Some(found))
}

/// Today's numbers of the edges of the right side, where a step by the match makes those that it does not keep from the
/// next number on.
pub(crate) fn right_numbers(
    alloc: Global,
    rule: &Rule,
    found: &Found,
    next: u64,
) -> Result<Vec<u64>, NoMemory>
    requires edges { length found.now.edges ≡ length (rule_of_tree rule.now).left_edges }
    requires room { next + count_by is_none (kept_edges (rule_of_tree rule.now)) < 2 ^ 64 }
    ensures { IfOk result (λ v. v.items ≡ images_from found.now.edges (kept_edges (rule_of_tree rule.now)) next) }
{
    let parts = rule.parts();
    let images = found.edges();
    let mut numbers = Vec::new(alloc);
    let mut free = next;
    for edge in parts.right_edges.as_slice() {
        match parts.kept_edge(edge) {
            Some(place) => numbers.push(images[place as usize].number())?,
            None => {
                numbers.push(free)?;
                free += 1;
            }
        }
    }
    Ok(numbers)
}
