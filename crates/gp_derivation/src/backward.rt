//! Back over an item.

ghost use Rattle.std.specs.Prelude.{◌≡◌, ◌<◌, ◌≤◌, ◌+◌, ◌-◌, Some, map, length, drop, slice_get, OnOk, OnErr};
ghost use Rattle.gp_syntax.specs.Rule.{Found as AnyFound};
ghost use Rattle.gp_syntax.specs.Run.{Stepped};
ghost use Rattle.gp_syntax.specs.Tree.{rule_of_tree};
ghost use Rattle.gp_journal.specs.Trail.{Trail as Shown};
ghost use Rattle.gp_journal.specs.Journal.{items_of};
ghost use Rattle.gp_derivation.specs.Stepper.{IsMoved};
ghost use Rattle.gp_derivation.specs.inside.Stands.{made_again, stacks_of, stacks_at, StepsOn, shown_at, Stands};

use crate::standing::{Standing, move_last};
use gp_journal::Trail;
use gp_memory::NoMemory;
use gp_syntax::{Found, Item, Rule};

// The match of an item that is a step.
fn found_of(items: &[Item], number: usize) -> &Found
    requires { (m : AnyFound) × (slice_get (items_of items.now) number ≡ Some (Stepped m)) }
    ensures { slice_get (items_of items.now) number ≡ Some (Stepped result.now) }
{
    match &items[number] {
        Item::Step(found) => found,
        Item::Turn => unreachable!(),
        Item::Back(_) => unreachable!(),
    }
}

// Makes the steps of the items of these numbers, in order. On refusal the trail is as before.
fn make_steps(
    trail: &mut Trail,
    rules: &[Rule],
    items: &[Item],
    numbers: &[usize],
) -> Result<(), NoMemory>
    requires { (t : Shown) × StepsOn (map rule_of_tree rules.now) (items_of items.now) numbers.now trail.old t }
    ensures ok { OnOk result ((t : Shown) → StepsOn (map rule_of_tree rules.now) (items_of items.now) numbers.now trail.old t → t ≡ trail.new) }
    ensures err { OnErr result (trail.new ≡ trail.old) }
{
    for (made, number) in numbers.iter().enumerate() {
        match trail.advance(rules, found_of(items, *number)) {
            Ok(()) => (),
            Err(refusal) => {
                trail.back(made as u64);
                return Err(refusal);
            }
        }
    }
    Ok(())
}

// Makes the steps again that were taken back last. On refusal the trail and the numbers are as before.
fn make_again(
    standing: &mut Standing,
    rules: &[Rule],
    items: &[Item],
    count: u64,
) -> Result<(), NoMemory>
    requires taken { count ≤ length standing.old.taken.items }
    requires steps { (t : Shown) × StepsOn (map rule_of_tree rules.now) (items_of items.now) (drop (length standing.old.taken.items - count) standing.old.taken.items) standing.old.trail t }
    ensures trail { OnOk result ((t : Shown) → StepsOn (map rule_of_tree rules.now) (items_of items.now) (drop (length standing.old.taken.items - count) standing.old.taken.items) standing.old.trail t → t ≡ standing.new.trail) }
    ensures stacks { OnOk result (stacks_of standing.new ≡ made_again count (stacks_of standing.old)) }
    ensures trail_stays { OnErr result (standing.new.trail ≡ standing.old.trail) }
    ensures stacks_stay { OnErr result (stacks_of standing.new ≡ stacks_of standing.old) }
{
    let at = standing.taken.len() - count as usize;
    make_steps(&mut standing.trail, rules, items, &standing.taken[at..])?;
    match move_last(&mut standing.taken, &mut standing.live, count as usize) {
        Ok(()) => Ok(()),
        Err(refusal) => {
            standing.trail.back(count);
            Err(refusal)
        }
    }
}

/// Takes back what the item at the place says, from behind it. On refusal the trail and the numbers are as before.
pub(crate) fn unmake(
    standing: &mut Standing,
    rules: &[Rule],
    items: &[Item],
    place: usize,
) -> Result<(), NoMemory>
    requires place { place < length items.now }
    requires stands { Stands (map rule_of_tree rules.now) items.now (place + 1) standing.old }
    ensures moved { OnOk result (IsMoved (map rule_of_tree rules.now) (shown_at items.now (place + 1) standing.old) (shown_at items.now place standing.new) place) }
    ensures stacks { OnOk result (stacks_of standing.new ≡ stacks_at (items_of items.now) place) }
    ensures trail_stays { OnErr result (standing.new.trail ≡ standing.old.trail) }
    ensures stacks_stay { OnErr result (stacks_of standing.new ≡ stacks_of standing.old) }
{
    match &items[place] {
        Item::Step(_) => {
            standing.trail.back(1);
            let _number = standing.live.pop();
            Ok(())
        }
        Item::Turn => Ok(()),
        Item::Back(count) => make_again(standing, rules, items, *count),
    }
}
