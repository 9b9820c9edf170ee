//! Forward over an item.

ghost use Rattle.std.specs.Prelude.{◌≡◌, ◌<◌, ◌≤◌, ◌+◌, Some, map, length, OnOk, OnErr};
ghost use Rattle.gp_syntax.specs.Run.{Stepped};
ghost use Rattle.gp_syntax.specs.Tree.{rule_of_tree};
ghost use Rattle.gp_journal.specs.Trail.{back_by};
ghost use Rattle.gp_journal.specs.Leads.{AppliesBy};
ghost use Rattle.gp_journal.specs.Journal.{items_of};
ghost use Rattle.gp_derivation.specs.Stepper.{IsMoved};
ghost use Rattle.gp_derivation.specs.inside.Stands.{taken_back, stacks_after, stacks_of, stacks_at, GoesOnly, shown_at, Stands};

use crate::standing::{Standing, move_last};
use gp_memory::NoMemory;
use gp_syntax::{Found, Item, Rule};

// Makes the step of a match that applies, by the item of this number. On refusal the trail and the numbers are as before.
fn step(
    standing: &mut Standing,
    rules: &[Rule],
    found: &Found,
    number: usize,
) -> Result<(), NoMemory>
    requires { AppliesBy (map rule_of_tree rules.now) standing.old.trail.graph found.now }
    ensures goes { OnOk result (GoesOnly (map rule_of_tree rules.now) (Stepped found.now) standing.old.trail standing.new.trail) }
    ensures stacks { OnOk result (stacks_of standing.new ≡ stacks_after number (Some (Stepped found.now)) (stacks_of standing.old)) }
    ensures trail_stays { OnErr result (standing.new.trail ≡ standing.old.trail) }
    ensures stacks_stay { OnErr result (stacks_of standing.new ≡ stacks_of standing.old) }
{
    standing.live.push(number)?;
    match standing.trail.advance(rules, found) {
        Ok(()) => Ok(()),
        Err(refusal) => {
            let _number = standing.live.pop();
            Err(refusal)
        }
    }
}

// Takes back the last live steps. On refusal the trail and the numbers are as before.
fn take_back(standing: &mut Standing, count: u64) -> Result<(), NoMemory>
    requires trail { count ≤ length standing.old.trail.before }
    requires live { count ≤ length standing.old.live.items }
    ensures trail { OnOk result (standing.new.trail ≡ back_by count standing.old.trail) }
    ensures stacks { OnOk result (stacks_of standing.new ≡ taken_back count (stacks_of standing.old)) }
    ensures trail_stays { OnErr result (standing.new.trail ≡ standing.old.trail) }
    ensures stacks_stay { OnErr result (stacks_of standing.new ≡ stacks_of standing.old) }
{
    move_last(&mut standing.live, &mut standing.taken, count as usize)?;
    standing.trail.back(count);
    Ok(())
}

/// Makes what the item at the place says. On refusal the trail and the numbers are as before.
pub(crate) fn make(
    standing: &mut Standing,
    rules: &[Rule],
    items: &[Item],
    place: usize,
) -> Result<(), NoMemory>
    requires place { place < length items.now }
    requires stands { Stands (map rule_of_tree rules.now) items.now place standing.old }
    ensures moved { OnOk result (IsMoved (map rule_of_tree rules.now) (shown_at items.now place standing.old) (shown_at items.now (place + 1) standing.new) (place + 1)) }
    ensures stacks { OnOk result (stacks_of standing.new ≡ stacks_at (items_of items.now) (place + 1)) }
    ensures trail_stays { OnErr result (standing.new.trail ≡ standing.old.trail) }
    ensures stacks_stay { OnErr result (stacks_of standing.new ≡ stacks_of standing.old) }
{
    match &items[place] {
        Item::Step(found) => step(standing, rules, found, place),
        Item::Turn => Ok(()),
        Item::Back(count) => take_back(standing, *count),
    }
}
