//! Which procedures reach themselves through calls, over the lists of what each procedure calls.

ghost use Rattle.std.specs.Prelude.{◌^◌, ◌≡◌, ℕ, ◌<◌, ◌≤◌, ◌↔◌, ◌+◌, true, false, length, Contains, IfOk, OnOk, MatchOption};
ghost use Rattle.gp_reader.specs.inside.Procedures.{Called, InRange, ReachesIn, IsFirstIn, IsMarked};
ghost use Rattle.gp_reader.specs.inside.Visits.{GoesDown, LeadsDown, unmarked, Visited};

use crate::components::components;
use gp_memory::NoMemory;
use gp_syntax::Items;
use std::alloc::Global;

/// The first of the suspected procedures that reaches itself.
pub(crate) fn first_recursive(
    alloc: Global,
    callees: &[Items<u32>],
    suspects: &[bool],
) -> Result<Option<u32>, NoMemory>
    requires range { InRange callees.now }
    requires few { length callees.now < 2 ^ 32 }
    requires suspects { length suspects.now ≡ length callees.now }
    requires all { (k : ℕ) → ReachesIn callees.now k k → IsMarked suspects.now k }
    ensures { IfOk result (λ o. MatchOption o ((k : ℕ) → ReachesIn callees.now k k → ⊥) (λ k. IsFirstIn (λ j. ReachesIn callees.now j j) k)) }
{
    let ranks = components(alloc, callees)?;
    let certified = goes_down(callees, &ranks);
    for k in 0..callees.len() {
        if may_recur(callees, suspects, &ranks, certified, k)
            && reaches_itself(alloc, callees, k)?
        {
            return Ok(Some(k as u32));
        }
    }
    Ok(None)
}

// Whether neither the suspicion nor the ranks rule out that the procedure reaches itself.
fn may_recur(
    callees: &[Items<u32>],
    suspects: &[bool],
    ranks: &[u64],
    certified: bool,
    k: usize,
) -> bool
    requires range { InRange callees.now }
    requires ranks { length ranks.now ≡ length callees.now }
    requires suspects { length suspects.now ≡ length callees.now }
    requires place { k < length callees.now }
    requires all { ReachesIn callees.now k k → IsMarked suspects.now k }
    requires certified { certified ≡ true → GoesDown callees.now ranks.now }
    ensures { result ≡ false → ReachesIn callees.now k k → ⊥ }
{
    if !suspects[k] {
        return false;
    }
    if !certified {
        return true;
    }
    !leads_down(callees, ranks, k)
}

// Whether no call goes to a procedure of a higher rank.
fn goes_down(callees: &[Items<u32>], ranks: &[u64]) -> bool
    requires range { InRange callees.now }
    requires ranks { length ranks.now ≡ length callees.now }
    ensures { result ≡ true → GoesDown callees.now ranks.now }
{
    for k in 0..callees.len() {
        for j in callees[k].as_slice() {
            if ranks[k] < ranks[*j as usize] {
                return false;
            }
        }
    }
    true
}

// Whether each call of the procedure goes to one of a lower rank.
fn leads_down(callees: &[Items<u32>], ranks: &[u64], k: usize) -> bool
    requires range { InRange callees.now }
    requires ranks { length ranks.now ≡ length callees.now }
    requires place { k < length callees.now }
    ensures { result ≡ true → LeadsDown callees.now ranks.now k }
{
    for j in callees[k].as_slice() {
        if ranks[k] <= ranks[*j as usize] {
            return false;
        }
    }
    true
}

// Whether the procedure reaches itself: all that it reaches are visited, each once.
fn reaches_itself(alloc: Global, callees: &[Items<u32>], from: usize) -> Result<bool, NoMemory>
    requires range { InRange callees.now }
    requires place { from < length callees.now }
    ensures { IfOk result (λ b. (b ≡ true) ↔ ReachesIn callees.now from from) }
{
    let mut seen = vec![in alloc; false; callees.len()]?;
    let mut left = Vec::new(alloc);
    visit(callees[from].as_slice(), &mut seen, &mut left)?;
    while let Some(next) = left.pop() {
        visit(callees[next as usize].as_slice(), &mut seen, &mut left)?;
    }
    Ok(seen[from])
}

// Marks those that are not seen yet, and puts them to those that are left.
fn visit(found: &[u32], seen: &mut Vec<bool>, left: &mut Vec<u32>) -> Result<(), NoMemory>
    requires { (k : ℕ) → Contains found.now k → k < length seen.old.items }
    ensures { OnOk result (Visited found.now seen.old.items seen.new.items left.old.items left.new.items) }
{
    for next in found {
        let place = *next as usize;
        if !seen[place] {
            seen[place] = true;
            left.push(*next)?;
        }
    }
    Ok(())
}
