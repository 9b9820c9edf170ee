//! Two threads, each with a pass of one gate.

ghost use Rattle.std.specs.Prelude.{◌≡◌};
ghost use Rattle.opt_gate.specs.Pass.{IsPassOf, start_of};

use super::may_ask;
use crate::tests::answers::Answer;
use crate::tests::spelled::word_of;
use crate::tests::starting::{opened, true_cells};
use gp_memory::NoMemory;
use opt_cells::{CellRow, Cells};
use opt_core::Reply;
use opt_gate::{Ask, Gate, Pass};
use std::alloc::Global;
use std::sync::Wait;
use std::test::Fail;
use std::thread;
use std::thread::Threads;

// Offers every second place of a row of eight, from this one on, again and again until the goal has ended. The entries that
// they became, each as a bit, and whether it has ended.
fn offer_half<R: Wait>(
    rt: &R,
    gate: &Gate<Cells>,
    mut pass: Pass<Cells>,
    base: &CellRow,
    first: usize,
) -> (Pass<Cells>, u64, bool)
    requires gate { IsPassOf gate.now pass }
    requires base { base.now ≡ (start_of gate.now).base }
    ensures { IsPassOf gate.now result.0 }
{
    let mut entries = 0;
    for turn in 0..1_000_000_000usize {
        let found = first.wrapping_add(turn % 4).wrapping_add(turn % 4);
        let ask = Ask::Offer { found };
        if may_ask(gate, &pass, base, &ask) {
            match gate.turn(rt, &mut pass, &Cells, ask) {
                Reply::Committed(entry) => entries |= 1u64.wrapping_shl((entry % 64) as u32),
                Reply::Closed(_) => return (pass, entries, true),
                _ => {}
            }
        }
    }
    (pass, entries, false)
}

// What two threads leave of eight cells, each of which offers those of its share until the goal has ended, with items for
// eight commits and seven turns: whether each became another entry, and how the goal ends.
fn told_of_two<R: Threads + Wait + Sync>(rt: &R, alloc: Global) -> Result<Answer, NoMemory> {
    let mut told = Answer::new(alloc);
    let base = true_cells(alloc, 8)?;
    let (gate, mut p) = opened(alloc, 8, 15, 3)?;
    let mut zero = p.split(&gate, 1);
    let one = p.split(&gate, 1);
    let (door, row) = (&gate, &base);
    let ((zero, even, first), (one, odd, second)) = thread::join(
        rt,
        move || offer_half(rt, door, zero, row, 0),
        move || offer_half(rt, door, one, row, 1),
    );
    if even & odd == 0 && even | odd == 255 {
        told.put("0 to 7 once each, ");
    }
    if first && second {
        told.put("closed to both, ");
    }
    p.join(&gate, zero);
    p.join(&gate, one);
    let (_, entries, left, ending) = gate.close(rt, p).into_parts();
    told.put_number(entries.len() as u64);
    told.put(" in all, ");
    told.put_number(left);
    told.put(" left, ");
    told.put(word_of(ending.as_ref()));
    Ok(told)
}

#[test]
fn two_threads_commit_the_places_of_their_shares(rt: HostRuntime) -> Result<(), Fail> {
    told_of_two(&rt, rt.alloc())?.expect(
        "0 to 7 once each, closed to both, 8 in all, 0 left, bound",
    )
}
