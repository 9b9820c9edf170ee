//! Passes over cells: what a second pass learns of the first one's commit, and what a join of the two knows.

ghost use Rattle.std.specs.Prelude.{◌≡◌, IsTrue};
ghost use Rattle.opt_gate.specs.Pass.{IsPassOf, start_of};
ghost use Rattle.opt_gate.specs.Turn.{MayAsk};
ghost use Rattle.opt_cells.specs.Cells.{cells_means};

mod joined;
mod shared;

use super::answers::Answer;
use super::spelled::{put_core, put_founds, put_reply};
use super::starting::{opened, true_cells};
use joined::commit_and_join;
use opt_cells::{CellRow, Cells};
use opt_gate::sharing::{gate_may_be_shared, pass_may_be_taken};
use opt_gate::{Ask, Gate, Pass};
use opt_system::{Sought, System, Verdict};
use std::sync::Wait;
use std::test::Fail;

// Whether a pass may ask this that was told nothing: what holds of the row that the gate was started with.
fn may_ask(gate: &Gate<Cells>, pass: &Pass<Cells>, base: &CellRow, ask: &Ask<usize>) -> bool
    requires { base.now ≡ (start_of gate.now).base }
    ensures { IsTrue result → MayAsk cells_means (start_of gate.now) pass.now ask.now }
{
    let goal = gate.goal();
    pass.told() == 0
        && match ask {
            Ask::Look { from: _ } => true,
            Ask::Offer { found } => matches!(Cells.check(goal, base, found), Verdict::Applies),
            // Whether its matches are independent cannot be asked.
            Ask::Batch { founds: _ } => false,
            Ask::Fault { found } => matches!(Cells.check(goal, base, found), Verdict::Faulty(_)),
            Ask::Quiet { share } => {
                *share < Cells.shares(goal)
                    && matches!(Cells.seek(goal, *share, base), Sought::Barren)
            }
            Ask::Stop => true,
        }
}

// One turn of a pass that was told nothing, if it may ask this. The answer is told.
fn ask<R: Wait>(
    rt: &R,
    gate: &Gate<Cells>,
    pass: &mut Pass<Cells>,
    base: &CellRow,
    ask: Ask<usize>,
    told: &mut Answer,
)
    requires gate { IsPassOf gate.now pass.old }
    requires base { base.now ≡ (start_of gate.now).base }
    ensures gate { IsPassOf gate.now pass.new }
{
    if may_ask(gate, pass, base, &ask) {
        put_reply::<Cells>(&gate.turn(rt, pass, &Cells, ask), told);
    } else {
        told.put("may not be asked");
    }
    told.put(", ");
}

// What two passes of a gate are told: the first one makes its cell false.
fn tell_two<R: Wait>(
    rt: &R,
    gate: &Gate<Cells>,
    p: &mut Pass<Cells>,
    q: &mut Pass<Cells>,
    base: &CellRow,
    told: &mut Answer,
)
    requires p { IsPassOf gate.now p.old }
    requires q { IsPassOf gate.now q.old }
    requires base { base.now ≡ (start_of gate.now).base }
    ensures p { IsPassOf gate.now p.new }
    ensures q { IsPassOf gate.now q.new }
{
    ask(rt, gate, p, base, Ask::Look { from: 0 }, told);
    ask(rt, gate, p, base, Ask::Offer { found: 0 }, told);
    ask(rt, gate, q, base, Ask::Quiet { share: 1 }, told);
    ask(rt, gate, q, base, Ask::Look { from: 1 }, told);
}

// The number of a pass, its room, and the entries that it was told.
fn put_pass(pass: &Pass<Cells>, told: &mut Answer) {
    told.put_number(u64::from(pass.number()));
    told.put(" of room ");
    told.put_number(pass.room());
    told.put(" told ");
    told.put_number(pass.told());
    told.put(", ");
}

const SECOND: &str =
    "2 shares, 1 of room 1 told 0, news [] 0, committed 0, stale 1, news [0] 1, 0 of room 1 told 0, 1 of room 1 told 1, 0 of room 2 told 0, [0] 8 running";

#[test]
fn a_second_pass_learns_what_the_first_committed(rt: HostRuntime) -> Result<(), Fail> {
    let mut told = Answer::new(rt.alloc());
    let base = true_cells(rt.alloc(), 1)?;
    let (gate, mut p) = opened(rt.alloc(), 1, 10, 2)?;
    let mut q = p.split(&gate, 1);
    told.put_number(u64::from(gate.goal().shares));
    told.put(" shares, ");
    put_pass(&q, &mut told);
    tell_two(&rt, &gate, &mut p, &mut q, &base, &mut told);
    put_pass(&p, &mut told);
    put_pass(&q, &mut told);
    p.join(&gate, q);
    put_pass(&p, &mut told);
    put_core(gate.close(&rt, p), &mut told);
    told.expect(SECOND)
}

#[test]
fn a_joined_pass_knows_the_entry_and_has_its_commit(rt: HostRuntime) -> Result<(), Fail> {
    let (gate, mut p) = opened(rt.alloc(), 1, 10, 2)?;
    let q = p.split(&gate, 1);
    pass_may_be_taken(&q);
    gate_may_be_shared(&gate);
    let Some(p) = commit_and_join(&rt, &Cells, &gate, p, q, 0) else {
        return Err(Fail::new("nothing was committed"));
    };
    let mut told = Answer::new(rt.alloc());
    let (_, entries, _, _) = gate.close(&rt, p).into_parts();
    put_founds::<Cells>(entries.as_slice(), &mut told);
    told.expect("[0]")
}
