//! Cores of two shares, or one, over the rules of a program.

ghost use Rattle.std.specs.Prelude.{◌<◌};

use super::told_by;
use crate::tests::answers::Answer;
use gp_hostfile::read_host;
use gp_journal::Trail;
use gp_plan::plans_of;
use gp_reader::read_program;
use gp_system::{CallGoal, Gp};
use opt_core::Core;
use opt_system::Mode;
use std::alloc::Global;
use std::test::Fail;

pub(crate) const DEL: &str = "Main = del! del(x:list) [ (n0, x) | ] => [ | ] interface = {}";

const INC: &str = "Main = inc! inc(n:int) [ (n0, n) | ] => [ (n0, n+1) | ] interface = {n0}";

const BOTH: &str =
    "Main = {del, inc}! del(x:list) [ (n0, x) | ] => [ | ] interface = {} inc(n:int) [ (n0, n) | ] => [ (n0, n+1) | ] interface = {n0}";

const NONE: &str = "[ | ]";

pub(crate) const ONE: &str = "[ (a, 1) | ]";

const TWO: &str = "[ (a, 1) (b, 2) | ]";

const THREE: &str = "[ (a, 1) (b, 2) (c, 3) | ]";

const GREATEST: &str = "[ (a, 170141183460469231731687303715884105727) | ]";

type Row = (
    &'static str,
    &'static str,
    Mode,
    u64,
    &'static str,
    &'static str,
);

// The program and the host, the mode and the items of the goal; the events that are sent to its core, in which `1/0` is
// the match of rule 1 at node 0; and the answers, with the entries, the items and the ending that the core has then.
// Beside each row stand the clauses of `opt_core`'s `Answers` (specs/Steps) that give its answers.
const ON_RULES: [Row; 8] = [
    // a commit makes older reports stale: AnswersLook News, AnswersQuiet Noted, AnswersOffer Committed, AnswersQuiet and
    // AnswersOffer Stale, AnswersQuiet Closed (Blocked), AnswersWith Some; a Quiet that `MayCome` excludes
    (
        DEL,
        ONE,
        Mode::Saturate,
        10,
        "look 0 0, quiet 0 0, quiet 0 1, look 0 1, offer 0 0/0, offer 0 0/0, quiet 0 1, look 0 1, offer 1 0/0, quiet 1 0, quiet 1 1, look 1 0",
        "news [] 0, may not come, noted, news [] 0, committed 0, stale 1, stale 1, news [0/0] 1, may not come, noted, closed blocked, closed blocked, [0/0] 8 blocked",
    ),
    // a goal of one match ends with its commit: AnswersOffer Committed, with `left_after Once` and `ending_after Once` in
    // `with_entry`; AnswersWith Some
    (
        DEL,
        TWO,
        Mode::Once,
        5,
        "offer 0 0/0, offer 0 0/1",
        "committed 0, closed committed, [0/0] 4 committed",
    ),
    // a goal ends where no item is left: AnswersOffer Committed, with `ending_after Saturate` in `with_entry`; AnswersWith
    // Some
    (
        DEL,
        TWO,
        Mode::Saturate,
        1,
        "offer 0 0/0, look 0 0",
        "committed 0, closed bound, [0/0] 0 bound",
    ),
    // and commits nothing without one: AnswersOffer Closed (Bound)
    (
        DEL,
        TWO,
        Mode::Saturate,
        0,
        "offer 0 0/1",
        "closed bound, [] 0 bound",
    ),
    // a blocked goal needs no item: AnswersQuiet Noted, AnswersLook News, AnswersQuiet Closed (Blocked)
    (
        DEL,
        NONE,
        Mode::Saturate,
        0,
        "quiet 0 0, quiet 0 0, look 0 0, quiet 0 1",
        "noted, noted, news [] 1, closed blocked, [] 0 blocked",
    ),
    // a faulty match ends a goal: AnswersFault Closed; an Offer of it is excluded by `MayCome`
    (
        INC,
        GREATEST,
        Mode::Once,
        0,
        "offer 0 0/0, fault 0 0/0",
        "may not come, closed fault 0 PastBits, [] 0 fault 0 PastBits",
    ),
    // unless it is stale: AnswersOffer Committed, with `left_after Saturate` in `with_entry`; AnswersFault Stale
    (
        BOTH,
        GREATEST,
        Mode::Saturate,
        9,
        "offer 0 0/0, fault 0 1/0",
        "committed 0, stale 1, [0/0] 7 running",
    ),
    // a stopped goal stays stopped: AnswersStop; AnswersWith Some
    (
        DEL,
        ONE,
        Mode::Saturate,
        3,
        "stop, look 0 0, quiet 0 1",
        "closed stopped, closed stopped, closed stopped, [] 3 stopped",
    ),
];

// The same with one share. The sender of a batch was told of no entry: it has up to so many matches.
const BATCHES: [Row; 3] = [
    // a batch is committed whole: AnswersBatch, with `left_after Saturate` for each
    (
        DEL,
        THREE,
        Mode::Saturate,
        10,
        "batch 3",
        "batched 0 3, [0/0, 0/1, 0/2] 4 running",
    ),
    // up to where the items are spent
    (
        DEL,
        THREE,
        Mode::Saturate,
        3,
        "batch 3",
        "batched 0 2 closed bound, [0/0, 0/1] 0 bound",
    ),
    // or up to a match that does not apply any more
    (
        DEL,
        THREE,
        Mode::Saturate,
        10,
        "offer 0 0/1, batch 3",
        "committed 0, batched 1 1 stale 2, [0/1, 0/0] 6 running",
    ),
];

// What the events of a row are answered by a core of so many shares.
fn told_of_rules(alloc: Global, row: &Row, shares: u32) -> Result<Answer, Fail>
    requires { 0 < shares }
{
    let (program, host, mode, items, events, _) = *row;
    let goal = CallGoal { call: 0, mode };
    let base = Trail::new(alloc, read_host(alloc, host.as_bytes())?);
    let mut at = base.copy()?;
    let program = read_program(alloc, program.as_bytes())?;
    let plans = plans_of(alloc, program.parts().rules.as_slice())?;
    let system = Gp::new(alloc, &program, &plans, shares);
    match Core::start(alloc, &system, base.copy()?, goal, items) {
        Ok(core) => Ok(told_by(alloc, &system, core, &base, &mut at, events)),
        Err(_) => Err(Fail::new("no core was made")),
    }
}

#[test]
fn cores_over_rules_answer_each_event_as_their_senders_were_told(
    rt: HostRuntime,
) -> Result<(), Fail> {
    for row in &ON_RULES {
        told_of_rules(rt.alloc(), row, 2)?.expect(row.5)?;
    }
    for row in &BATCHES {
        told_of_rules(rt.alloc(), row, 1)?.expect(row.5)?;
    }
    Ok(())
}
