//! Crews: workers that search at the same time, and turns that commit what they hold.

use crate::tests::answers::{Answer, expect};
use crate::tests::calls::{Call, told_of};
use opt_worker::{Commits, Held, Pacing};
use std::alloc::AllocGlobal;
use std::sync::Wait;
use std::test::Fail;
use std::thread::Threads;

const DELETE: &str = "Main = del! del(x:list) [ (n0, x) | ] => [ | ] interface = {}";

const SECOND_FIRST: &str = "0 out
gp2-trace 2
turn
step 0 nodes 1 edges
turn
step 0 nodes 0 edges
turn
back 0
end
[
|
]";

const FIRST_FIRST: &str = "0 out
gp2-trace 2
turn
step 0 nodes 0 edges
turn
step 0 nodes 1 edges
turn
back 0
end
[
|
]";

// What deleting two nodes shows with this crew, and with a bound and the journal: which was deleted first.
fn put_first<R: AllocGlobal + Threads + Wait + Sync>(
    rt: &R,
    crew: &str,
    pace: &Pacing,
    told: &mut Answer,
) {
    let words = ("run p h --bound 5 --journal", crew);
    let shown = told_of(rt, &Call::new(DELETE, "[ (a, 1) (b, 2) | ]", words), pace);
    if shown.is_line(SECOND_FIRST) {
        told.word("second");
    } else if shown.is_line(FIRST_FIRST) {
        told.word("first");
    } else {
        told.word("neither");
    }
}

// The same of two workers that are held for so many looks: and whether they met, or no search was heard of.
fn held<R: AllocGlobal + Threads + Wait + Sync>(rt: &R, crew: &str, looks: u64) -> Answer {
    let mut told = Answer::new(rt.alloc());
    let pace = Pacing::Held(Held::new(looks));
    put_first(rt, crew, &pace, &mut told);
    if let Some(held) = pace.held() {
        if held.met() {
            told.word("met");
        }
        if held.is_untold() {
            told.word("untold");
        }
    }
    told
}

#[test]
fn two_workers_search_at_the_same_time(rt: HostRuntime) -> Result<(), Fail> {
    let told = held(&rt, "--workers 2 --fan 1", 1_000_000_000);
    expect(told.is("second met"), "two workers")
}

// The run's own search begins at the first node, and no pace hears of it.
#[test]
fn few_candidates_and_one_worker_need_no_crew(rt: HostRuntime) -> Result<(), Fail> {
    for crew in &["--workers 2 --fan 3", "--workers 1 --fan 1"] {
        expect(held(&rt, crew, 1000).is("first untold"), crew)?;
    }
    Ok(())
}

const EIGHT: &str = "[ (a, 1) (b, 2) (c, 3) (d, 4) (e, 5) (f, 6) (g, 7) (h, 8) | ]";

// How many turns of two workers that delete eight nodes committed, and whether the nodes are gone.
fn put_commits<R: AllocGlobal + Threads + Wait + Sync>(rt: &R, batch: &str, told: &mut Answer) {
    let pace = Pacing::Counted(Commits::new());
    let words = ("run p h --workers 2 --fan 1 --bound 100", batch);
    let shown = told_of(rt, &Call::new(DELETE, EIGHT, words), &pace);
    told.number(pace.commits().unwrap_or(0));
    if shown.is("0 out\n[\n|\n]\n") {
        told.word("gone");
    }
}

#[test]
fn a_turn_commits_what_a_worker_holds_of_its_share(rt: HostRuntime) -> Result<(), Fail> {
    for (batch, wanted) in &[("--batch 8", "2 gone"), ("--batch 1", "8 gone")] {
        let mut told = Answer::new(rt.alloc());
        put_commits(&rt, batch, &mut told);
        expect(told.is(wanted), batch)?;
    }
    Ok(())
}
