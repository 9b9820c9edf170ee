//! Reads and writes that fail, and memory that is refused for the words.

use crate::tests::answers::{Answer, expect, number_at, part_at};
use crate::tests::calls::{Call, put_shown, told_of};
use opt_worker::Pacing;
use std::alloc::AllocGlobal;
use std::sync::Wait;
use std::test::Fail;
use std::thread::Threads;

const MAKE: &str = "Main = make make() [ | ] => [ (n0, 0) | ] interface = {}";

const MADE: &[u8; 16] = b"[\n  (n0, 0)\n|\n]\n";

// After how many bytes the first write on out fails, after how many the one on err, and which read fails; the words; and
// the answer.
const FAILING: &str = "- - -
% run q h
% 8 err
read: q

- - -
% run p q
% 8 err
read: q

- - 0
% run p h
% 8 err
read: p

- - 1
% run p h
% 8 err
read: h

- 5 0
% run p h
% 9 err
read:

- 3 -
% run p
% 9 err
usa

- 3 -
% 
% 9 err
usa

4 - -
% demo closure 3 1
% 9 out
kind";

// The call of these words where the first writes on out and err, and a read, fail so.
fn failing<'a>(
    words: Option<(&'a str, &'a str)>,
    out: Option<u64>,
    err: Option<u64>,
    read: Option<u64>,
) -> Call<'a> {
    Call {
        program: MAKE.as_bytes(),
        host: "[ | ]",
        words,
        read,
        out,
        write: 0,
        err,
    }
}

// Fails with the row unless its words come to its answer.
fn check_row<R: AllocGlobal + Threads + Wait + Sync>(rt: &R, row: &str) -> Result<(), Fail> {
    let marks = part_at(row, 0);
    let call = failing(
        Some((part_at(row, 1), "")),
        number_at(marks, 0),
        number_at(marks, 1),
        number_at(marks, 2),
    );
    expect(told_of(rt, &call, &Pacing::Free).is(part_at(row, 2)), row)
}

#[test]
fn failing_devices_have_their_answers(rt: HostRuntime) -> Result<(), Fail> {
    for row in FAILING.split("\n\n") {
        check_row(&rt, row)?;
    }
    Ok(())
}

#[test]
fn each_beginning_of_a_program_is_refused(rt: HostRuntime) -> Result<(), Fail> {
    for count in 0..MAKE.len() {
        let mut call = failing(Some(("run p h", "")), None, None, None);
        call.program = &MAKE.as_bytes()[..count];
        let told = told_of(&rt, &call, &Pacing::Free);
        expect(told.text().starts_with(b"3 err\nprogram: "), "a beginning")?;
    }
    Ok(())
}

#[test]
fn a_graph_is_cut_at_any_byte(rt: HostRuntime) -> Result<(), Fail> {
    for count in 0..16 {
        let call = failing(Some(("run p h", "")), Some(count as u64), None, None);
        let mut wanted = Answer::new(rt.alloc());
        put_shown(9, &MADE[..count], b"", &mut wanted);
        let told = told_of(&rt, &call, &Pacing::Free);
        expect(told.text() == wanted.text(), "a cut")?;
    }
    Ok(())
}

const CLOSURE: &str = "Main = link!
link(a, b, x, y, z:list) [ (n0, x) (n1, y) (n2, z) | (e0, n0, n1, a) (e1, n1, n2, b) ] => [ (n0, x) (n1, y) (n2, z) | (e0, n0, n1, a) (e1, n1, n2, b) (e2, n0, n2, empty) ] interface = {n0, n1, n2} where not edge(n0, n2)";

const PATH: &str = "[ (a, empty) (b, empty) (c, empty) | (e0, a, b, empty) (e1, b, c, empty) ]";

const ITS_JOURNAL: &[u8] = b"gp2-trace 2
turn
step 0 nodes 0 1 2 edges 0 1
turn
back 0
end
";

// What out has where the write behind the journal fails after so many bytes.
const CUT_BEHIND: [(u64, &[u8]); 2] = [(0, b""), (3, b"[\n ")];

#[test]
fn the_journal_stands_whole_where_the_graph_behind_it_is_not_written(
    rt: HostRuntime,
) -> Result<(), Fail> {
    for row in &CUT_BEHIND {
        let mut call = Call::new(CLOSURE, PATH, ("run p h --journal", ""));
        call.write = 1;
        call.out = Some(row.0);
        let mut wanted = Answer::new(rt.alloc());
        put_shown(9, ITS_JOURNAL, b"", &mut wanted);
        wanted.put(row.1);
        let told = told_of(&rt, &call, &Pacing::Free);
        expect(told.text() == wanted.text(), "the second write")?;
    }
    Ok(())
}

#[test]
fn words_without_memory_end_in_silence(rt: HostRuntime) -> Result<(), Fail> {
    let told = told_of(&rt, &failing(None, None, None, None), &Pacing::Free);
    expect(told.is("7"), "silence")
}
