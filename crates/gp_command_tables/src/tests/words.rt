//! Words that are a command, with what it is, and words that are none.

use crate::tests::answers::{Answer, expect};
use crate::tests::calls::words_of;
use gp_gen::Kind;
use gp_memory::NoMemory;
use gp_words::{CheckCommand, Command, DemoCommand, RunCommand, StepCommand, command_of};
use std::alloc::Global;
use std::test::Fail;

// Words, and the parts of their command: its names, and then its numbers, where a run has its workers, its bound, its fan,
// its seed, 1 for the journal, and its batch, a demo its size, its seed, its workers, its fan and its batch, a check and a
// format none, and a step its bound and its seed.
const COMMANDS: &str = "run p h => p h 1 1000000 64 0 0 1
run p h --bound 10 => p h 1 10 64 0 0 1
run --bound=007 p h => p h 1 7 64 0 0 1
run p --seed 18446744073709551615 h --journal => p h 1 1000000 64 18446744073709551615 1 1
run --journal --bound 1099511627776 p h => p h 1 1099511627776 64 0 1 1
run -- -p --h => -p --h 1 1000000 64 0 0 1
run  h =>  h 1 1000000 64 0 0 1
run - h => - h 1 1000000 64 0 0 1
run p h --workers 64 => p h 64 1000000 64 0 0 1
run --fan 4294967295 p --workers=001 h => p h 1 1000000 4294967295 0 0 1
run p h --fan 1 => p h 1 1000000 1 0 0 1
run p h --batch 64 --workers 2 => p h 2 1000000 64 0 0 64
demo closure 3 1 => closure 3 1 1 64 1
demo colour 500 007 => colour 500 7 1 64 1
demo tree 18 0 => tree 18 0 1 64 1
demo closure 1 7 --workers 4 --fan 1 => closure 1 7 4 1 1
demo --fan 2 --workers 3 tree 1 9 => tree 1 9 3 2 1
demo tree 1 9 --batch 8 => tree 1 9 1 64 8
demo closure 500 18446744073709551615 => closure 500 18446744073709551615 1 64 1
check p h t r => p h t r
check -- -p --h t -r => -p --h t -r
check p  t r => p  t r
fmt p => p
fmt -- -p => -p
step p h s => p h s 1000000 0
step --seed 7 p h --bound 5 s => p h s 5 7
step -- -p --h s => -p --h s 1000000 0";

// Words that are no command, a line each; the first line has none.
const OTHER_WORDS: &str = "
run
run p
run p h x
walk p h
p h
run p h --bound
run p h --bound 1099511627777
run p h --bound +1
run p h --bound 1 --bound 2
run p h --seed 18446744073709551616
run p h --seed=
run p h --journal=true
run p h --workers 0
run p h --workers 65
run p h --workers +2
run p h --fan 0
run p h --fan 4294967296
run p h --batch 0
run p h --batch 65
demo
demo closure 3
demo closure 3 1 2
demo tree 19 0
demo colour 0 1
demo cube 1 1
demo Tree 1 1
demo closure 501 0
demo closure 3 18446744073709551616
demo closure 3 1 --journal
demo closure 3 1 --bound 5
demo closure 3 1 --workers 0
demo closure 3 1 --batch 65
check
check p h t
check p h t r x
check p h t r --journal
check p h t r --workers 2
fmt
fmt p h
fmt p --seed 1
step p h
step p h s x
step p h s --journal
step p h s --workers 2
step p h s --batch 2
step p h s --bound 1099511627777
--help
help";

// Tells the parts of a run.
fn put_run(c: &RunCommand<'_>, told: &mut Answer) {
    told.put(c.program.as_bytes());
    told.put(b" ");
    told.put(c.host.as_bytes());
    told.numbers(&[
        u64::from(c.crew.workers),
        c.bound,
        u64::from(c.crew.fan),
        c.seed,
        u64::from(c.journal),
        u64::from(c.crew.batch),
    ]);
}

// Tells the parts of a demo.
fn put_demo(c: &DemoCommand, told: &mut Answer) {
    told.word(match c.kind {
        Kind::Closure => "closure",
        Kind::Colour => "colour",
        Kind::Tree => "tree",
    });
    told.numbers(&[
        c.size,
        c.seed,
        u64::from(c.crew.workers),
        u64::from(c.crew.fan),
        u64::from(c.crew.batch),
    ]);
}

// Tells the names of a check.
fn put_check(c: &CheckCommand<'_>, told: &mut Answer) {
    told.put(c.program.as_bytes());
    for name in &[c.host, c.trace, c.result] {
        told.put(b" ");
        told.put(name.as_bytes());
    }
}

// Tells the parts of a step.
fn put_step(c: &StepCommand<'_>, told: &mut Answer) {
    told.put(c.program.as_bytes());
    for name in &[c.host, c.script] {
        told.put(b" ");
        told.put(name.as_bytes());
    }
    told.numbers(&[c.bound, c.seed]);
}

// What the command of a line of words is.
fn told_of(alloc: Global, line: &str) -> Result<Answer, NoMemory> {
    let mut told = Answer::new(alloc);
    let words = words_of(alloc, (line, ""))?;
    match command_of(alloc, &words)? {
        Some(Command::Run(command)) => put_run(&command, &mut told),
        Some(Command::Demo(command)) => put_demo(&command, &mut told),
        Some(Command::Check(command)) => put_check(&command, &mut told),
        Some(Command::Fmt(command)) => told.put(command.program.as_bytes()),
        Some(Command::Step(command)) => put_step(&command, &mut told),
        None => told.word("none"),
    }
    Ok(told)
}

// Fails with the row unless the command of the words is this.
fn expect_command(alloc: Global, words: &str, command: &str, row: &str) -> Result<(), Fail> {
    expect(told_of(alloc, words)?.is(command), row)
}

#[test]
fn options_stand_in_any_order(rt: HostRuntime) -> Result<(), Fail> {
    for row in COMMANDS.split('\n') {
        let (words, command) = row.split_once(" => ").unwrap_or((row, ""));
        expect_command(rt.alloc(), words, command, row)?;
    }
    Ok(())
}

#[test]
fn other_words_are_no_command(rt: HostRuntime) -> Result<(), Fail> {
    for words in OTHER_WORDS.split('\n') {
        expect_command(rt.alloc(), words, "none", words)?;
    }
    Ok(())
}
