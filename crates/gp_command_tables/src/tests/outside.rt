//! What the outside gives, in memory and for real.

mod breaking;

use crate::tests::answers::{Answer, expect, number_at, word_at};
use crate::tests::calls::{sink, two_files};
use gp_io::{DiskFiles, Files, ReadRefusal, Sink, StdSink};
use std::alloc::Global;
use std::io::{self, Write};
use std::rt;
use std::test::Fail;

// A file in memory, a limit, what its read gives, and how many reads failed so far. The read of number 4 fails.
const HELD: &str = "p 3 TooLong 0
p 4 four 0
h 4 host 0
q 4 Failed 0
p 4 Failed 1
p 4 four 1";

// The same of files of the system. The text ends in a newline.
const OF_SYSTEM: &str = "/proc/sys/kernel/ostype 6 Linux 0
/proc/sys/kernel/ostype 5 TooLong 0
/dev/zero 200000 TooLong 0
/proc/no-such-file 9 Failed 1
/proc 9 Failed 2";

fn name_of(refusal: ReadRefusal) -> &'static [u8] {
    match refusal {
        ReadRefusal::Failed => b"Failed",
        ReadRefusal::TooLong => b"TooLong",
        ReadRefusal::NoMemory => b"NoMemory",
    }
}

// Tells what the read of the row's name within its limit gives.
fn told_of_read<F: Files>(alloc: Global, files: &mut F, row: &str) -> Answer {
    let mut told = Answer::new(alloc);
    match files.read(alloc, word_at(row, 0), number_at(row, 1).unwrap_or(0)) {
        Ok(bytes) => told.put(&bytes),
        Err(refusal) => told.put(name_of(refusal)),
    }
    told
}

// Whether the row says what was read, and how many reads failed.
fn is_right(told: &Answer, faults: u64, row: &str) -> bool {
    told.is(word_at(row, 2)) && number_at(row, 3) == Some(faults)
}

#[test]
fn files_in_memory_answer_by_name_limit_and_call(rt: HostRuntime) -> Result<(), Fail> {
    let mut files = two_files(rt.alloc(), b"four", "host", Some(4));
    for row in HELD.split('\n') {
        let told = told_of_read(rt.alloc(), &mut files, row);
        if !is_right(&told, files.faults(), row) {
            return Err(Fail::new(row));
        }
    }
    Ok(())
}

// Reads each file of the table from these of a system.
fn check_system<R: rt::Files + Drop>(runtime: R, alloc: Global, table: &str) -> Result<(), Fail> {
    let mut files = DiskFiles::new(runtime);
    for row in table.split('\n') {
        let told = told_of_read(alloc, &mut files, row);
        if !is_right(&told, files.faults(), row) {
            return Err(Fail::new(row));
        }
    }
    Ok(())
}

#[test]
fn files_of_the_system_are_read_whole_within_the_limit(rt: HostRuntime) -> Result<(), Fail> {
    check_system(&rt, rt.alloc(), OF_SYSTEM)
}

// The room of a sink, the write that fails and how many bytes that one lets out; whether `abc` and then `de` are taken, how
// many writes failed, how long the pieces are that went out, and what was written.
const SUNK: &str = "8 - - : 1 1 0 3 2 abcde
4 - - : 1 0 1 3 1 abcd
8 0 2 : 0 1 1 2 2 abde
8 1 0 : 1 0 1 3 abc
8 0 9 : 0 1 1 3 2 abcde
1 0 2 : 0 0 2 1 a";

// Tells whether a sink takes the two pieces, how many writes failed, how long the pieces are, and what was written.
fn told_of_sink(alloc: Global, row: &str) -> Answer {
    let mut told = Answer::new(alloc);
    let room = number_at(row, 0).unwrap_or(0);
    let call = number_at(row, 1).unwrap_or(0);
    if let Ok(mut sink) = sink(alloc, room, call, number_at(row, 2)) {
        told.number(u64::from(sink.write(b"abc").is_ok()));
        told.number(u64::from(sink.write(b"de").is_ok()));
        told.number(sink.faults());
        told.numbers(sink.lengths());
        told.put(b" ");
        told.put(sink.bytes());
    }
    told
}

#[test]
fn a_sink_in_memory_takes_what_fits_and_what_a_failing_call_lets_out(
    rt: HostRuntime,
) -> Result<(), Fail> {
    for row in SUNK.split('\n') {
        let (given, wanted) = row.split_once(" : ").unwrap_or((row, ""));
        expect(told_of_sink(rt.alloc(), given).is(wanted), row)?;
    }
    Ok(())
}

// A stream that takes two bytes a write, `left` times, and then fails.
#[derive(Drop)]
struct Halting {
    left: u8,
    taken: Vec<u8>,
}

impl Write for Halting {
    fn write(&mut self, buf: &[u8]) -> io::Result<usize> {
        if self.left == 0 {
            return Err(io::Error::from(io::ErrorKind::BrokenPipe));
        }
        self.left -= 1;
        let count = buf.len().min(2);
        self.taken.extend_from_slice(&buf[..count])?;
        Ok(count)
    }

    fn flush(&mut self) -> io::Result<()> {
        Ok(())
    }
}

#[test]
fn a_stream_takes_whole_pieces_and_each_failure_counts_once(rt: HostRuntime) -> Result<(), Fail> {
    let mut stream = Halting {
        left: 5,
        taken: Vec::new(rt.alloc()),
    };
    let mut sink = StdSink::new(&mut stream);
    let answers = [sink.write(b"abcde").is_ok(), sink.write(b"fghijk").is_ok()];
    expect(answers == [true, false] && sink.faults() == 1, "two pieces")?;
    expect(
        stream.taken.as_slice() == b"abcdefghi".as_slice(),
        "the second is cut",
    )
}

#[test]
fn standard_error_takes_lines(rt: HostRuntime) -> Result<(), Fail> {
    let mut sink = StdSink::new(rt.stderr());
    let is_taken = sink.write(b"a line on standard error\n").is_ok();
    expect(is_taken && sink.faults() == 0, "a line")
}
