//! Calls of the top call over files and sinks in memory.

use crate::tests::answers::Answer;
use gp_cli::gp2_main;
use gp_io::{MemFiles, MemSink};
use gp_memory::NoMemory;
use opt_worker::Pacing;
use std::alloc::{AllocGlobal, Global};
use std::sync::Wait;
use std::thread::Threads;

// Adds the words of a line, with a blank between each two. An empty line has none.
fn push_words(alloc: Global, line: &str, words: &mut Vec<String>) -> Result<(), NoMemory> {
    if !line.is_empty() {
        for word in line.split(' ') {
            words.push(String::from_str(alloc, word)?)?;
        }
    }
    Ok(())
}

/// The words of two lines.
pub(crate) fn words_of(alloc: Global, lines: (&str, &str)) -> Result<Vec<String>, NoMemory> {
    let mut words = Vec::new(alloc);
    push_words(alloc, lines.0, &mut words)?;
    push_words(alloc, lines.1, &mut words)?;
    Ok(words)
}

/// A call: the texts of the files p and h, of which the read of a number may fail, the words of two lines, or that memory
/// was refused for them, and after how many bytes a write on out, which one, and the first on err may fail.
#[derive(Clone, Copy)]
pub(crate) struct Call<'a> {
    pub(crate) program: &'a [u8],
    pub(crate) host: &'a str,
    pub(crate) words: Option<(&'a str, &'a str)>,
    pub(crate) read: Option<u64>,
    pub(crate) out: Option<u64>,
    pub(crate) write: u64,
    pub(crate) err: Option<u64>,
}

impl<'a> Call<'a> {
    /// A call whose reads and writes succeed.
    pub(crate) fn new(program: &'a str, host: &'a str, words: (&'a str, &'a str)) -> Call<'a> {
        Call {
            program: program.as_bytes(),
            host,
            words: Some(words),
            read: None,
            out: None,
            write: 0,
            err: None,
        }
    }
}

// Adds a file of that name and text, unless memory is refused for it.
fn add(alloc: Global, files: &mut Vec<(String, Vec<u8>)>, name: &str, text: &[u8]) {
    if let Ok(name) = String::from_str(alloc, name) {
        if let Ok(text) = Vec::from_slice(alloc, text) {
            let _ = files.push((name, text));
        }
    }
}

/// Files p and h of these texts, of which the read of that number fails.
pub(crate) fn two_files(alloc: Global, program: &[u8], host: &str, read: Option<u64>) -> MemFiles {
    let mut files = Vec::new(alloc);
    add(alloc, &mut files, "p", program);
    add(alloc, &mut files, "h", host.as_bytes());
    let mut failing = Vec::new(alloc);
    if let Some(read) = read {
        let _ = failing.push(read);
    }
    MemFiles::new(files, failing)
}

/// A sink with so much room, whose write of that number fails after so many bytes.
pub(crate) fn sink(
    alloc: Global,
    room: u64,
    call: u64,
    cut: Option<u64>,
) -> Result<MemSink, NoMemory> {
    let mut failing = Vec::new(alloc);
    if let Some(cut) = cut {
        failing.push((call, cut))?;
    }
    MemSink::new(alloc, room, failing)
}

/// Tells the status, and then what is on out and what is on err, each behind a line of its name where there is something.
pub(crate) fn put_shown(status: u8, out: &[u8], err: &[u8], told: &mut Answer) {
    told.number(u64::from(status));
    if !out.is_empty() {
        told.put(b" out\n");
        told.put(out);
    }
    if !err.is_empty() {
        told.put(b" err\n");
        told.put(err);
    }
}

/// What a call comes to, with a pace that may hold workers.
pub(crate) fn told_of<R: AllocGlobal + Threads + Wait + Sync>(
    rt: &R,
    call: &Call<'_>,
    pace: &Pacing,
) -> Answer {
    let alloc = rt.alloc();
    let mut told = Answer::new(alloc);
    let mut files = two_files(alloc, call.program, call.host, call.read);
    let words = match call.words {
        Some(lines) => words_of(alloc, lines),
        None => Err(NoMemory),
    };
    if let Ok(mut out) = sink(alloc, 4096, call.write, call.out) {
        if let Ok(mut err) = sink(alloc, 4096, 0, call.err) {
            let status = gp2_main(rt, words, &mut files, &mut out, &mut err, pace);
            put_shown(status, out.bytes(), err.bytes(), &mut told);
        }
    }
    told
}
