//! What the names of programs mean.

use gp_reader::read_program;
use gp_rows::{Answer, Wrong, field};
use gp_syntax::{Command, Items, Program};
use std::alloc::Global;

/// What names mean: the body of Main and those of its procedures, each of one command, by numbers. Rules have numbers in
/// the order of the text, procedures likewise.
pub(crate) fn meanings(alloc: Global, fields: &[&[u8]], out: &mut Answer) {
    match read_program(alloc, field(fields, 0)) {
        Ok(program) => put_bodies(&program, out),
        Err(fault) => out.show(&fault),
    }
}

fn put_bodies(program: &Program, out: &mut Answer) {
    let parts = program.parts();
    let sets = parts.sets.as_slice();
    put_body(&parts.main, sets, out);
    for procedure in parts.procedures.as_slice() {
        out.word(b"|");
        put_body(procedure, sets, out);
    }
}

// A body that is one call, or one word.
fn put_body(command: &Command, sets: &[Items<u32>], out: &mut Answer) {
    match command {
        Command::Call(call) => put_call(sets.get(*call as usize), out),
        Command::Proc(number) => {
            out.word(b"P");
            out.put_number(u64::from(*number));
        }
        Command::Skip => out.word(b"skip"),
        Command::Fail => out.word(b"fail"),
        _ => out.wrong(Wrong::new("more than one call")),
    }
}

// The numbers of the rules of a call.
fn put_call(rules: Option<&Items<u32>>, out: &mut Answer) {
    match rules {
        Some(rules) => out.debug(&rules.as_slice()),
        None => out.wrong(Wrong::new("a call without a set")),
    }
}
