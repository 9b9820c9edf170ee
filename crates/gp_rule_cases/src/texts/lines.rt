//! The lines and the sentences that name the faults of programs.

use gp_reader::{ProgramFault, read_program};
use gp_rows::{Answer, Wrong, field};
use std::alloc::Global;

/// The line that names the fault of a text, behind a text that is given.
pub(crate) fn answer(alloc: Global, fields: &[&[u8]], out: &mut Answer) {
    match read_program(alloc, field(fields, 0)) {
        Ok(_) => out.word(b"no fault"),
        Err(fault) => out.take(line_of(alloc, field(fields, 1), &fault)),
    }
}

fn line_of(alloc: Global, before: &[u8], fault: &ProgramFault) -> Result<Vec<u8>, Wrong> {
    let mut line = Vec::from_slice(alloc, before)?;
    fault.write_line(alloc, &mut line)?;
    Ok(line)
}

/// The sentence that names the fault of a text.
pub(crate) fn sentence(alloc: Global, fields: &[&[u8]], out: &mut Answer) {
    match read_program(alloc, field(fields, 0)) {
        Ok(_) => out.word(b"no fault"),
        Err(fault) => out.show(&fault),
    }
}
