//! What a program sees of the outside: files that it reads whole, and sinks that take bytes.
//!
//! Write a program over any `Files` and any `Sink`. Hand it `MemFiles` and `MemSink` to say what it comes to, also
//! where a read or a write fails, and `DiskFiles` and `StdSink` to run it. What a read and a write may answer, and why,
//! is in `specs/Outside`; what files and a sink in memory hold is in `specs/Stored`. Of the real ones contracts know
//! the counts of faults, and nothing of what files hold and what was written: the same code, with less that is known.
#![tactic(auto)]

mod disk_files;
mod mem_files;
mod mem_sink;
mod outside;
mod std_sink;

pub use disk_files::DiskFiles;
pub use mem_files::MemFiles;
pub use mem_sink::MemSink;
pub use outside::{Failed, Files, ReadRefusal, Sink};
pub use std_sink::StdSink;
