//! The program `gp2`: it hands the words, the files, the two streams and a pace that holds no worker to the top call, and
//! ends with its status.
//! Nothing is written here, and the words are the first for which memory may be refused.
#![tactic(auto)]

use gp_cli::gp2_main;
use gp_io::{DiskFiles, StdSink};
use gp_memory::NoMemory;
use opt_worker::Pacing;
use std::alloc::Global;
use std::env;
use std::io::ErrorKind;
use std::process::ExitCode;

// The words after the program's name; none where one of them is no text.
fn words(rt: &HostRuntime, alloc: Global) -> Result<Vec<String>, NoMemory> {
    let mut words = Vec::new(alloc);
    match env::args(rt) {
        Ok(arguments) => {
            for word in arguments.skip(1) {
                words.push(word)?;
            }
        }
        Err(error) => {
            if error.kind() == ErrorKind::OutOfMemory {
                return Err(NoMemory);
            }
        }
    }
    Ok(words)
}

fn main(rt: HostRuntime) -> ExitCode {
    let words = words(&rt, rt.alloc());
    let mut files = DiskFiles::new(&rt);
    let mut out = StdSink::new(rt.stdout());
    let mut err = StdSink::new(rt.stderr());
    ExitCode::from(gp2_main(&rt, words, &mut files, &mut out, &mut err, &Pacing::Free))
}
