//! The program as one call: words, files, the run, and what is written.
//!
//! Call `gp2_main`. It is handed the words of the command line, or that memory was refused for them, any files and sinks
//! (`gp_io`), and a pace that may hold workers (`opt_worker::Pacing::Free` holds nobody); it answers the status of the
//! process. What it may write, with which status and why, is `specs/Answer`, over the command line of gp_words, the files
//! (`specs/Inputs`), and the answers and their texts (`specs/Texts`); which status comes of which cause is
//! `specs/Completes`.
//! Inside it: `gp_words` reads the words, `files` the files, or `demo` makes what stands in their place, `run` runs
//! the program, or `check` asks whether a trace and a result are a derivation of it
//! (`gp_derivation`), `fmt` writes a program in its canonical text (`gp_fmt`), `step` walks a script over its items
//! (`gp_derivation`), `texts` makes the texts of the answer, and `deliver` writes. All text is made before the first
//! write.
//!
//! What starts threads is handed the `Resources` of the call, and any other its memory alone.
//! `files` has `load_both`, which reads a program and a host, `load_tree` the tree of a program, `load_trace`, `load_result`
//! and `load_script` the rest of what commands read; `both_of` of `parsed` understands two texts that are there already. What
//! a file holds, and what is answered in place of one, is `specs/Inputs`, over the texts of gp_reader, gp_hostfile, gp_trace
//! and gp_derivation; what each call hands back is `specs/Loads`.
//! `run` hands back the `Outcome` of gp_system, and each command makes its own answer of it: `ended` tells it as it
//! is, a demo has its summary in place of a graph, and `step` a walk over the items in place of a graph or fail. A
//! run's items are kept for `step`, and for `run` where the journal is asked for.
//! What goes on until an answer is known is a `Result` of a `Said`, an answer, and a `Stop`: a `Refusal`, or that
//! memory was refused. `settled` makes an answer of both, `or_stopped` goes the other way, and `program_refused`
//! and its like make the stop of a fault. `reply_of` makes of an answer the `Reply`, which is the status of the
//! process, the journal and the result for standard output, and the text for standard error; the journal is written
//! where the items are kept. `specs/Texts` says which texts and which status each answer has (`Shows`), and
//! `specs/Said` which answer a value of the code tells (`Tells`, and `said_of` of a refusal). A demo answers by its
//! `summary`: how many steps are live, and what `counts` counts of the graph that it ends with, in the seven lines
//! of `specs/Summary`. It can be called too.
#![tactic(auto)]

mod check;
mod choices;
mod counts;
mod deliver;
mod demo;
mod files;
mod fmt;
mod parsed;
mod refused;
mod reply;
mod resources;
mod run;
mod said;
mod status;
mod step;
mod summary_lines;
mod texts;
mod top;

pub use summary_lines::summary;
pub use top::gp2_main;
