//! Commands.

use gp_gen::Kind;

/// How many workers there are (1 to 64), how many candidates they are wanted for, and how many matches one may offer in
/// a turn (1 to 64).
#[derive(Clone, Copy)]
pub struct CrewOptions {
    pub workers: u32,
    pub fan: u32,
    pub batch: u32,
}

/// `run PROGRAM HOST` with its options: the names of the files, how many items may be counted, with what the choices of
/// `or` begin, whether the journal is wanted, and its workers.
#[derive(Clone, Copy)]
pub struct RunCommand<'a> {
    pub program: &'a str,
    pub host: &'a str,
    pub bound: u64,
    pub seed: u64,
    pub journal: bool,
    pub crew: CrewOptions,
}

/// `demo KIND SIZE SEED` with its options: the workload, and its workers.
#[derive(Clone, Copy)]
pub struct DemoCommand {
    pub kind: Kind,
    pub size: u64,
    pub seed: u64,
    pub crew: CrewOptions,
}

/// `check PROGRAM HOST TRACE RESULT`: the names of the files.
#[derive(Clone, Copy)]
pub struct CheckCommand<'a> {
    pub program: &'a str,
    pub host: &'a str,
    pub trace: &'a str,
    pub result: &'a str,
}

/// `fmt PROGRAM`: the name of the file.
#[derive(Clone, Copy)]
pub struct FmtCommand<'a> {
    pub program: &'a str,
}

/// `step PROGRAM HOST SCRIPT` with its options: the names of the files, and the bound and the seed as for `run`.
#[derive(Clone, Copy)]
pub struct StepCommand<'a> {
    pub program: &'a str,
    pub host: &'a str,
    pub script: &'a str,
    pub bound: u64,
    pub seed: u64,
}

/// What the words ask for.
#[derive(Clone, Copy)]
pub enum Command<'a> {
    Run(RunCommand<'a>),
    Demo(DemoCommand),
    Check(CheckCommand<'a>),
    Fmt(FmtCommand<'a>),
    Step(StepCommand<'a>),
}
