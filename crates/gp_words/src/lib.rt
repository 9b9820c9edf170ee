//! The words of the command line, read by `clap`.
//!
//! Call `command_of` with the words behind the program's name. `specs/CommandLine` says which words are a command: it is
//! clap's own function of words (`fault_of` and `subcommand_of` of clap) of one level of commands, and the numbers and
//! the kind of a demo are read here.
#![tactic(auto)]

mod apps;
mod command;
mod found;
mod number;
mod words;

pub use command::{
    CheckCommand, Command, CrewOptions, DemoCommand, FmtCommand, RunCommand, StepCommand,
};
pub use words::command_of;
