//! The command line, as `clap` takes it.

ghost use Rattle.std.specs.Prelude.{◌≡◌, false, map, IfOk};
ghost use Rattle.clap.specs.Words.{app_of, rule_of, new_app};
ghost use Rattle.gp_words.specs.CommandLine as spec;
ghost use Rattle.gp_words.specs.inside.Words.{rule_at, with_words};

use clap::{Arg, ArgAction, Command};
use std::alloc::{AllocError, Global};

/// How a word stands on the command line.
#[derive(Clone, Copy)]
enum Form {
    /// In its place, where it has to be.
    Place,
    /// `--NAME VALUE`.
    Option,
    /// `--NAME`.
    Flag,
}

const RUN: [(Form, &'static str); 8] = [
    (Form::Place, "program"),
    (Form::Place, "host"),
    (Form::Option, "bound"),
    (Form::Option, "seed"),
    (Form::Flag, "journal"),
    (Form::Option, "workers"),
    (Form::Option, "fan"),
    (Form::Option, "batch"),
];

const DEMO: [(Form, &'static str); 6] = [
    (Form::Place, "kind"),
    (Form::Place, "size"),
    (Form::Place, "seed"),
    (Form::Option, "workers"),
    (Form::Option, "fan"),
    (Form::Option, "batch"),
];

const CHECK: [(Form, &'static str); 4] = [
    (Form::Place, "program"),
    (Form::Place, "host"),
    (Form::Place, "trace"),
    (Form::Place, "result"),
];

const FMT: [(Form, &'static str); 1] = [(Form::Place, "program")];

const STEP: [(Form, &'static str); 5] = [
    (Form::Place, "program"),
    (Form::Place, "host"),
    (Form::Place, "script"),
    (Form::Option, "bound"),
    (Form::Option, "seed"),
];

const COMMANDS: [(&'static str, &'static [(Form, &'static str)]); 5] = [
    ("run", &RUN),
    ("demo", &DEMO),
    ("check", &CHECK),
    ("fmt", &FMT),
    ("step", &STEP),
];

fn argument<'a>(alloc: Global, form: Form, id: &'a str) -> Arg<'a>
    ensures rule { rule_of result ≡ rule_at form id.entry.now }
    ensures own { result.global ≡ false }
{
    let argument = Arg::new(alloc, id);
    match form {
        Form::Place => argument.required(true).action(ArgAction::Set),
        Form::Option => argument.long(id).action(ArgAction::Set),
        Form::Flag => argument.long(id).action(ArgAction::SetTrue),
    }
}

// The command of this name that takes these words.
fn command_with<'a>(
    alloc: Global,
    name: &'a str,
    words: &[(Form, &'a str)],
) -> Result<Command<'a>, AllocError>
    ensures { IfOk result (λ c. app_of c ≡ with_words (new_app name.entry.now) (map (λ w. (w.0, w.1.now)) words.now)) }
{
    let mut command = Command::new(alloc, name);
    for (form, id) in words {
        command = command.arg(argument(alloc, *form, id))?;
    }
    Ok(command)
}

// The level above the commands, without them.
fn plain_top<'a>(alloc: Global) -> Command<'a>
    ensures { app_of result ≡ spec.top }
{
    Command::new(alloc, "gp2")
        .no_binary_name(true)
        .subcommand_required(true)
}

pub(crate) fn top_command<'a>(alloc: Global) -> Result<Command<'a>, AllocError>
    ensures { IfOk result (λ c. app_of c ≡ spec.gp2) }
{
    let mut top = plain_top(alloc);
    for (name, words) in &COMMANDS {
        let level = command_with(alloc, name, words)?;
        top = top.subcommand(level)?;
    }
    Ok(top)
}
