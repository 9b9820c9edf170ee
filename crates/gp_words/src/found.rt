//! The command of what `clap` found.

ghost use Rattle.std.specs.Prelude.{◌≡◌, ◌≤◌, Option, Some, IfSome, option_map};
ghost use Rattle.clap.specs.Words.{found_of, rows_of, first_of};
ghost use Rattle.gp_gen.specs.Host.{largest};
ghost use Rattle.gp_words.specs.CommandLine as spec;
ghost use Rattle.gp_words.specs.Told.{crew_now, command_now, HasSize};

use crate::command::{
    CheckCommand, Command, CrewOptions, DemoCommand, FmtCommand, RunCommand, StepCommand,
};
use crate::number::{number_between, value_or};
use clap::ArgMatches;
use gp_gen::Kind;

/// The bound where none is written, and the greatest.
const USUAL_BOUND: u64 = 1_000_000;

const GREATEST_BOUND: u64 = 1 << 40;

/// The number of workers where none is written, and the greatest.
const USUAL_WORKERS: u64 = 1;

const GREATEST_WORKERS: u64 = 64;

/// How many candidates more workers are wanted for, where none is written, and the greatest.
const USUAL_FAN: u64 = 64;

const GREATEST_FAN: u64 = (1 << 32) - 1;

/// How many matches a worker may offer in one turn, where no number is written, and the greatest.
const USUAL_BATCH: u64 = 1;

const GREATEST_BATCH: u64 = 64;

// The value that clap found under a name.
fn text_of<'a>(matches: &ArgMatches<'a>, id: &str) -> Option<&'a str>
    ensures { option_map (λ s. s.now) result ≡ first_of id.now (rows_of (found_of matches.now)) }
{
    matches.get_str(id)
}

fn is_set(word: Option<&str>) -> bool
    ensures { result ≡ spec.is_set (option_map (λ w. w.now) word.entry) }
{
    match word {
        None => false,
        Some(word) => word == "true",
    }
}

fn workers_of(matches: &ArgMatches<'_>) -> Option<u32>
    ensures { result ≡ spec.workers_of (rows_of (found_of matches.now)) }
{
    let word = text_of(matches, "workers");
    match value_or(USUAL_WORKERS, 1, GREATEST_WORKERS, word) {
        None => None,
        Some(workers) => Some(workers as u32),
    }
}

fn fan_of(matches: &ArgMatches<'_>) -> Option<u32>
    ensures { result ≡ spec.fan_of (rows_of (found_of matches.now)) }
{
    match value_or(USUAL_FAN, 1, GREATEST_FAN, text_of(matches, "fan")) {
        None => None,
        Some(fan) => Some(fan as u32),
    }
}

fn batch_of(matches: &ArgMatches<'_>) -> Option<u32>
    ensures { result ≡ spec.batch_of (rows_of (found_of matches.now)) }
{
    match value_or(USUAL_BATCH, 1, GREATEST_BATCH, text_of(matches, "batch")) {
        None => None,
        Some(batch) => Some(batch as u32),
    }
}

// The workers that are asked for.
fn crew_of(matches: &ArgMatches<'_>) -> Option<CrewOptions>
    ensures { option_map crew_now result ≡ spec.crew_of (rows_of (found_of matches.now)) }
{
    match (workers_of(matches), fan_of(matches), batch_of(matches)) {
        (Some(workers), Some(fan), Some(batch)) => Some(CrewOptions {
            workers,
            fan,
            batch,
        }),
        _ => None,
    }
}

fn bound_of(matches: &ArgMatches<'_>) -> Option<u64>
    ensures { result ≡ spec.bound_of (rows_of (found_of matches.now)) }
{
    value_or(USUAL_BOUND, 0, GREATEST_BOUND, text_of(matches, "bound"))
}

fn seed_of(matches: &ArgMatches<'_>) -> Option<u64>
    ensures { result ≡ spec.seed_of (rows_of (found_of matches.now)) }
{
    value_or(0, 0, u64::MAX, text_of(matches, "seed"))
}

// The run of these files, with the values that clap found.
fn run_files<'a>(matches: &ArgMatches<'a>, program: &'a str, host: &'a str) -> Option<Command<'a>>
    ensures run { option_map command_now result ≡ spec.run_files (rows_of (found_of matches.now)) (Some program.entry.now) (Some host.entry.now) }
    ensures size { IfSome result HasSize }
{
    let journal = is_set(text_of(matches, "journal"));
    match (bound_of(matches), seed_of(matches), crew_of(matches)) {
        (Some(bound), Some(seed), Some(crew)) => Some(Command::Run(RunCommand {
            program,
            host,
            bound,
            seed,
            journal,
            crew,
        })),
        _ => None,
    }
}

fn run_of<'a>(matches: &ArgMatches<'a>) -> Option<Command<'a>>
    ensures run { option_map command_now result ≡ spec.run_of (rows_of (found_of matches.now)) }
    ensures size { IfSome result HasSize }
{
    match (text_of(matches, "program"), text_of(matches, "host")) {
        (Some(program), Some(host)) => run_files(matches, program, host),
        _ => None,
    }
}

fn kind_named(word: &str) -> Option<Kind>
    ensures { result ≡ spec.kind_named word.now }
{
    if word == "closure" {
        Some(Kind::Closure)
    } else if word == "colour" {
        Some(Kind::Colour)
    } else if word == "tree" {
        Some(Kind::Tree)
    } else {
        None
    }
}

fn largest(kind: Kind) -> u64
    ensures { result ≡ largest kind }
{
    match kind {
        Kind::Closure | Kind::Colour => 500,
        Kind::Tree => 18,
    }
}

// The demo of this kind, with the values that clap found.
fn demo_with<'a>(
    matches: &ArgMatches<'a>,
    kind: Kind,
    size: &str,
    seed: &str,
) -> Option<Command<'a>>
    ensures demo { option_map command_now result ≡ spec.demo_with kind (spec.number_between 1 (largest kind) size.now) (spec.number_between 0 spec.greatest_seed seed.now)
        (spec.crew_of (rows_of (found_of matches.now))) }
    ensures size { IfSome result HasSize }
{
    let size = number_between(1, largest(kind), size);
    let seed = number_between(0, u64::MAX, seed);
    match (size, seed, crew_of(matches)) {
        (Some(size), Some(seed), Some(crew)) => Some(Command::Demo(DemoCommand {
            kind,
            size,
            seed,
            crew,
        })),
        _ => None,
    }
}

fn demo_of<'a>(matches: &ArgMatches<'a>) -> Option<Command<'a>>
    ensures demo { option_map command_now result ≡ spec.demo_of (rows_of (found_of matches.now)) }
    ensures size { IfSome result HasSize }
{
    match (
        text_of(matches, "kind"),
        text_of(matches, "size"),
        text_of(matches, "seed"),
    ) {
        (Some(kind), Some(size), Some(seed)) => match kind_named(kind) {
            Some(kind) => demo_with(matches, kind, size, seed),
            None => None,
        },
        _ => None,
    }
}

fn check_of<'a>(matches: &ArgMatches<'a>) -> Option<Command<'a>>
    ensures check { option_map command_now result ≡ spec.check_of (rows_of (found_of matches.now)) }
    ensures size { IfSome result HasSize }
{
    match (
        text_of(matches, "program"),
        text_of(matches, "host"),
        text_of(matches, "trace"),
        text_of(matches, "result"),
    ) {
        (Some(program), Some(host), Some(trace), Some(result)) => {
            Some(Command::Check(CheckCommand {
                program,
                host,
                trace,
                result,
            }))
        }
        _ => None,
    }
}

fn fmt_of<'a>(matches: &ArgMatches<'a>) -> Option<Command<'a>>
    ensures fmt { option_map command_now result ≡ spec.fmt_of (rows_of (found_of matches.now)) }
    ensures size { IfSome result HasSize }
{
    match text_of(matches, "program") {
        Some(program) => Some(Command::Fmt(FmtCommand { program })),
        None => None,
    }
}

// The walk of a script through the run of these files, with the values that clap found.
fn step_files<'a>(
    matches: &ArgMatches<'a>,
    program: &'a str,
    host: &'a str,
    script: &'a str,
) -> Option<Command<'a>>
    ensures step { option_map command_now result ≡ spec.step_files (rows_of (found_of matches.now)) (Some program.entry.now) (Some host.entry.now) (Some script.entry.now) }
    ensures size { IfSome result HasSize }
{
    match (bound_of(matches), seed_of(matches)) {
        (Some(bound), Some(seed)) => Some(Command::Step(StepCommand {
            program,
            host,
            script,
            bound,
            seed,
        })),
        _ => None,
    }
}

fn step_of<'a>(matches: &ArgMatches<'a>) -> Option<Command<'a>>
    ensures step { option_map command_now result ≡ spec.step_of (rows_of (found_of matches.now)) }
    ensures size { IfSome result HasSize }
{
    match (
        text_of(matches, "program"),
        text_of(matches, "host"),
        text_of(matches, "script"),
    ) {
        (Some(program), Some(host), Some(script)) => step_files(matches, program, host, script),
        _ => None,
    }
}

/// The command of that name at which clap found these matches.
pub(crate) fn command_at<'a>(name: &str, matches: &ArgMatches<'a>) -> Option<Command<'a>>
    ensures command { option_map command_now result ≡ spec.command_at (name.now, rows_of (found_of matches.now)) }
    ensures size { IfSome result HasSize }
{
    if name == "run" {
        run_of(matches)
    } else if name == "demo" {
        demo_of(matches)
    } else if name == "check" {
        check_of(matches)
    } else if name == "fmt" {
        fmt_of(matches)
    } else if name == "step" {
        step_of(matches)
    } else {
        None
    }
}
