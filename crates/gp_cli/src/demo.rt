//! What a demo comes to.

ghost use Rattle.std.specs.Prelude.{length, IfOk};
ghost use Rattle.gp_gen.specs.Host.{IsSize};
ghost use Rattle.gp_words.specs.Told.{demo_now};
ghost use Rattle.gp_cli.specs.Loads.{names_of};
ghost use Rattle.gp_cli.specs.inside.Ends.{HasRule, SaysDemo};
ghost use Rattle.gp_cli.specs.inside.Parts.{MakesBoth, RunsDemo};

use crate::parsed::both_of;
use crate::resources::Resources;
use crate::run::{ended, run};
use crate::said::{Said, Stop, or_stopped};
use gp_gen::generate;
use gp_graph::Graph;
use gp_memory::NoMemory;
use gp_syntax::Program;
use gp_system::{Crew, Outcome, Terms};
use gp_words::DemoCommand;
use std::alloc::Global;
use std::sync::Wait;
use std::thread::Threads;

/// How many items a demo may count.
const BOUND: u64 = 1 << 40;

/// With what the choices of its run begin.
const CHOICES: u64 = 0;

// Those of the texts of the demo, which are made.
fn made<'a>(alloc: Global, command: DemoCommand) -> Result<(Program, Graph), Stop<'a>>
    requires { IsSize command.kind command.size }
    ensures { MakesBoth (demo_now command) result }
{
    let texts = generate(alloc, command.kind, command.size, command.seed)?;
    both_of(alloc, &texts.0, &texts.1)
}

// What a demo says of how its run ended: in place of a graph, what it has done.
fn demo_said<'a>(
    alloc: Global,
    command: DemoCommand,
    program: &Program,
    outcome: Outcome,
) -> Result<Said<'a>, NoMemory>
    requires { HasRule (length program.now.rules) outcome }
    ensures { IfOk result (SaysDemo (demo_now command) (names_of program.now) outcome) }
{
    match outcome {
        Outcome::Graph(ran) => Ok(Said::Demo(command.kind, command.size, ran)),
        other => ended(alloc, program, BOUND, other),
    }
}

/// What a demo comes to: its program's text and its host's are made, read and run. No items are kept.
pub(crate) fn demo<'a, R: Threads + Wait + Sync>(
    resources: &Resources<'_, R>,
    command: DemoCommand,
) -> Result<Said<'a>, Stop<'a>>
    requires { IsSize command.kind command.size }
    ensures { RunsDemo (demo_now command) result }
{
    let (program, graph) = made(resources.alloc, command)?;
    let terms = Terms {
        bound: BOUND,
        keeps: false,
        crew: Crew {
            workers: command.crew.workers,
            fan: command.crew.fan,
            batch: command.crew.batch,
        },
        pace: resources.pace,
    };
    let outcome = run(resources, &program, graph, terms, CHOICES);
    or_stopped(demo_said(resources.alloc, command, &program, outcome))
}
