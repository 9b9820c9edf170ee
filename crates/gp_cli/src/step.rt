//! What a walk of a script comes to.

ghost use Rattle.std.specs.Prelude.{length, map, IfOk};
ghost use Rattle.gp_syntax.specs.Tree.{rule_of_tree};
ghost use Rattle.gp_words.specs.Told.{step_now};
ghost use Rattle.gp_cli.specs.Loads.{names_of};
ghost use Rattle.gp_cli.specs.inside.Ends.{HasRule, CanWalk, CanWalkEnd, SaysWalk, SaysWalkOrEnd};
ghost use Rattle.gp_cli.specs.inside.Parts.{StepsFiles};

use crate::files::{load_both, load_script};
use crate::resources::Resources;
use crate::run::{ended, run};
use crate::said::{Said, Stop, or_stopped};
use gp_derivation::{Line, walk};
use gp_graph::Graph;
use gp_io::Files;
use gp_memory::NoMemory;
use gp_syntax::{Program, Rule};
use gp_system::{Crew, Outcome, Ran, Terms};
use gp_words::StepCommand;
use std::alloc::Global;
use std::sync::Wait;
use std::thread::Threads;

// What the script comes to over the items that a run on the host left.
fn walked<'a>(
    alloc: Global,
    host: Graph,
    ran: Ran,
    rules: &[Rule],
    script: &[Line],
) -> Result<Said<'a>, NoMemory>
    requires { CanWalk (map rule_of_tree rules.now) host.graph ran }
    ensures { IfOk result (SaysWalk (map rule_of_tree rules.now) host.graph script.now ran) }
{
    let text = walk(alloc, host, ran.items.unwrap(), rules, script)?;
    Ok(Said::Walked(text))
}

// The same where the run ended with a graph or by fail. Else what is said of its end, with this bound.
fn walked_or_ended<'a>(
    alloc: Global,
    program: &Program,
    host: Graph,
    script: &[Line],
    bound: u64,
    outcome: Outcome,
) -> Result<Said<'a>, NoMemory>
    requires rule { HasRule (length program.now.rules) outcome }
    requires walk { CanWalkEnd (map rule_of_tree program.now.rules) host.graph outcome }
    ensures { IfOk result (SaysWalkOrEnd (names_of program.now) bound (map rule_of_tree program.now.rules) host.graph script.now outcome) }
{
    let rules = program.parts().rules.as_slice();
    match outcome {
        Outcome::Graph(ran) => walked(alloc, host, ran, rules, script),
        Outcome::Fail(ran) => walked(alloc, host, ran, rules, script),
        other => ended(alloc, program, bound, other),
    }
}

/// What the three files of a walk come to. One worker runs the program, and the items of its run are kept.
pub(crate) fn step<'a, F: Files, R: Threads + Wait + Sync>(
    resources: &Resources<'_, R>,
    command: StepCommand<'a>,
    files: &mut F,
) -> Result<Said<'a>, Stop<'a>>
    ensures { StepsFiles (F.known files.old) (F.known files.new) (step_now command.entry) result }
{
    let (program, graph) = load_both(resources.alloc, files, command.program, command.host)?;
    let script = load_script(resources.alloc, files, command.script)?;
    let host = graph.copy(resources.alloc)?;
    let terms = Terms {
        bound: command.bound,
        keeps: true,
        crew: Crew {
            workers: 1,
            fan: 1,
            batch: 1,
        },
        pace: resources.pace,
    };
    let outcome = run(resources, &program, graph, terms, command.seed);
    or_stopped(walked_or_ended(
        resources.alloc,
        &program,
        host,
        &script,
        command.bound,
        outcome,
    ))
}
