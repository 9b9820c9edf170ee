//! Runs of a program on a host, and what is said of how they end.

ghost use Rattle.std.specs.Prelude.{◌≡◌, ◌<◌, length, slice_get, Some, IfOk};
ghost use Rattle.gp_syntax.specs.Tree.{program_of_tree};
ghost use Rattle.gp_values.specs.Names.{Name as AnyName};
ghost use Rattle.gp_cli.specs.Loads.{names_of};
ghost use Rattle.gp_cli.specs.inside.Ends.{EndsSeeded, HasRule, SaysEnd};

use crate::choices::Choices;
use crate::resources::Resources;
use crate::said::Said;
use gp_graph::Graph;
use gp_memory::NoMemory;
use gp_syntax::{NumberKind, Program};
use gp_system::{Outcome, Terms, execute};
use std::alloc::Global;
use std::sync::Wait;
use std::thread::Threads;

/// Runs the program on the graph, with the choices of the seed.
pub(crate) fn run<R: Threads + Wait + Sync>(
    resources: &Resources<'_, R>,
    program: &Program,
    graph: Graph,
    terms: Terms<'_>,
    seed: u64,
) -> Outcome
    ensures { EndsSeeded seed (program_of_tree program.now) graph.graph terms.entry.bound terms.entry.keeps result }
{
    let mut choices = Choices::of_seed(seed);
    execute(
        resources.rt,
        resources.alloc,
        program,
        graph,
        terms,
        &mut choices,
    )
}

// That the rule of this number has a faulty match of this kind.
fn number_fault<'a>(
    alloc: Global,
    program: &Program,
    rule: u32,
    kind: NumberKind,
) -> Result<Said<'a>, NoMemory>
    requires { rule < length program.now.rules }
    ensures { IfOk result (λ s. (name : AnyName) × (slice_get (names_of program.now) rule ≡ Some name) × (s ≡ Said.Number name kind)) }
{
    let rules = program.parts().rules.as_slice();
    let name = rules[rule as usize].parts().name.copy(alloc)?;
    Ok(Said::Number(name, kind))
}

/// What is said of how a run of the program ended, with this bound.
pub(crate) fn ended<'a>(
    alloc: Global,
    program: &Program,
    bound: u64,
    outcome: Outcome,
) -> Result<Said<'a>, NoMemory>
    requires { HasRule (length program.now.rules) outcome }
    ensures { IfOk result (SaysEnd (names_of program.now) bound outcome) }
{
    match outcome {
        Outcome::Graph(ran) => Ok(Said::Graph(ran)),
        Outcome::Fail(ran) => Ok(Said::Fail(ran)),
        Outcome::Bound(_) => Ok(Said::Bound(bound)),
        Outcome::Fault(_, rule, kind) => number_fault(alloc, program, rule, kind),
        Outcome::NoMemory => Err(NoMemory),
    }
}
