//! A run of a program on a host graph.

ghost use Rattle.std.specs.Prelude.{◌≡◌, map};
ghost use Rattle.gp_syntax.specs.Tree.{rule_of_tree, program_of_tree};
ghost use Rattle.gp_plan.specs.Plan.{plan_of};
ghost use Rattle.gp_system.specs.Ended.{HasEnded};
ghost use Rattle.gp_system.specs.inside.Finishing.{outcome_of};

use crate::crew::Terms;
use crate::crew_session::CrewSession;
use crate::outcome::{Outcome, Ran};
use crate::session::Session;
use gp_graph::Graph;
use gp_independence::conditions_ask_between;
use gp_plan::{Plan, plans_ask_between, plans_of};
use gp_run::{Chooser, Finish, run};
use gp_syntax::Program;
use std::alloc::Global;
use std::sync::Wait;
use std::thread::Threads;

// How a run ended, with what it leaves.
fn outcome(finish: Finish, ran: Ran) -> Outcome
    ensures { result ≡ outcome_of finish ran }
{
    match finish {
        Finish::Graph => Outcome::Graph(ran),
        Finish::Fail => Outcome::Fail(ran),
        Finish::Bound => Outcome::Bound(ran),
        Finish::Fault(rule, kind) => Outcome::Fault(ran, rule, kind),
        Finish::NoMemory => Outcome::NoMemory,
    }
}

// The host, with an index of its edges where the program asks for those between two nodes.
fn indexed(program: &Program, plans: &[Plan], mut host: Graph) -> Graph
    ensures { result.graph ≡ host.graph }
{
    if plans_ask_between(plans) || conditions_ask_between(program.parts().rules.as_slice()) {
        host.index_edges();
    }
    host
}

// A run by one worker, which waits for nobody.
fn execute_alone<C: Chooser>(
    alloc: Global,
    program: &Program,
    plans: &[Plan],
    host: Graph,
    terms: Terms<'_>,
    chooser: &mut C,
) -> Outcome
    requires { plans.now ≡ map plan_of (map rule_of_tree program.now.rules) }
    ensures { HasEnded C.answer C.next (program_of_tree program.now) host.graph terms.entry.bound terms.entry.keeps (C.state chooser.old) (C.state chooser.new) result }
{
    let mut session = Session::new(alloc, program, plans, host, terms.bound, terms.keeps);
    let finish = run(&(), program, &mut session, chooser);
    outcome(finish, session.into_ran())
}

/// Runs the program on the host graph, with at most so many steps and turns as the terms say. The answers of `or` are the
/// chooser's. With two workers or more, calls with many candidates are searched by all of them, which the pace may hold.
pub fn execute<C: Chooser, R: Threads + Wait + Sync>(
    rt: &R,
    alloc: Global,
    program: &Program,
    host: Graph,
    terms: Terms<'_>,
    chooser: &mut C,
) -> Outcome
    ensures { HasEnded C.answer C.next (program_of_tree program.now) host.graph terms.entry.bound terms.entry.keeps (C.state chooser.old) (C.state chooser.new) result }
{
    let Ok(plans) = plans_of(alloc, program.parts().rules.as_slice()) else {
        return Outcome::NoMemory;
    };
    let host = indexed(program, &plans, host);
    if terms.crew.workers < 2 {
        return execute_alone(alloc, program, &plans, host, terms, chooser);
    }
    let mut crewed = CrewSession::new(alloc, program, &plans, host, terms);
    let finish = run(rt, program, &mut crewed, chooser);
    outcome(finish, crewed.into_ran())
}
