//! Whether a trace is that of a run.

ghost use Rattle.std.specs.Prelude.{◌≡◌, ◌↔◌, IsTrue, IfOk, Contains};
ghost use Rattle.gp_certify.specs.Code.{IsCodeOf};
ghost use Rattle.gp_certify.specs.inside.View.{IsTape};
ghost use Rattle.gp_certify.specs.inside.Whole.{HasRun};

use crate::end::{End, Outcome};
use crate::ends::ends_of;
use crate::memory::Memory;
use crate::node::Node;
use crate::tape::Tape;
use gp_memory::NoMemory;
use std::alloc::Global;

/// Whether some run of Main has the trace and gives the last graph, and whether some run has it and fails there.
#[derive(Clone, Copy)]
pub(crate) struct Runs {
    pub(crate) gives: bool,
    pub(crate) fails: bool,
}

fn has_end(ends: &[End], place: usize, outcome: Outcome) -> bool
    ensures { IsTrue result ↔ Contains ends.now (record { place = place; outcome = outcome }) }
{
    ends.contains(&End { place, outcome })
}

/// What the runs of Main with the trace of a tape do. In the table the node of number `root` stands for Main.
pub(crate) fn runs_of<T: Tape>(
    alloc: Global,
    code: &[Node],
    root: u32,
    tape: &mut T,
) -> Result<Runs, NoMemory>
    requires tape { IsTape (T.view tape.old) }
    requires code { IsCodeOf (T.view tape.old).program code.now root }
    ensures same { T.view tape.new ≡ T.view tape.old }
    ensures gives { IfOk result (λ r. IsTrue r.gives ↔ HasRun (T.view tape.old) Outcome.Gives) }
    ensures fails { IfOk result (λ r. IsTrue r.fails ↔ HasRun (T.view tape.old) Outcome.Fails) }
{
    let place = tape.len();
    let mut memory = Memory::new(alloc);
    let ends = ends_of(code, root, 0, tape, &mut memory)?;
    let gives = has_end(&ends, place, Outcome::Gives);
    let fails = has_end(&ends, place, Outcome::Fails);
    Ok(Runs { gives, fails })
}
