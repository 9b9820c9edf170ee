//! Two workers over the rules of a program.

ghost use Rattle.std.specs.Prelude.{◌≡◌, IfOk, vec_len};
ghost use Rattle.std.specs.List.{All};

use super::put_held;
use crate::tests::answers::Answer;
use crate::tests::cores::rules::{DEL, ONE};
use crate::tests::spelled::put_core;
use gp_hostfile::read_host;
use gp_journal::Trail;
use gp_memory::NoMemory;
use gp_plan::plans_of;
use gp_reader::read_program;
use gp_system::{CallGoal, Gp};
use opt_core::Core;
use opt_system::Mode;
use opt_worker::{Held, pursue};
use std::alloc::{AllocGlobal, Global};
use std::sync::Wait;
use std::test::Fail;
use std::thread::Threads;

// Two copies of a trail.
fn two_of(alloc: Global, base: &Trail) -> Result<Vec<Trail>, NoMemory>
    ensures len { IfOk result (λ v. vec_len v ≡ 2) }
    ensures all { IfOk result (λ v. All (λ at. at ≡ base.now) v.items) }
{
    let mut copies = Vec::new(alloc);
    copies.push(base.copy()?)?;
    copies.push(base.copy()?)?;
    Ok(copies)
}

// What two workers, held to search at the same time, leave of a loop that deletes the one node of a host.
fn held_on_rules<R: AllocGlobal + Threads + Wait + Sync>(rt: &R) -> Result<Answer, Fail> {
    let alloc = rt.alloc();
    let mut told = Answer::new(alloc);
    let pace = Held::new(1_000_000_000);
    let base = Trail::new(alloc, read_host(alloc, ONE.as_bytes())?);
    let replicas = two_of(alloc, &base)?;
    let program = read_program(alloc, DEL.as_bytes())?;
    let plans = plans_of(alloc, program.parts().rules.as_slice())?;
    let system = Gp::new(alloc, &program, &plans, 2);
    let goal = CallGoal {
        call: 0,
        mode: Mode::Saturate,
    };
    let Ok(core) = Core::start(alloc, &system, base, goal, 2) else {
        return Err(Fail::new("no core was made"));
    };
    let (core, _) = pursue(rt, &system, core, replicas, &pace, 1);
    put_core(core, &mut told);
    put_held(&pace, &mut told);
    if pace.first_of_zero() == Some(false) {
        told.put(", first stale");
    }
    Ok(told)
}

#[test]
fn a_worker_over_rules_is_given_the_share_that_is_left(rt: HostRuntime) -> Result<(), Fail> {
    held_on_rules(&rt)?.expect("[0/0] 0 blocked, met, first stale")
}
