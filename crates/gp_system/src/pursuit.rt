//! A call that several workers pursue at the same time, each with a trail of its own.

ghost use Rattle.std.specs.Prelude.{◌≡◌, ◌<◌, ◌^◌, All, OnOk, IfOk, length, vec_len};
ghost use Rattle.gp_system.specs.inside.Pursued.{IsPursued, IsBehind};

use crate::goal::{CallGoal, Fault};
use crate::gp::Gp;
use gp_journal::{Replicated, Trail};
use gp_memory::NoMemory;
use gp_syntax::Found;
use opt_core::{Core, Ending};
use opt_worker::{Pace, follow, pursue};
use std::sync::Wait;
use std::thread::Threads;

/// A goal to be pursued with so many counted items, by so many workers, who offer up to so many matches in one turn.
#[derive(Clone, Copy)]
pub(crate) struct Asked {
    pub(crate) goal: CallGoal,
    pub(crate) left: u64,
    pub(crate) workers: u32,
    pub(crate) batch: u32,
}

/// What a goal came to: where it led, with the workers' trails, which are there too, the matches that were taken, how many
/// items are left, and how it ended.
#[derive(Drop)]
pub(crate) struct Pursued {
    pub(crate) trail: Replicated,
    pub(crate) entries: Vec<Found>,
    pub(crate) left: u64,
    pub(crate) ending: Ending<Fault>,
}

// Makes the steps on each replica that it has not made yet, so that it is where the trail is.
fn level(
    system: &Gp<'_>,
    entries: &[Found],
    trail: &Trail,
    replicas: &mut [Trail],
) -> Result<(), NoMemory>
    requires { All (IsBehind system.now entries.now trail.now) replicas.old }
    ensures all { OnOk result (All (λ t. t ≡ trail.now) replicas.new) }
    ensures len { length replicas.new ≡ length replicas.old }
{
    for replica in replicas.iter_mut() {
        let lacking = (trail.depth() - replica.depth()) as usize;
        follow(system, replica, &entries[entries.len() - lacking..])?;
    }
    Ok(())
}

/// Pursues what is asked from where a run is, with a worker for each replica.
pub(crate) fn pursue_goal<P: Pace + Sync, R: Threads + Wait + Sync>(
    rt: &R,
    system: &Gp<'_>,
    trail: Replicated,
    asked: Asked,
    pace: &P,
) -> Result<Pursued, NoMemory>
    requires { 0 < asked.workers }
    ensures { IfOk result (λ r. IsPursued system.now asked.goal trail asked.left r.trail r.entries.items r.left r.ending) }
{
    let alloc = system.allocator();
    let (trail, replicas) = trail.apart(rt, asked.workers)?;
    let Ok(core) = Core::start(alloc, system, trail, asked.goal, asked.left) else {
        return Err(NoMemory);
    };
    let (core, mut replicas) = pursue(rt, system, core, replicas, pace, asked.batch);
    let (trail, entries, left, ending) = core.into_parts();
    level(system, &entries, &trail, &mut replicas)?;
    let Some(ending) = ending else { unreachable!() };
    Ok(Pursued {
        trail: Replicated::whole(alloc, trail, replicas),
        entries,
        left,
        ending,
    })
}
