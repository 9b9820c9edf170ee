//! Copies of a trail for several workers.

ghost use Rattle.std.specs.Prelude.{◌≡◌, ◌<◌, All, IfOk, IfSome, length, vec_len};

use crate::trail::Trail;
use gp_memory::NoMemory;
use std::alloc::Global;
use std::thread;
use std::thread::Threads;

// Copies the trail to each place that has none, in at most so many threads. Where memory was refused none is left there.
fn copy_to_all<R: Threads + Sync>(
    rt: &R,
    trail: &Trail,
    places: &mut [Option<Trail>],
    threads: usize,
)
    requires threads { 0 < threads }
    ensures len { length places.new ≡ length places.old }
    ensures all { All (λ place. IfSome place (λ t. t ≡ trail.now)) places.new }
{
    thread::for_each_mut(
        rt,
        places,
        threads,
        &|_, place: &mut Option<Trail>|
            ensures { IfSome place.exit.now (λ t. t ≡ trail.entry.now) }
        { *place = trail.copy().ok() },
    );
}

/// Copies of a trail, one for each worker, each made in a thread of its own.
pub(crate) fn copies<R: Threads + Sync>(
    rt: &R,
    alloc: Global,
    trail: &Trail,
    workers: u32,
) -> Result<Vec<Trail>, NoMemory>
    requires { 0 < workers }
    ensures all { IfOk result (λ v. All (λ t. t ≡ trail.now) v.items) }
    ensures len { IfOk result (λ v. vec_len v ≡ workers) }
{
    let count = workers as usize;
    let mut places = Vec::with_capacity(alloc, count)?;
    for _ in 0..workers {
        places.push_reserved(None);
    }
    copy_to_all(rt, trail, &mut places, count);
    let mut trails = Vec::with_capacity(alloc, count)?;
    while let Some(place) = places.pop() {
        match place {
            Some(there) => trails.push_reserved(there),
            None => return Err(NoMemory),
        }
    }
    Ok(trails)
}
