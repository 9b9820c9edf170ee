//! What a call of the program is made with.

use opt_worker::Pacing;
use std::alloc::Global;

/// A handle of threads, the memory that is asked for, and a pace that may hold workers.
#[derive(Drop)]
pub(crate) struct Resources<'a, R> {
    pub(crate) rt: &'a R,
    pub(crate) alloc: Global,
    pub(crate) pace: &'a Pacing,
}
