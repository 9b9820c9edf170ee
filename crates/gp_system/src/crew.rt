//! How many workers search for the matches of calls, and which calls they are given.

use opt_worker::Pacing;

/// The workers of a run. Workers, fan and batch are hints: no result depends on them.
#[derive(Clone, Copy)]
pub struct Crew {
    /// How many workers there are. With none or one, each call is searched where the run stands, and nothing waits.
    pub workers: u32,
    /// How many candidates, in units of 20,000, a search on the run's own graph looks at before all workers have the call:
    /// 64 units at least, and four candidates more for each part of the run, which cost less than bringing the workers there.
    /// With 1 or 0 all have it at once where some rule has a first candidate. A loop comes back after steps that double.
    pub fan: u32,
    /// How many independent matches a worker may offer in one turn, for a loop over a call. With none it is one.
    pub batch: u32,
}

/// How a run is to be made.
#[derive(Clone, Copy)]
pub struct Terms<'a> {
    /// How many steps and turns may be made.
    pub bound: u64,
    /// Whether the items that are made are kept, and left with the graph: each takes a hundred bytes and more.
    pub keeps: bool,
    pub crew: Crew,
    /// What may hold the workers.
    pub pace: &'a Pacing,
}
