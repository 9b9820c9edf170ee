//! That a thread may take what a worker works on, shown for every system whose parts allow it.

use opt_gate::Pass;
use opt_system::System;

fn may_be_taken<T: Send>(_value: &T) {}

/// A thread may take a pass with its replica.
pub fn job_may_be_taken<S: System>(job: &(Pass<S>, S::State))
where
    S::State: Send,
    S::Found: Send,
    S::Goal: Send,
    S::Reason: Send,
{
    may_be_taken(job);
}
