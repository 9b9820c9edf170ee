//! That threads may share a gate and take passes, shown for every system whose parts allow it.

use crate::gate::Gate;
use crate::pass::Pass;
use opt_system::System;

fn may_be_taken<T: Send>(_value: &T) {}

fn may_be_shared<T: Sync>(_value: &T) {}

/// A thread may take a pass.
pub fn pass_may_be_taken<S: System>(pass: &Pass<S>)
where
    S::State: Send,
    S::Found: Send,
    S::Goal: Send,
    S::Reason: Send,
{
    may_be_taken(pass);
}

/// Threads may share a gate.
pub fn gate_may_be_shared<S: System>(gate: &Gate<S>)
where
    S::State: Send,
    S::Found: Send,
    S::Goal: Send + Sync,
    S::Reason: Send,
{
    may_be_shared(gate);
}
