//! Bells, by which passes that wait are woken.

use std::alloc::{AllocError, Global};
use std::sync::Wait;
use std::thread::Parker;
use std::time::Duration;

/// How many bells there are. Passes whose tickets lie closer have bells of their own.
const BELLS: u64 = 64;

/// How long a pass sleeps at most before it looks again, in microseconds.
const NAP: u64 = 1000;

/// A bell for each of the next tickets. Nothing rests on them: who is woken looks at the ticket that is served.
#[derive(Drop)]
pub(crate) struct Bells {
    parkers: Vec<Parker>,
}

impl Bells {
    /// None is rung yet.
    pub(crate) fn silent(alloc: Global) -> Result<Bells, AllocError> {
        let mut parkers = Vec::with_capacity(alloc, BELLS as usize)?;
        for _ in 0..BELLS {
            parkers.push(Parker::new())?;
        }
        Ok(Bells { parkers })
    }

    fn bell(&self, ticket: u64) -> Option<&Parker> {
        self.parkers.get((ticket % BELLS) as usize)
    }

    /// Sleeps until the bell of the ticket is rung, or for a short time.
    pub(crate) fn sleep<R: Wait>(&self, rt: &R, ticket: u64) {
        if let Some(parker) = self.bell(ticket) {
            parker.park_timeout(rt, Duration::from_micros(NAP));
        }
    }

    /// Rings the bell of the ticket behind this one.
    pub(crate) fn ring_behind(&self, ticket: u64) {
        if let Some(parker) = self.bell(ticket.wrapping_add(1)) {
            parker.unpark();
        }
    }
}
