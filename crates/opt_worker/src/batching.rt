//! How many matches a worker may offer in its next turn.

use opt_core::Reply;

/// How many matches a worker may offer in one turn. Each batch costs a search of its share for more matches, which is for
/// nothing where hardly any two are independent. So after a batch of which no two were committed the worker offers matches
/// alone for a while, which doubles each time and is one match again after a batch of which two were, so that searches for nothing are few. It is a hint: no
/// result depends on it.
#[derive(Clone, Copy)]
pub(crate) struct Batching {
    // The most matches of a turn.
    most: u32,
    // How many are offered alone after the next batch of which no two are committed.
    pause: u32,
    // How many are still offered alone before the next batch.
    alone: u32,
}

impl Batching {
    /// Of a worker that may offer so many matches in one turn, and begins with a batch.
    pub(crate) fn new(most: u32) -> Batching {
        Batching {
            most,
            pause: 1,
            alone: 0,
        }
    }

    /// How many matches may be offered in the next turn.
    pub(crate) fn size(self) -> u32 {
        if self.alone > 0 { 1 } else { self.most }
    }

    /// After this answer to a report.
    pub(crate) fn after<F, R>(self, reply: &Reply<F, R>) -> Batching {
        match reply {
            Reply::Batched(_, count, _) if *count > 1 => Batching::new(self.most),
            Reply::Batched(_, _, _) => Batching {
                most: self.most,
                pause: self.pause.saturating_mul(2),
                alone: self.pause,
            },
            Reply::Committed(_) => Batching {
                most: self.most,
                pause: self.pause,
                alone: self.alone.saturating_sub(1),
            },
            _ => self,
        }
    }
}
