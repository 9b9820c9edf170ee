//! What a pass asks at its turn.

ghost use Rattle.std.specs.Prelude.{◌≡◌};
ghost use Rattle.opt_gate.specs.Turn.{event_of};

use opt_core::{Entries, Event};

/// An event without the number of entries that its sender was told of: the pass knows it.
#[derive(Drop)]
pub enum Ask<F> {
    /// Asks for the entries that the pass was not told yet, and for a share to search, from `from` on.
    Look { from: u32 },
    /// A match that applied at the entries that the pass was told.
    Offer { found: F },
    /// Some matches for a goal whose matches are taken until none is left: each applied there, and any two were independent.
    Batch { founds: Entries<F> },
    /// A match that was faulty there.
    Fault { found: F },
    /// A share that was barren there.
    Quiet { share: u32 },
    /// Ends the goal.
    Stop,
}

impl<F> Ask<F> {
    // The event of a sender that was told so many entries.
    pub(crate) fn into_event(self, told: u64) -> Event<F>
        ensures { result ≡ event_of told self }
    {
        match self {
            Ask::Look { from } => Event::Look { told, from },
            Ask::Offer { found } => Event::Offer { told, found },
            Ask::Batch { founds } => Event::Batch { told, founds },
            Ask::Fault { found } => Event::Fault { told, found },
            Ask::Quiet { share } => Event::Quiet { told, share },
            Ask::Stop => Event::Stop,
        }
    }
}
