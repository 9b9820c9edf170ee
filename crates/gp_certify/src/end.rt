//! Where a command may end.

ghost use Rattle.std.specs.Prelude.{◌≡◌};

/// How a command ends for the one around it.
#[derive(Clone, Copy, PartialEq, Eq)]
pub enum Outcome {
    /// With the graph of the place.
    Gives,
    /// By `fail`.
    Fails,
    /// By `break`.
    Breaks,
}

/// A place of a trace at which a command may end, and how.
#[derive(Clone, Copy, PartialEq, Eq)]
pub(crate) struct End {
    pub(crate) place: usize,
    pub(crate) outcome: Outcome,
}

impl End {
    /// The end of a command that gives, at this place.
    pub(crate) fn given(place: usize) -> End
        ensures { result ≡ record { place = place; outcome = Outcome.Gives } }
    {
        End {
            place,
            outcome: Outcome::Gives,
        }
    }
}
