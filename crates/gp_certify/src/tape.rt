//! What is asked of a trace.

ghost use Rattle.std.specs.Prelude.{◌≡◌, ◌<◌, ◌≤◌, ◌↔◌, length, IsTrue, IfOk, Some, slice_get};
ghost use Rattle.gp_syntax.specs.Run.{Turned};
ghost use Rattle.gp_certify.specs.Places.{IsPart, IsTakenBack};
ghost use Rattle.gp_certify.specs.Parts.{StepsAt, BlockedAt};
ghost use Rattle.gp_certify.specs.inside.View.{View};

use gp_memory::NoMemory;

/// A trace whose items lead along graphs, by the rules of a program.
pub(crate) trait Tape {
    ghost view: { Self → View };

    /// How many items there are.
    fn len(&self) -> usize
        ensures { result ≡ length (view self.now).trace };

    /// Whether the item of a place is a step by a rule of the set of this number.
    fn steps(&self, call: u32, place: usize) -> bool
        requires { call < length (view self.now).program.sets }
        ensures { IsTrue result ↔ (StepsAt (view self.now).program (view self.now).trace (view self.now).graphs call place) };

    /// Whether that set is blocked at the graph of a place.
    fn is_blocked(&mut self, call: u32, place: usize) -> Result<bool, NoMemory>
        requires set { call < length (view self.old).program.sets }
        requires place { place ≤ length (view self.old).trace }
        ensures same { view self.new ≡ view self.old }
        ensures told { IfOk result (λ b. IsTrue b ↔ (BlockedAt (view self.old).program (view self.old).graphs call place)) };

    /// Whether the item of a place begins a turn of a loop.
    fn is_turn(&self, place: usize) -> bool
        ensures { IsTrue result ↔ (slice_get (view self.now).trace place ≡ Some Turned) };

    /// Whether the item of a place takes back all that is live since another, where what is between takes back no more.
    fn takes_back(&self, from: usize, place: usize) -> bool
        requires { IsPart (view self.now).trace from place }
        ensures { IsTrue result ↔ (IsTakenBack (view self.now).trace from place) };
}
