//! What comes after the first part of a sequence, an `if` or a `try`.

ghost use Rattle.std.specs.Prelude.{◌≡◌};
ghost use Rattle.gp_certify.specs.inside.Ways.{way_of};

use crate::end::Outcome;
use crate::node::Node;

/// What comes after an end of a first part.
#[derive(Clone, Copy)]
pub(crate) enum Way {
    /// Nothing may.
    Stops,
    /// It is an end of the whole.
    Ends,
    /// This part, from the same place on.
    On(u32),
    /// This part, from behind the item that takes the first part back.
    OnBehind(u32),
}

/// The way of a first part that ends so.
pub(crate) fn way_of(node: Node, outcome: Outcome) -> Way
    ensures { result ≡ way_of node outcome }
{
    match node {
        Node::Seq(_, second) => match outcome {
            Outcome::Gives => Way::On(second),
            Outcome::Fails | Outcome::Breaks => Way::Ends,
        },
        Node::If(_, then, otherwise) => match outcome {
            Outcome::Gives => Way::OnBehind(then),
            Outcome::Fails => Way::OnBehind(otherwise),
            Outcome::Breaks => Way::Stops,
        },
        Node::Try(_, then, otherwise) => match outcome {
            Outcome::Gives => Way::On(then),
            Outcome::Fails => Way::OnBehind(otherwise),
            Outcome::Breaks => Way::Stops,
        },
        Node::Call(_)
        | Node::Loop(_)
        | Node::Or(..)
        | Node::Skip
        | Node::Fail
        | Node::Break
        | Node::Proc(..) => Way::Stops,
    }
}
