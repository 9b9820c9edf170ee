//! Images of two matches that are the same.

ghost use Rattle.std.specs.Prelude.{◌≡◌};
ghost use Rattle.gp_match.specs.Stands.{numbers_of};
ghost use Rattle.gp_match.specs.Tests.{has_number};
ghost use Rattle.gp_independence.specs.inside.Shared.{any_shared, Tells};

use gp_syntax::{EdgeImage, Found};

/// What two matches share: nothing, nodes and no edge, or an edge.
#[derive(Clone, Copy)]
pub(crate) enum Shared {
    Nothing,
    NodesAlone,
    Edges,
}

/// What two matches share. Each number of the one is compared with each of the other.
pub(crate) fn shared_by(first: &Found, second: &Found) -> Shared
    ensures { Tells result first.now second.now }
{
    if share_edge(first.edges(), second.edges()) {
        return Shared::Edges;
    }
    if share_node(first.nodes(), second.nodes()) {
        return Shared::NodesAlone;
    }
    Shared::Nothing
}

fn share_node(first: &[u64], second: &[u64]) -> bool
    ensures { result ≡ any_shared first.now second.now }
{
    'numbers: for number in first {
        if second.contains(number) {
            return true;
        }
    }
    false
}

fn share_edge(first: &[EdgeImage], second: &[EdgeImage]) -> bool
    ensures { result ≡ any_shared (numbers_of first.now) (numbers_of second.now) }
{
    'images: for image in first {
        if has_edge(second, image.number()) {
            return true;
        }
    }
    false
}

fn has_edge(images: &[EdgeImage], number: u64) -> bool
    ensures { result ≡ has_number (numbers_of images.now) number }
{
    'images: for image in images {
        if image.number() == number {
            return true;
        }
    }
    false
}
