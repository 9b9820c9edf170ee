//! The kinds of workloads.

/// What a demo workload does: links are added between nodes of a ring until none is left out, a grid is coloured in two
/// colours, or a tree is grown.
#[derive(Clone, Copy, PartialEq, Eq)]
pub enum Kind {
    Closure,
    Colour,
    Tree,
}
