//! The marks of nodes and edges. Those of edges are ordered as they are listed.

/// The mark of a node of a host graph (Bak 2015, "Marks").
#[derive(Clone, Copy, PartialEq, Eq)]
pub enum NodeMark {
    None,
    Red,
    Green,
    Blue,
    Grey,
}

/// The mark of an edge of a host graph.
#[derive(Clone, Copy, PartialEq, Eq, PartialOrd, Ord)]
pub enum EdgeMark {
    None,
    Red,
    Green,
    Blue,
    Dashed,
}
