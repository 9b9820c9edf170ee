//! How a run of a program ends.

use gp_graph::Graph;
use gp_journal::Items;
use gp_syntax::NumberKind;

/// What a run leaves: the graph where it is, how many of its steps are live, and the items that it made, where they were to
/// be kept.
#[derive(Drop)]
pub struct Ran {
    pub graph: Graph,
    pub live: u64,
    pub items: Option<Items>,
}

/// How a run of a program ended, with what it leaves.
#[derive(Drop)]
pub enum Outcome {
    /// With the graph that it leaves.
    Graph(Ran),
    Fail(Ran),
    /// The bound is spent before a turn of a loop, or before a call of which a match applies.
    Bound(Ran),
    /// A call stands where the rule of this number, one of its set, has a faulty match of this kind.
    Fault(Ran, u32, NumberKind),
    /// Memory was refused.
    NoMemory,
}
