//! What holds of the hosts of demo workloads, and worked examples. Each function does nothing: its contract is the law.

ghost use Rattle.gp_gen.specs.Laws.{HostsAreWhole};
ghost use Rattle.gp_gen.specs.Rows.{ClosureExamples, ColourExamples, TreeExample};

/// A host has so many nodes, numbered from 0 on, and so many edges, each from a node to a node.
pub fn hosts_are_whole()
    ensures { HostsAreWhole }
{}

/// The rings of one and of two nodes.
pub fn closure_examples()
    ensures { ClosureExamples }
{}

/// The grids of one and of four nodes, and the neighbours in a grid of nine.
pub fn colour_examples()
    ensures { ColourExamples }
{}

/// The host of a tree.
pub fn tree_example()
    ensures { TreeExample }
{}
