//! What holds of graphs as the specifications define them. Each function does nothing: its contract is the law.

ghost use Rattle.gp_values.specs.Laws.{EditsKeepGraphs, EditsChangeOnePlace, EditsAreTakenBack, SameGraphs, TestsEquality};
ghost use Rattle.gp_values.specs.Compare.{OrdersLists};
ghost use Rattle.gp_values.specs.Order.{WalksMeetAll};

/// Each edit of a graph leaves a graph.
pub fn edits_keep_graphs()
    ensures { EditsKeepGraphs }
{}

/// An edit changes what it names, and nothing else.
pub fn edits_change_one_place()
    ensures { EditsChangeOnePlace }
{}

/// A removal is taken back by putting, an addition by removing and lowering the next number, a relabelling by
/// relabelling.
pub fn edits_are_taken_back()
    ensures { EditsAreTakenBack }
{}

/// Graphs are equal where their nodes, edges and next numbers are.
pub fn same_graphs()
    ensures { SameGraphs }
{}

/// The test of equality of the definitions is exact.
pub fn tests_equality()
    ensures { TestsEquality }
{}

/// A walk over the numbers below the next ones meets all nodes and edges, in order.
pub fn walks_meet_all()
    ensures { WalksMeetAll }
{}

/// The order of lists is total, and only equal lists are tied.
pub fn orders_lists()
    ensures { OrdersLists }
{}
