//! What holds of host texts and of the texts of graphs. Each function does nothing: its contract is the law.

ghost use Rattle.gp_values.specs.Graph.{IsGraph};
ghost use Rattle.gp_hostfile.specs.Laws.{HostTextsHaveAnAnswer, HostTextsHaveOneGraph, HostTextsHaveNoFault, HostTextsHaveOneFault, GraphsHaveOneText, GraphTextsAreReadBack};
ghost use Rattle.gp_hostfile.specs.Renumbered.{HasShortNumbers};

use gp_graph::Graph;

/// Each text is the text of a graph, or has a fault.
pub fn host_texts_have_an_answer()
    ensures { HostTextsHaveAnAnswer }
{}

/// A text is the text of at most one graph.
pub fn host_texts_have_one_graph()
    ensures { HostTextsHaveOneGraph }
{}

/// A text of a graph has no fault, and another text has one at most, but for the number of Syntax.
pub fn host_texts_have_one_fault()
    ensures none { HostTextsHaveNoFault }
    ensures one { HostTextsHaveOneFault }
{}

/// A graph has one text.
pub fn graphs_have_one_text()
    ensures { GraphsHaveOneText }
{}

/// The text of a graph is read back as that graph, with its nodes and edges numbered anew.
pub fn graph_texts_are_read_back()
    ensures { GraphTextsAreReadBack }
{}

/// Each graph in memory is one whose text is read back.
pub fn graphs_have_short_numbers(graph: &Graph)
    ensures graph { IsGraph graph.now.graph }
    ensures short { HasShortNumbers graph.now.graph }
{
    let _numbers = graph.next_numbers();
}
