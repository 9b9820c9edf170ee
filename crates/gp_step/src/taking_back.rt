//! Taking a step back.

ghost use Rattle.std.specs.Prelude.{◌≡◌};
ghost use Rattle.gp_step.specs.Undo.{Fits, MayUndo, undone_by, inverse_of};

use crate::inverse::Inverse;
use crate::inverses::Undo;
use gp_graph::Graph;

// Makes one inverse edit.
fn take_back(graph: &mut Graph, inverse: Inverse)
    requires { MayUndo inverse graph.old.graph }
    ensures { graph.new.graph ≡ inverse_of inverse graph.old.graph }
{
    match inverse {
        Inverse::DropNode => {
            let (next, _) = graph.next_numbers();
            let _was = graph.remove_node(next - 1);
            graph.drop_node();
        }
        Inverse::DropEdge => {
            let (_, next) = graph.next_numbers();
            let _was = graph.remove_edge(next - 1);
            graph.drop_edge();
        }
        Inverse::PutNode(n, label, mark, root) => graph.put_node(n, label, mark, root),
        Inverse::PutEdge(e, source, target, label, mark) => {
            graph.put_edge(e, source, target, label, mark)
        }
        Inverse::Relabel(n, label, mark, root) => {
            let _was = graph.relabel(n, label, mark, root);
        }
        Inverse::RelabelEdge(e, label, mark) => {
            let _was = graph.relabel_edge(e, label, mark);
            // Searches meet it first, as they meet an edge that is put back.
            graph.begin_at(e);
        }
        Inverse::BeginAt(e) => graph.begin_at(e),
    }
}

/// Takes a step back, where the graph is as the step left it: the very graph from before the step is there again, with
/// its next numbers. It takes no memory.
pub fn undo(graph: &mut Graph, undo: Undo)
    requires { Fits undo graph.old.graph }
    ensures { graph.new.graph ≡ undone_by undo graph.old.graph }
{
    let Undo {
        edges,
        nodes,
        mut taken,
    } = undo;
    'edges: for _ in 0..edges {
        take_back(graph, Inverse::DropEdge);
    }
    'nodes: for _ in 0..nodes {
        take_back(graph, Inverse::DropNode);
    }
    'taken: while let Some(inverse) = taken.pop() {
        take_back(graph, inverse);
    }
}
