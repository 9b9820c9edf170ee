//! What is told of a trace.

ghost use Rattle.std.specs.Prelude.{◌≡◌, ◌↔◌, true, false, IsTrue, IfOk, IsSomeAnd, MatchOption, length, map};
ghost use Rattle.gp_values.specs.Graph.{Graph as AnyGraph};
ghost use Rattle.gp_syntax.specs.Run.{Gives, Fails};
ghost use Rattle.gp_syntax.specs.Tree.{program_of_tree, item_of};
ghost use Rattle.gp_certify.specs.Certified.{HasRunTo};
ghost use Rattle.gp_certify.specs.inside.Replay.{view_of};

use crate::code::code_of;
use crate::replay::Replay;
use crate::whole::runs_of;
use gp_graph::Graph;
use gp_memory::NoMemory;
use gp_syntax::{Item, Program};
use std::alloc::Global;

/// What the runs of Main on a host with these items end with: the graph that some give, and whether some fail.
#[derive(Drop)]
pub struct Checked {
    pub graph: Option<Graph>,
    pub fail: bool,
}

// The graph behind the last item, where runs give it.
fn last_where(gives: bool, tape: &mut Replay<'_>) -> Result<Option<Graph>, NoMemory>
    ensures { IfOk result (λ o. MatchOption o (gives ≡ false) (λ g. (gives ≡ true) × (g.graph ≡ (view_of tape.old).graphs (length tape.old.items)))) }
{
    if gives {
        Ok(Some(tape.last_graph()?))
    } else {
        Ok(None)
    }
}

/// Whether there are runs of Main on the host that make these items, and what they end with.
pub fn certify(
    alloc: Global,
    program: &Program,
    host: &Graph,
    items: &[Item],
) -> Result<Checked, NoMemory>
    ensures graph { IfOk result (λ c. (h : AnyGraph) → IsSomeAnd c.graph (λ g. g.graph ≡ h) ↔ HasRunTo (program_of_tree program.now) host.now.graph (map item_of items.now) (Gives h)) }
    ensures fail { IfOk result (λ c. IsTrue c.fail ↔ ((h : AnyGraph) × HasRunTo (program_of_tree program.now) host.now.graph (map item_of items.now) (Fails h))) }
{
    let Some(mut tape) = Replay::new(alloc, program, host, items)? else {
        return Ok(Checked {
            graph: None,
            fail: false,
        });
    };
    let code = code_of(alloc, program)?;
    let runs = runs_of(alloc, &code.nodes, code.root, &mut tape)?;
    let graph = last_where(runs.gives, &mut tape)?;
    Ok(Checked {
        graph,
        fail: runs.fails,
    })
}
