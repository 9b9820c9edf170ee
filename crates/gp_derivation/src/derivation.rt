//! Whether a trace and a result are a derivation.

ghost use Rattle.std.specs.Prelude.{◌≡◌, map, IfOk, IsTrue};
ghost use Rattle.std.specs.Bool.{Decides};
ghost use Rattle.gp_syntax.specs.Tree.{program_of_tree, item_of};
ghost use Rattle.gp_hostfile.specs.GraphText.{IsGraphText};
ghost use Rattle.gp_trace.specs.declared.version.Version.TheVariants.{One};
ghost use Rattle.gp_derivation.specs.Derivation.{fail_text, EndsWith, IsDerivation};

use crate::fault::UpgradeFault;
use crate::items::upgrade;
use gp_certify::certify;
use gp_certify::laws::rules_are_well_formed;
use gp_graph::Graph;
use gp_hostfile::write_graph;
use gp_memory::NoMemory;
use gp_syntax::{Item, Program};
use gp_trace::Version;
use std::alloc::Global;

// Whether this is the text of the graph.
fn is_text_of(alloc: Global, graph: &Graph, text: &[u8]) -> Result<bool, NoMemory>
    ensures { IfOk result (λ b. Decides b (IsGraphText graph.now.graph text.now)) }
{
    let mut whole = Vec::new(alloc);
    write_graph(alloc, graph, &mut whole)?;
    Ok(whole.as_slice() == text)
}

// Whether runs fail, and this is the text that such a run ends with.
fn ends_by_fail(fail: bool, text: &[u8]) -> bool
    ensures { Decides result (IsTrue fail × (text.now ≡ fail_text)) }
{
    fail && text == b"fail\n".as_slice()
}

// Whether a run of Main makes these items of version 2, and ends with the text.
fn ends_with(
    alloc: Global,
    program: &Program,
    host: &Graph,
    items: &[Item],
    text: &[u8],
) -> Result<bool, NoMemory>
    ensures { IfOk result (λ b. Decides b (EndsWith (program_of_tree program.now) host.now.graph (map item_of items.now) text.now)) }
{
    let checked = certify(alloc, program, host, items)?;
    if ends_by_fail(checked.fail, text) {
        return Ok(true);
    }
    match &checked.graph {
        Some(graph) => is_text_of(alloc, graph, text),
        None => Ok(false),
    }
}

// The same of items of version 1.
fn ended_with(
    alloc: Global,
    program: &Program,
    host: &Graph,
    items: &[Item],
    text: &[u8],
) -> Result<bool, NoMemory>
    ensures { IfOk result (λ b. Decides b (IsDerivation (program_of_tree program.now) host.now.graph One (map item_of items.now) text.now)) }
{
    let rules = program.parts().rules.as_slice();
    rules_are_well_formed(rules);
    let _sound = host.next_numbers();
    match upgrade(alloc, rules, host.copy(alloc)?, items) {
        Ok(today) => ends_with(alloc, program, host, &today, text),
        Err(UpgradeFault::Item(_)) => Ok(false),
        Err(UpgradeFault::NoMemory) => Err(NoMemory),
    }
}

/// Whether the items, which are of a trace of this version, and the text of a result are a derivation of the program on the
/// host: a run of Main makes them, and ends with a graph of this text or with fail.
pub fn is_derivation(
    alloc: Global,
    program: &Program,
    host: &Graph,
    version: Version,
    items: &[Item],
    text: &[u8],
) -> Result<bool, NoMemory>
    ensures { IfOk result (λ b. Decides b (IsDerivation (program_of_tree program.now) host.now.graph version (map item_of items.now) text.now)) }
{
    match version {
        Version::One => ended_with(alloc, program, host, items, text),
        Version::Two => ends_with(alloc, program, host, items, text),
    }
}
