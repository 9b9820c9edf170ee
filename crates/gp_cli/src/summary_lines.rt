//! The lines of a summary.

ghost use Rattle.std.specs.Prelude.{◌≡◌, ◌++◌, List, IfOk};
ghost use Rattle.gp_syntax.specs.Run.{Item};
ghost use Rattle.gp_words.specs.CommandLine.{kind_name};
ghost use Rattle.gp_cli.specs.Summary.{live_count, count_line, summary_text};

use crate::counts::{count_edges, count_marked};
use gp_gen::Kind;
use gp_graph::Graph;
use gp_memory::NoMemory;
use gp_values::NodeMark;
use itoa::Buffer;
use std::alloc::Global;

fn kind_name(kind: Kind) -> &'static [u8]
    ensures { result.now ≡ kind_name kind }
{
    match kind {
        Kind::Closure => b"closure",
        Kind::Colour => b"colour",
        Kind::Tree => b"tree",
    }
}

// A line: a name, a blank, and a number.
fn push_count(text: &mut Vec<u8>, name: &[u8], count: u64) -> Result<(), NoMemory>
    ensures { IfOk result (λ _. text.new.items ≡ text.old.items ++ count_line name.now count) }
{
    text.extend_from_slice(name)?;
    text.push(b' ')?;
    text.extend_from_slice(Buffer::new().format(count).as_bytes())?;
    text.push(b'\n')?;
    Ok(())
}

/// The summary of a demo of this kind and size that ends with this graph and with so many live steps.
pub fn summary(
    alloc: Global,
    kind: Kind,
    size: u64,
    graph: &Graph,
    steps: u64,
) -> Result<Vec<u8>, NoMemory>
    ensures { IfOk result (λ v. (t : List Item) → steps ≡ live_count t → v.items ≡ summary_text kind size graph.now.graph t) }
{
    let mut text = Vec::from_slice(alloc, b"kind ")?;
    text.extend_from_slice(kind_name(kind))?;
    text.push(b'\n')?;
    push_count(&mut text, b"size", size)?;
    push_count(&mut text, b"nodes", graph.node_count())?;
    push_count(&mut text, b"edges", count_edges(graph))?;
    push_count(&mut text, b"red", count_marked(graph, NodeMark::Red))?;
    push_count(&mut text, b"blue", count_marked(graph, NodeMark::Blue))?;
    push_count(&mut text, b"steps", steps)?;
    Ok(text)
}
