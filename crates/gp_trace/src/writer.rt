//! The texts of traces.

ghost use Rattle.std.specs.Prelude.{◌≡◌, ◌++◌, if◌then◌else◌, [], map, codes, All, OnOk, OnErr, IfOk};
ghost use Rattle.std.specs.Fmt.{decimal};
ghost use Rattle.gp_syntax.specs.Run.{Back};
ghost use Rattle.gp_syntax.specs.Tree.{item_of};
ghost use Rattle.gp_trace.specs.TraceText.{item_line, found_line, image_word, trace_text};
ghost use Rattle.gp_trace.specs.Reading.{IsNumber, IsHeld, CanBeHeld, BeginsTrace};
ghost use Rattle.gp_trace.specs.inside.Lines.{spaced, item_lines};
ghost use Rattle.gp_trace.specs.inside.Puts.{Puts};

use crate::sheet::Sheet;
use gp_memory::NoMemory;
use gp_syntax::{EdgeImage, Found, Item};
use std::alloc::Global;

/// Puts the text of the items, which are of version 2, behind what `text` holds. On refusal `text` is as before.
pub fn write_trace(alloc: Global, items: &[Item], text: &mut Vec<u8>) -> Result<(), NoMemory>
    ensures ok { OnOk result (text.new.items ≡ text.old.items ++ trace_text (map item_of items.now)) }
    ensures held { OnOk result (All CanBeHeld (map item_of items.now)) }
    ensures err { OnErr result (BeginsTrace (map item_of items.now) text.old.items text.new.items) }
    ensures unchanged { OnErr result (text.new.items ≡ text.old.items) }
{
    let whole = text_of(alloc, items)?;
    text.extend_from_slice(&whole)?;
    Ok(())
}

fn text_of(alloc: Global, items: &[Item]) -> Result<Vec<u8>, NoMemory>
    ensures text { IfOk result (λ v. v.items ≡ trace_text (map item_of items.now)) }
    ensures held { All CanBeHeld (map item_of items.now) }
{
    let mut sheet = Sheet::new(alloc);
    sheet.put(b"gp2-trace 2\n");
    put_items(items, &mut sheet);
    sheet.put(b"end\n");
    sheet.into_text()
}

fn put_items(items: &[Item], sheet: &mut Sheet)
    ensures text { Puts sheet.old sheet.new (item_lines (map item_of items.now)) }
    ensures held { All CanBeHeld (map item_of items.now) }
{
    for item in items {
        put_item(item, sheet);
    }
}

/// Puts the line of an item behind what `text` holds. On refusal `text` is as before.
pub fn write_item(item: &Item, text: &mut Vec<u8>) -> Result<(), NoMemory>
    ensures ok { OnOk result (text.new.items ≡ text.old.items ++ item_line (item_of item.now)) }
    ensures held { OnOk result (CanBeHeld (item_of item.now)) }
    ensures unchanged { OnErr result (text.new.items ≡ text.old.items) }
{
    let line = line_of(*text.allocator(), item)?;
    text.extend_from_slice(&line)?;
    Ok(())
}

fn line_of(alloc: Global, item: &Item) -> Result<Vec<u8>, NoMemory>
    ensures text { IfOk result (λ v. v.items ≡ item_line (item_of item.now)) }
    ensures held { CanBeHeld (item_of item.now) }
{
    let mut sheet = Sheet::new(alloc);
    put_item(item, &mut sheet);
    sheet.into_text()
}

fn put_item(item: &Item, sheet: &mut Sheet)
    ensures text { Puts sheet.old sheet.new (item_line (item_of item.now)) }
    ensures held { CanBeHeld (item_of item.now) }
{
    match item {
        Item::Step(found) => put_step(found, sheet),
        Item::Turn => sheet.put(b"turn\n"),
        Item::Back(count) => put_back(*count, sheet),
    }
}

fn put_back(count: u64, sheet: &mut Sheet)
    ensures text { Puts sheet.old sheet.new (item_line (Back count)) }
    ensures held { IsNumber count }
{
    sheet.put(b"back ");
    sheet.number(count);
    sheet.put(b"\n");
}

fn put_step(found: &Found, sheet: &mut Sheet)
    ensures text { Puts sheet.old sheet.new (found_line found.now) }
    ensures held { IsHeld found.now }
{
    sheet.put(b"step ");
    sheet.number(u64::from(found.rule()));
    sheet.put(b" nodes");
    put_nodes(found.nodes(), sheet);
    sheet.put(b" edges");
    put_edges(found.edges(), sheet);
    sheet.put(b"\n");
}

fn put_nodes(nodes: &[u64], sheet: &mut Sheet)
    ensures text { Puts sheet.old sheet.new (spaced (map decimal nodes.now)) }
    ensures held { All IsNumber nodes.now }
{
    for node in nodes {
        sheet.put(b" ");
        sheet.number(*node);
    }
}

fn put_edges(edges: &[EdgeImage], sheet: &mut Sheet)
    ensures text { Puts sheet.old sheet.new (spaced (map image_word edges.now)) }
    ensures held { All (λ i. IsNumber i.number) edges.now }
{
    for edge in edges {
        put_edge(*edge, sheet);
    }
}

fn put_edge(edge: EdgeImage, sheet: &mut Sheet)
    ensures text { Puts sheet.old sheet.new (codes " " ++ image_word edge) }
    ensures held { IsNumber edge.number }
{
    sheet.put(b" ");
    sheet.number(edge.number());
    sheet.put(tilde(edge.reversed()));
}

fn tilde(reversed: bool) -> &'static [u8]
    ensures { result.now ≡ (if reversed then codes "~" else []) }
{
    if reversed { b"~" } else { b"" }
}
