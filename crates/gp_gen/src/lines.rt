//! The lines of a host text.

ghost use Rattle.std.specs.Prelude.{◌≡◌};
ghost use Rattle.gp_gen.specs.Texts.{mark_text, edge_label_text, node_line, edge_line};
ghost use Rattle.gp_gen.specs.inside.Puts.{Puts};

use crate::sheet::Sheet;

pub(crate) fn put_node(number: u64, label: u64, is_red: bool, sheet: &mut Sheet)
    ensures { Puts sheet.old sheet.new (node_line (record { number = number; label = label; is_red = is_red })) }
{
    sheet.put(b"  (");
    sheet.number(number);
    sheet.put(b", ");
    sheet.number(label);
    sheet.put(mark_text(is_red));
    sheet.put(b")\n");
}

fn mark_text(is_red: bool) -> &'static [u8]
    ensures { result.now ≡ mark_text is_red }
{
    if is_red { b" # red" } else { b"" }
}

/// Edge `i`, from the source to the target; its label is the empty list where there is none.
pub(crate) fn put_edge(i: u64, source: u64, target: u64, label: Option<u64>, sheet: &mut Sheet)
    ensures { Puts sheet.old sheet.new (edge_line i (record { source = source; target = target; label = label })) }
{
    sheet.put(b"  (e");
    sheet.number(i);
    sheet.put(b", ");
    sheet.number(source);
    sheet.put(b", ");
    sheet.number(target);
    sheet.put(b", ");
    put_edge_label(label, sheet);
    sheet.put(b")\n");
}

fn put_edge_label(label: Option<u64>, sheet: &mut Sheet)
    ensures { Puts sheet.old sheet.new (edge_label_text label) }
{
    match label {
        Some(number) => sheet.number(number),
        None => sheet.put(b"empty"),
    }
}
