//! The nodes of hosts.

ghost use Rattle.std.specs.Prelude.{map, flat_map};
ghost use Rattle.gp_gen.specs.Host.{IsSize, numbers_below, plain_node, grid_node, host_nodes};
ghost use Rattle.gp_gen.specs.Texts.{node_line};
ghost use Rattle.gp_gen.specs.inside.Puts.{Puts};

use crate::kind::Kind;
use crate::lines::put_node;
use crate::sheet::Sheet;

pub(crate) fn put_nodes(kind: Kind, size: u64, sheet: &mut Sheet)
    requires { IsSize kind size }
    ensures { Puts sheet.old sheet.new (flat_map node_line (host_nodes kind size)) }
{
    match kind {
        Kind::Closure => put_plain_nodes(size, sheet),
        Kind::Colour => put_grid_nodes(size * size, sheet),
        Kind::Tree => put_node(0, size, false, sheet),
    }
}

fn put_plain_nodes(count: u64, sheet: &mut Sheet)
    ensures { Puts sheet.old sheet.new (flat_map node_line (map plain_node (numbers_below count))) }
{
    for k in 0..count {
        put_node(k, k, false, sheet);
    }
}

fn put_grid_nodes(count: u64, sheet: &mut Sheet)
    ensures { Puts sheet.old sheet.new (flat_map node_line (map grid_node (numbers_below count))) }
{
    for k in 0..count {
        put_node(k, k, k == 0, sheet);
    }
}
