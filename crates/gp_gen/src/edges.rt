//! The edges of hosts.

ghost use Rattle.std.specs.Prelude.{◌+◌, ◌-◌, ◌*◌, ◌<◌, ◌≤◌, [], ◌∷◌, flat_map};
ghost use Rattle.gp_gen.specs.Host.{IsSize, numbers_below, ring_edge, row_pairs, column_pairs, grid_pairs, grid_edge, host_edges};
ghost use Rattle.gp_gen.specs.Texts.{edge_lines};
ghost use Rattle.gp_gen.specs.inside.Draws.{Draws};
ghost use Rattle.gp_gen.specs.inside.Puts.{Puts};

use crate::kind::Kind;
use crate::lines::put_edge;
use crate::sheet::Sheet;
use rand_core::SeedableRng;
use rand_core::utils::NextWord;
use rand_pcg::Lcg64Xsh32;

pub(crate) fn put_edges(kind: Kind, size: u64, seed: u64, sheet: &mut Sheet)
    requires { IsSize kind size }
    ensures { Puts sheet.old sheet.new (edge_lines 0 (host_edges kind size seed)) }
{
    let mut generator = Lcg64Xsh32::seed_from_u64(seed);
    match kind {
        Kind::Closure => put_ring(size, &mut generator, sheet),
        Kind::Colour => put_grid(size, &mut generator, sheet),
        Kind::Tree => {}
    }
}

fn put_ring(size: u64, generator: &mut Lcg64Xsh32, sheet: &mut Sheet)
    requires { size ≤ 500 }
    ensures { Draws (ring_edge size) (numbers_below size) 0 sheet.old sheet.new generator.old generator.new }
{
    for i in 0..size {
        let label = generator.next_word() % 1000;
        put_edge(i, i, (i + 1) % size, Some(u64::from(label)), sheet);
    }
}

fn put_grid(size: u64, generator: &mut Lcg64Xsh32, sheet: &mut Sheet)
    requires least { 1 ≤ size }
    requires most { size ≤ 500 }
    ensures { Draws grid_edge (grid_pairs size) 0 sheet.old sheet.new generator.old generator.new }
{
    put_rows(size, generator, sheet);
    put_columns(size, generator, sheet);
}

fn put_rows(size: u64, generator: &mut Lcg64Xsh32, sheet: &mut Sheet)
    requires least { 1 ≤ size }
    requires most { size ≤ 500 }
    ensures { Draws grid_edge (flat_map (row_pairs size) (numbers_below size)) 0 sheet.old sheet.new generator.old generator.new }
{
    for row in 0..size {
        put_row(size, row, generator, sheet);
    }
}

// The edges within a row.
fn put_row(size: u64, row: u64, generator: &mut Lcg64Xsh32, sheet: &mut Sheet)
    requires below { row < size }
    requires most { size ≤ 500 }
    ensures { Draws grid_edge (row_pairs size row) (row * (size - 1)) sheet.old sheet.new generator.old generator.new }
{
    let first_node = row * size;
    let first_edge = row * (size - 1);
    for column in 0..size - 1 {
        let node = first_node + column;
        put_grid_edge(first_edge + column, node, node + 1, generator, sheet);
    }
}

fn put_columns(size: u64, generator: &mut Lcg64Xsh32, sheet: &mut Sheet)
    requires least { 1 ≤ size }
    requires most { size ≤ 500 }
    ensures { Draws grid_edge (flat_map (column_pairs size) (numbers_below (size - 1))) (size * (size - 1)) sheet.old sheet.new generator.old generator.new }
{
    let first_edge = size * (size - 1);
    for row in 0..size - 1 {
        put_between_rows(size, row, first_edge + row * size, generator, sheet);
    }
}

// The edges between a row and the next one.
fn put_between_rows(
    size: u64,
    row: u64,
    first_edge: u64,
    generator: &mut Lcg64Xsh32,
    sheet: &mut Sheet,
)
    requires below { row < size }
    requires most { size ≤ 500 }
    requires first { first_edge ≤ 500000 }
    ensures { Draws grid_edge (column_pairs size row) first_edge sheet.old sheet.new generator.old generator.new }
{
    let upper = row * size;
    let lower = (row + 1) * size;
    for column in 0..size {
        put_grid_edge(
            first_edge + column,
            upper + column,
            lower + column,
            generator,
            sheet,
        );
    }
}

fn put_grid_edge(i: u64, small: u64, great: u64, generator: &mut Lcg64Xsh32, sheet: &mut Sheet)
    ensures { Draws grid_edge ((small, great) ∷ []) i sheet.old sheet.new generator.old generator.new }
{
    if generator.next_word() % 2 == 1 {
        put_edge(i, great, small, None, sheet);
    } else {
        put_edge(i, small, great, None, sheet);
    }
}
