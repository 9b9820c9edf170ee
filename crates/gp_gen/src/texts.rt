//! The two texts of a workload.

ghost use Rattle.std.specs.Prelude.{◌≡◌, IfOk};
ghost use Rattle.gp_gen.specs.Host.{IsSize};
ghost use Rattle.gp_gen.specs.Texts.{program_text, host_text};

use crate::edges::put_edges;
use crate::kind::Kind;
use crate::nodes::put_nodes;
use crate::sheet::Sheet;
use gp_memory::NoMemory;
use std::alloc::Global;

/// The program text and the host text of a kind, a size and a seed.
pub fn generate(
    alloc: Global,
    kind: Kind,
    size: u64,
    seed: u64,
) -> Result<(Vec<u8>, Vec<u8>), NoMemory>
    requires { IsSize kind size }
    ensures program { IfOk result (λ t. t.0.items ≡ program_text kind) }
    ensures host { IfOk result (λ t. t.1.items ≡ host_text kind size seed) }
{
    let program = Vec::from_slice(alloc, program_text(kind).as_bytes())?;
    let host = host_text(alloc, kind, size, seed)?;
    Ok((program, host))
}

fn program_text(kind: Kind) -> &'static str
    ensures { result.now ≡ program_text kind }
{
    match kind {
        Kind::Closure => concat!(
            "Main = link!\n",
            "link(a,b,x,y,z:list) [ (n0, x) (n1, y) (n2, z) | (e0, n0, n1, a) (e1, n1, n2, b) ]\n",
            " => [ (n0, x) (n1, y) (n2, z) | (e0, n0, n1, a) (e1, n1, n2, b) (e2, n0, n2, empty) ]\n",
            " interface = {n0, n1, n2} where not edge(n0, n2)\n",
        ),
        Kind::Colour => concat!(
            "Main = {toblue, tored}!\n",
            "toblue(x,y,a:list) [ (n0, x # red) (n1, y) | (e0(B), n0, n1, a) ]\n",
            " => [ (n0, x # red) (n1, y # blue) | (e0(B), n0, n1, a) ] interface = {n0, n1}\n",
            "tored(x,y,a:list) [ (n0, x # blue) (n1, y) | (e0(B), n0, n1, a) ]\n",
            " => [ (n0, x # blue) (n1, y # red) | (e0(B), n0, n1, a) ] interface = {n0, n1}\n",
        ),
        Kind::Tree => concat!(
            "Main = grow!\n",
            "grow(n:int) [ (n0, n) | ]\n",
            " => [ (n0, n # red) (n1, n-1) (n2, n-1) | (e0, n0, n1, empty) (e1, n0, n2, empty) ]\n",
            " interface = {n0} where n > 0\n",
        ),
    }
}

fn host_text(alloc: Global, kind: Kind, size: u64, seed: u64) -> Result<Vec<u8>, NoMemory>
    requires { IsSize kind size }
    ensures { IfOk result (λ t. t.items ≡ host_text kind size seed) }
{
    let mut sheet = Sheet::new(Vec::with_capacity(alloc, room(kind, size))?);
    sheet.put(b"[\n");
    put_nodes(kind, size, &mut sheet);
    sheet.put(b"|\n");
    put_edges(kind, size, seed, &mut sheet);
    sheet.put(b"]\n");
    sheet.into_text()
}

// How many bytes a host takes, about.
fn room(kind: Kind, size: u64) -> usize
    requires { IsSize kind size }
{
    let bytes = match kind {
        Kind::Closure => 50 * size,
        Kind::Colour => 90 * size * size,
        Kind::Tree => 32,
    };
    bytes as usize
}
