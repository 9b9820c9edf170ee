//! Texts of small sizes, and of the ends of the range of sizes.

use crate::tests::answers::{Answer, expect};
use gp_gen::{Kind, generate};
use gp_memory::NoMemory;
use std::alloc::Global;
use std::test::Fail;

const LINK: &str = concat!(
    "Main = link!\n",
    "link(a,b,x,y,z:list) [ (n0, x) (n1, y) (n2, z) | (e0, n0, n1, a) (e1, n1, n2, b) ]\n",
    " => [ (n0, x) (n1, y) (n2, z) | (e0, n0, n1, a) (e1, n1, n2, b) (e2, n0, n2, empty) ]\n",
    " interface = {n0, n1, n2} where not edge(n0, n2)\n",
);

const COLOURS: &str = concat!(
    "Main = {toblue, tored}!\n",
    "toblue(x,y,a:list) [ (n0, x # red) (n1, y) | (e0(B), n0, n1, a) ]\n",
    " => [ (n0, x # red) (n1, y # blue) | (e0(B), n0, n1, a) ] interface = {n0, n1}\n",
    "tored(x,y,a:list) [ (n0, x # blue) (n1, y) | (e0(B), n0, n1, a) ]\n",
    " => [ (n0, x # blue) (n1, y # red) | (e0(B), n0, n1, a) ] interface = {n0, n1}\n",
);

const GROW: &str = concat!(
    "Main = grow!\n",
    "grow(n:int) [ (n0, n) | ]\n",
    " => [ (n0, n # red) (n1, n-1) (n2, n-1) | (e0, n0, n1, empty) (e1, n0, n2, empty) ]\n",
    " interface = {n0} where n > 0\n",
);

// The words of seed 1 end in 574, 214 and 417.
const RING_OF_3: &str =
    "[\n  (0, 0)\n  (1, 1)\n  (2, 2)\n|\n  (e0, 0, 1, 574)\n  (e1, 1, 2, 214)\n  (e2, 2, 0, 417)\n]\n";

// Of these words the third is the first odd one.
const GRID_OF_4: &str = concat!(
    "[\n  (0, 0 # red)\n  (1, 1)\n  (2, 2)\n  (3, 3)\n|\n",
    "  (e0, 0, 1, empty)\n  (e1, 2, 3, empty)\n  (e2, 2, 0, empty)\n  (e3, 1, 3, empty)\n]\n",
);

const TREE_OF_2: &str = "[\n  (0, 2)\n|\n]\n";

// The texts of a workload, where there is one of this size.
fn texts_of(
    alloc: Global,
    kind: Kind,
    size: u64,
    seed: u64,
) -> Result<(Vec<u8>, Vec<u8>), NoMemory> {
    let largest = match kind {
        Kind::Closure => 500,
        Kind::Colour => 500,
        Kind::Tree => 18,
    };
    if size < 1 || size > largest {
        return Err(NoMemory);
    }
    generate(alloc, kind, size, seed)
}

// A workload, its program and its host.
type MadeRow = (Kind, u64, u64, &'static str, &'static str);

const MADE: [MadeRow; 3] = [
    (Kind::Closure, 3, 1, LINK, RING_OF_3),
    (Kind::Colour, 2, 1, COLOURS, GRID_OF_4),
    (Kind::Tree, 2, 0, GROW, TREE_OF_2),
];

// Whether the program and the host of a workload are those of the row.
fn is_made(alloc: Global, row: &MadeRow) -> Result<bool, NoMemory> {
    let texts = texts_of(alloc, row.0, row.1, row.2)?;
    Ok(texts.0.as_slice() == row.3.as_bytes() && texts.1.as_slice() == row.4.as_bytes())
}

#[test]
fn texts_are_made_from_the_words_of_the_seed(rt: HostRuntime) -> Result<(), Fail> {
    for row in &MADE {
        expect(is_made(rt.alloc(), row)?, row.4)?;
    }
    Ok(())
}

// A workload, how many bytes its host has, and how that ends.
type EndRow = (Kind, u64, u64, usize, &'static str);

const ENDS: [EndRow; 6] = [
    (Kind::Closure, 1, 7, 33, "  (e0, 0, 0, 337)\n]\n"),
    (Kind::Closure, 500, 0, 17906, "  (e499, 499, 0, 767)\n]\n"),
    (Kind::Colour, 1, 0, 21, "  (0, 0 # red)\n|\n]\n"),
    (
        Kind::Colour,
        500,
        0,
        21439298,
        "  (e498999, 249499, 249999, empty)\n]\n",
    ),
    (Kind::Tree, 1, 0, 15, "  (0, 1)\n|\n]\n"),
    (Kind::Tree, 18, 0, 16, "  (0, 18)\n|\n]\n"),
];

// Whether the host of a workload has so many bytes, and ends so.
fn ends_so(alloc: Global, row: &EndRow) -> Result<bool, NoMemory> {
    let texts = texts_of(alloc, row.0, row.1, row.2)?;
    let begins = texts.1.starts_with(b"[\n  (0, ") && texts.1.len() == row.3;
    Ok(begins && texts.1.ends_with(row.4.as_bytes()))
}

#[test]
fn the_ends_of_the_sizes_have_hosts(rt: HostRuntime) -> Result<(), Fail> {
    for row in &ENDS {
        expect(ends_so(rt.alloc(), row)?, row.4)?;
    }
    Ok(())
}
