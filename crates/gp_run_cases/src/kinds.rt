//! The kinds of rows.

use crate::graphs::{beside, edits, hub};
use crate::runs::{
    batches, certified, commands, crews, independence, journals, moves, random, upgrades,
};
use gp_rows::Answer;
use std::alloc::Global;
use std::sync::Wait;
use std::thread::Threads;

/// What the rows of a file are about.
#[derive(Clone, Copy)]
pub enum Kind {
    Edits,
    Leads,
    Calls,
    Hubs,
    Met,
    Journals,
    Upgrades,
    Upgraded,
    Certified,
    Independence,
    Pairs,
    Batches,
    Replays,
    Parts,
    Moves,
    Commands,
    Crews,
}

/// The files of rows, `NAME.rows`, and the kind of each.
pub const FILES: [(&'static str, Kind); 17] = [
    ("edits", Kind::Edits),
    ("leads", Kind::Leads),
    ("calls", Kind::Calls),
    ("hubs", Kind::Hubs),
    ("met", Kind::Met),
    ("journals", Kind::Journals),
    ("upgrades", Kind::Upgrades),
    ("upgraded", Kind::Upgraded),
    ("certified", Kind::Certified),
    ("independence", Kind::Independence),
    ("pairs", Kind::Pairs),
    ("batches", Kind::Batches),
    ("replays", Kind::Replays),
    ("parts", Kind::Parts),
    ("moves", Kind::Moves),
    ("commands", Kind::Commands),
    ("crews", Kind::Crews),
];

/// Answers a row of this kind, from all its fields but the last one.
pub fn answer<R: Threads + Wait + Sync>(
    rt: &R,
    kind: Kind,
    alloc: Global,
    fields: &[&[u8]],
    out: &mut Answer,
) {
    match kind {
        Kind::Edits => edits::answer(alloc, fields, out),
        Kind::Leads => edits::leads(alloc, fields, out),
        Kind::Calls => beside::answer(alloc, fields, out),
        Kind::Hubs => hub::answer(alloc, fields, out),
        Kind::Met => hub::order(alloc, fields, out),
        Kind::Journals => journals::answer(alloc, fields, out),
        Kind::Upgrades => upgrades::answer(alloc, fields, out),
        Kind::Upgraded => upgrades::graph(alloc, fields, out),
        Kind::Certified => certified::answer(alloc, fields, out),
        Kind::Independence => independence::answer(alloc, fields, out),
        Kind::Pairs => independence::pairs(alloc, fields, out),
        Kind::Batches => batches::answer(alloc, fields, out),
        Kind::Replays => random::replays(alloc, fields, out),
        Kind::Parts => random::parts(alloc, fields, out),
        Kind::Moves => moves::answer(alloc, fields, out),
        Kind::Commands => commands::answer(rt, alloc, fields, out),
        Kind::Crews => crews::answer(rt, alloc, fields, out),
    }
}
