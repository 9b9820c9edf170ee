//! An index of the edges by the pair of their ends: rings of edges, one of those whose pairs fall in each bucket.

ghost use Rattle.std.specs.Prelude.{◌≡◌, ◌<◌, ◌≤◌, ◌≢◌, ◌⊎◌, ℕ, true, false, length, [], IfOk, OnOk, IsSome, IfSome};
ghost use Rattle.gp_graph.specs.Chains.{Joins};
ghost use Rattle.gp_graph.specs.inside.Slots.{slot_in};
ghost use Rattle.gp_graph.specs.inside.Pairs.{bucket_of, ring_at, pair_at, next_pair, prev_pair, SameEnds, IsIndex, IsIndexBut, AllEmpty, IndexesBut};

use crate::rings::ends_of;
use crate::slots::{EdgeSlot, Link, Ring, ends};
use gp_memory::NoMemory;
use std::alloc::Global;

/// The ends of an edge, and its link among the edges of its bucket.
#[derive(Clone, Copy)]
pub(crate) struct Pair {
    pub(crate) source: u64,
    pub(crate) target: u64,
    pub(crate) link: Link,
}

/// Rings of edges in buckets. Where there is no bucket, nothing is indexed.
pub(crate) struct PairIndex {
    pub(crate) buckets: Vec<Ring>,
    pub(crate) pairs: Vec<Pair>,
}

impl Drop for PairIndex {
    fn drop(self) {
        let PairIndex { buckets, pairs } = self;
        drop(buckets);
        drop(pairs);
    }
}

// The bucket of a pair. Targets that follow one another have buckets that do, so that they are near in memory.
fn bucket(count: u64, source: u64, target: u64) -> u64
    requires { 0 < count }
    ensures is { result ≡ bucket_of count source target }
    ensures within { result < count }
{
    let begin = source.wrapping_mul(0x9E37_79B9_7F4A_7C15) >> 32;
    begin.wrapping_add(target) % count
}

/// What the index has of an edge.
pub(crate) fn pair_of(pairs: &[Pair], e: u64) -> Pair
    ensures { result ≡ pair_at pairs.now e }
{
    if e < pairs.len() as u64 {
        pairs[e as usize]
    } else {
        Pair {
            source: 0,
            target: 0,
            link: Link { next: 0, prev: 0 },
        }
    }
}

// Lets one edge be followed by another.
fn join(pairs: &mut Vec<Pair>, from: u64, to: u64)
    requires from { from < length pairs.old.items }
    requires to { to < length pairs.old.items }
    ensures joins { Joins (next_pair pairs.old.items) (prev_pair pairs.old.items) (next_pair pairs.new.items) (prev_pair pairs.new.items) from to }
    ensures same { SameEnds pairs.old.items pairs.new.items }
    ensures size { length pairs.new.items ≡ length pairs.old.items }
{
    pairs[from as usize].link.next = to;
    pairs[to as usize].link.prev = from;
}

// Notes the ends of an edge.
fn note(pairs: &mut Vec<Pair>, e: u64, source: u64, target: u64)
    requires { e < length pairs.old.items }
    ensures ends { ((pair_at pairs.new.items e).source ≡ source) × ((pair_at pairs.new.items e).target ≡ target) }
    ensures others { (k : ℕ) → k ≢ e → pair_at pairs.new.items k ≡ pair_at pairs.old.items k }
    ensures links { (k : ℕ) → (pair_at pairs.new.items k).link ≡ (pair_at pairs.old.items k).link }
    ensures size { length pairs.new.items ≡ length pairs.old.items }
{
    let pair = &mut pairs[e as usize];
    pair.source = source;
    pair.target = target;
}

// An edge, or the one behind it in its ring.
fn first_of(pairs: &[Pair], e: u64, is_behind: bool) -> u64
    ensures { (result ≡ e) ⊎ (result ≡ next_pair pairs.now e) }
{
    if is_behind {
        pair_of(pairs, e).link.next
    } else {
        e
    }
}

// Makes room for the pairs of so many edges.
fn make_room(pairs: &mut Vec<Pair>, count: usize) -> Result<(), NoMemory>
    ensures ok { OnOk result (count ≤ length pairs.new.items) }
    ensures same { (k : ℕ) → pair_at pairs.new.items k ≡ pair_at pairs.old.items k }
    ensures size { length pairs.old.items ≤ length pairs.new.items }
{
    if pairs.len() < count {
        let none = pair_of(&[], 0);
        pairs.resize(count, none)?;
    }
    Ok(())
}

// Makes so many empty buckets in place of those before, which stay if memory is refused.
fn renew(buckets: &mut Vec<Ring>, count: usize) -> bool
    ensures renewed { result ≡ true → AllEmpty buckets.new.items }
    ensures refused { result ≡ false → buckets.new.items ≡ buckets.old.items }
{
    if buckets
        .reserve(count.saturating_sub(buckets.len()))
        .is_err()
    {
        return false;
    }
    buckets.clear();
    buckets.resize(count, Ring { first: 0, count: 0 }).is_ok()
}

impl PairIndex {
    /// An index of nothing. It takes no memory.
    pub(crate) fn new(alloc: Global) -> PairIndex
        ensures buckets { result.buckets.items ≡ [] }
        ensures pairs { result.pairs.items ≡ [] }
    {
        PairIndex {
            buckets: Vec::new(alloc),
            pairs: Vec::new(alloc),
        }
    }

    /// Puts an edge at the back of the ring of its bucket. It takes no memory.
    pub(crate) fn enter(&mut self, edges: &[Option<EdgeSlot>], e: u64)
        requires there { IsSome (slot_in edges.now e) }
        requires others { IsIndexBut self.old edges.now e }
        ensures all { IsIndex self.new edges.now }
        ensures buckets { length self.new.buckets.items ≡ length self.old.buckets.items }
        ensures pairs { length self.new.pairs.items ≡ length self.old.pairs.items }
    {
        if self.buckets.is_empty() {
            return;
        }
        let (source, target) = ends_of(edges, e);
        note(&mut self.pairs, e, source, target);
        let place = bucket(self.buckets.len() as u64, source, target);
        let ring = self.buckets[place as usize];
        let (first, last) = ends(ring, pair_of(&self.pairs, ring.first).link.prev, e);
        join(&mut self.pairs, last, e);
        join(&mut self.pairs, e, first);
        let count = ring.count + 1;
        self.buckets[place as usize] = Ring { first, count };
    }

    /// Takes an edge out of the ring of its bucket, which then begins behind it.
    pub(crate) fn leave(&mut self, edges: &[Option<EdgeSlot>], e: u64)
        requires there { IsSome (slot_in edges.now e) }
        requires all { IsIndex self.old edges.now }
        ensures { IsIndexBut self.new edges.now e }
    {
        if self.buckets.is_empty() {
            return;
        }
        let (source, target) = ends_of(edges, e);
        let link = pair_of(&self.pairs, e).link;
        join(&mut self.pairs, link.prev, link.next);
        let place = bucket(self.buckets.len() as u64, source, target);
        let count = self.buckets[place as usize].count - 1;
        let first = link.next;
        self.buckets[place as usize] = Ring { first, count };
    }

    /// Lets the ring of an edge's bucket begin at the edge, or behind it.
    pub(crate) fn begin(&mut self, edges: &[Option<EdgeSlot>], e: u64, is_behind: bool)
        requires there { IsSome (slot_in edges.now e) }
        requires all { IsIndex self.old edges.now }
        ensures { IsIndex self.new edges.now }
    {
        if self.buckets.is_empty() {
            return;
        }
        let (source, target) = ends_of(edges, e);
        let place = bucket(self.buckets.len() as u64, source, target);
        let first = first_of(&self.pairs, e, is_behind);
        self.buckets[place as usize].first = first;
    }

    /// Takes in an edge that was added. Where memory is refused for it, nothing is indexed from then on.
    pub(crate) fn add(&mut self, edges: &[Option<EdgeSlot>], e: u64)
        requires there { IsSome (slot_in edges.now e) }
        requires others { 0 < length self.old.buckets.items → IndexesBut self.old.buckets.items self.old.pairs.items edges.now e }
        ensures { IsIndex self.new edges.now }
    {
        if self.buckets.is_empty() {
            return;
        }
        if make_room(&mut self.pairs, edges.len()).is_err() {
            self.buckets.clear();
            return;
        }
        self.enter(edges, e);
        if self.buckets.len() < edges.len() {
            self.renew(edges);
        }
    }

    /// Puts all edges into twice as many buckets. Where memory is refused for these, those before stay.
    pub(crate) fn renew(&mut self, edges: &[Option<EdgeSlot>])
        requires { IsIndex self.old edges.now }
        ensures { IsIndex self.new edges.now }
    {
        if make_room(&mut self.pairs, edges.len()).is_err() {
            return;
        }
        if renew(&mut self.buckets, edges.len().saturating_mul(2).max(16)) {
            self.fill(edges);
        }
    }

    // Puts all edges into buckets that are empty.
    fn fill(&mut self, edges: &[Option<EdgeSlot>])
        requires room { length edges.now ≤ length self.old.pairs.items }
        requires empty { AllEmpty self.old.buckets.items }
        ensures { IsIndex self.new edges.now }
    {
        for e in 0..edges.len() {
            if edges[e].is_some() {
                self.enter(&edges[..e + 1], e as u64);
            }
        }
    }

    /// The ring of the bucket of a pair, or none where nothing is indexed or it has more edges than are to be.
    pub(crate) fn ring(&self, source: u64, target: u64, most: u64) -> Option<Ring>
        ensures is { IfSome result (λ r. (0 < length self.now.buckets.items) × (r ≡ ring_at self.now.buckets.items (bucket_of (length self.now.buckets.items) source target))) }
        ensures few { IfSome result (λ r. r.count ≤ most) }
    {
        if self.buckets.is_empty() {
            return None;
        }
        let place = bucket(self.buckets.len() as u64, source, target);
        let ring = self.buckets[place as usize];
        if ring.count <= most { Some(ring) } else { None }
    }

    /// The same in memory of its own.
    pub(crate) fn copy(&self, alloc: Global) -> Result<PairIndex, NoMemory>
        ensures { IfOk result (λ x. (x.buckets.items ≡ self.now.buckets.items) × (x.pairs.items ≡ self.now.pairs.items)) }
    {
        Ok(PairIndex {
            buckets: Vec::from_slice(alloc, &self.buckets)?,
            pairs: Vec::from_slice(alloc, &self.pairs)?,
        })
    }
}
