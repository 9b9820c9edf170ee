//! Where a match lies, and what a run leaves a record of.

ghost use Rattle.std.specs.Prelude.{◌≡◌, [], ◌∷◌, ◌++◌, map, IfOk, OnOk, OnErr, MatchOption};

use gp_memory::NoMemory;
use smallvec::SmallVec;
use std::alloc::Global;
use std::marker::Model;

/// So many numbers of nodes, and so many images of edges, stand in a match itself; more take memory.
pub const INLINE_NODES: usize = 3;

pub const INLINE_EDGES: usize = 2;

const HALF: u64 = 1 << 32;

/// The image of a left edge: its number, and whether it was matched reversed. It takes 12 bytes, since its number is in two
/// halves; with a number in one it would take 16. Contracts see the number and the direction.
#[derive(Clone, Copy, Default)]
pub struct EdgeImage {
    high: u32,
    low: u32,
    reversed: bool,
}

impl Model for EdgeImage {
    ghost use Rattle.std.specs.Prelude.{◌+◌, ◌*◌, ◌/◌, ◌%◌, ◌^◌, ◌<◌};
    ghost use Rattle.std.proofs.lemmas.Nat.{div-mul-add, mod-mul-add};
    ghost use Rattle.gp_syntax.specs.Images.{EdgeImage as Image};

    ghost Value = { Image };

    ghost view = { λ a. record { number = a.high * 2 ^ 32 + a.low; reversed = a.reversed } };

    ghost invariant = { λ a. a.low < 2 ^ 32 };

    ghost inverse = { λ i. record { high = i.number / 2 ^ 32; low = i.number % 2 ^ 32; reversed = i.reversed } };

    ghost inverse_ok = { λ a h. λ z. record { high = div-mul-add a.high (2 ^ 32) a.low h z; low = mod-mul-add a.high (2 ^ 32) a.low h z; reversed = a.reversed } };
}

impl EdgeImage {
    /// The image by this number, in this direction.
    pub fn new(number: u64, reversed: bool) -> EdgeImage
        ensures { result ≡ record { number = number; reversed = reversed } }
    {
        EdgeImage {
            high: (number / HALF) as u32,
            low: (number % HALF) as u32,
            reversed,
        }
    }

    /// The number.
    pub fn number(&self) -> u64
        ensures { result ≡ self.now.number }
    {
        u64::from(self.high) * HALF + u64::from(self.low)
    }

    /// Whether it was matched reversed.
    pub fn reversed(&self) -> bool
        ensures { result ≡ self.now.reversed }
    {
        self.reversed
    }
}

/// Where a match lies: the number of its rule and the images of left nodes and left edges, in the order of the left
/// side's text. Contracts see the directions and the numbers as lists of their own.
pub struct Found {
    rule: u32,
    nodes: SmallVec<u64, { INLINE_NODES }>,
    edges: SmallVec<EdgeImage, { INLINE_EDGES }>,
}

impl Drop for Found {
    fn drop(self) {
        let Found {
            rule: _,
            nodes,
            edges,
        } = self;
        drop(nodes);
        drop(edges);
    }
}

impl Model for Found {
    ghost use Rattle.gp_syntax.specs.Rule.{Found as Numbers};

    ghost Value = { Numbers };

    ghost use Rattle.gp_syntax.specs.Images.{found_of};

    ghost view = { λ a. found_of a.rule a.nodes.items a.edges.items };
}

impl Found {
    /// The match of this rule that has no images yet. It takes no memory.
    pub fn new(alloc: Global, rule: u32) -> Found
        ensures { result ≡ record { rule = rule; reversed = []; nodes = []; edges = [] } }
    {
        Found {
            rule,
            nodes: SmallVec::new(alloc),
            edges: SmallVec::new(alloc),
        }
    }

    /// The number of the rule.
    pub fn rule(&self) -> u32
        ensures { result ≡ self.now.rule }
    {
        self.rule
    }

    /// The numbers of the nodes.
    pub fn nodes(&self) -> &[u64]
        ensures { result.now ≡ self.now.nodes }
    {
        self.nodes.as_slice()
    }

    /// The images of the edges.
    pub fn edges(&self) -> &[EdgeImage]
        ensures numbers { map (λ i. i.number) result.now ≡ self.now.edges }
        ensures directions { map (λ i. i.reversed) result.now ≡ self.now.reversed }
    {
        self.edges.as_slice()
    }

    /// Writes the number of the rule.
    pub fn set_rule(&mut self, rule: u32)
        ensures { self.new ≡ record self.old { rule = rule } }
    {
        self.rule = rule;
    }

    /// Puts the image of one more left node at the end. On refusal the match is as before.
    pub fn push_node(&mut self, number: u64) -> Result<(), NoMemory>
        ensures ok { OnOk result (self.new ≡ record self.old { nodes = self.old.nodes ++ number ∷ [] }) }
        ensures err { OnErr result (self.new ≡ self.old) }
    {
        self.nodes.push(number)?;
        Ok(())
    }

    /// Puts the image of one more left edge at the end. On refusal the match is as before.
    pub fn push_edge(&mut self, image: EdgeImage) -> Result<(), NoMemory>
        ensures ok { OnOk result (self.new ≡ record self.old { edges = self.old.edges ++ image.number ∷ []; reversed = self.old.reversed ++ image.reversed ∷ [] }) }
        ensures err { OnErr result (self.new ≡ self.old) }
    {
        self.edges.push(image)?;
        Ok(())
    }

    /// A copy of its own memory.
    pub fn copy(&self, alloc: Global) -> Result<Found, NoMemory>
        ensures { IfOk result (λ m. m ≡ self.now) }
    {
        Ok(Found {
            rule: self.rule,
            nodes: SmallVec::from_slice(alloc, self.nodes.as_slice())?,
            edges: SmallVec::from_slice(alloc, self.edges.as_slice())?,
        })
    }
}

/// What a run leaves a record of: a step by a match, the beginning of a turn of a loop, and that the last so many live
/// steps were taken back.
#[derive(Drop)]
pub enum Item {
    Step(Found),
    Turn,
    Back(u64),
}

impl Item {
    /// A copy of its own memory.
    pub fn copy(&self, alloc: Global) -> Result<Item, NoMemory>
        ensures { IfOk result (λ i. i ≡ self.now) }
    {
        match self {
            Item::Step(found) => Ok(Item::Step(found.copy(alloc)?)),
            Item::Turn => Ok(Item::Turn),
            Item::Back(count) => Ok(Item::Back(*count)),
        }
    }
}
