//! Where the next search begins.

/// Where a search begins: with the candidates from the number `start` on, of which the second that it tries is the node
/// `changed`, where one is told. It decides the order of the candidates alone: each number is as good as another.
#[derive(Clone, Copy)]
pub struct Hint {
    pub start: u64,
    pub changed: Option<u64>,
}

/// The places of left nodes whose images tell where the search after a step begins.
#[derive(Clone, Copy)]
pub(crate) struct Watched {
    /// The node at which the plan begins, where it is any node of the host.
    pub(crate) first: Option<u32>,
    /// The node that the plan chooses last among all nodes of the host.
    pub(crate) last: Option<u32>,
    /// The last node in the order of the text that the right side writes otherwise.
    pub(crate) changed: Option<u32>,
}

// The image of a left node.
fn image(nodes: &[u64], place: Option<u32>) -> Option<u64> {
    match nodes.get(place? as usize) {
        Some(n) => Some(*n),
        None => None,
    }
}

// The next number below the limit, or 0.
fn next_below(limit: u64, n: u64) -> u64 {
    if n < limit && limit - n > 1 { n + 1 } else { 0 }
}

impl Watched {
    /// The hint after the step of a match with these nodes, from the one before it. Where the match began beside the round,
    /// at the changed node, the round goes on by one.
    pub(crate) fn hint_after(&self, nodes: &[u64], before: Hint, limit: u64) -> Hint {
        let begun = image(nodes, self.first);
        let is_beside = begun.is_some() && begun == before.changed && begun != Some(before.start);
        let start = if is_beside {
            next_below(limit, before.start)
        } else {
            image(nodes, self.last).unwrap_or(before.start)
        };
        let changed = image(nodes, self.changed);
        if changed == before.changed && changed != begun {
            return Hint {
                start,
                changed: None,
            };
        }
        Hint { start, changed }
    }
}
