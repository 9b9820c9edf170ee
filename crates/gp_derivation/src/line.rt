//! The lines of scripts.

/// What a line of a script asks for.
#[derive(Clone, Copy)]
pub enum Line {
    /// A move over the next item.
    Forward,
    /// A move back over the item before.
    Back,
    /// A look at the graph.
    Show,
}
