//! The forms of traces.

/// Which step the items of a trace are of; the first line of its text tells.
#[derive(Clone, Copy, Debug, PartialEq, Eq)]
pub enum Version {
    /// The step that made all edges of the right side anew, as it was until edges kept their number.
    One,
    /// The step that leaves an edge which is on both sides its number.
    Two,
}
