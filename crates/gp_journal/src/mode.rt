//! How often the matches of a goal are taken.

/// Whether one match of a goal is taken, or matches are until none is left: then each has a turn behind it.
#[derive(Clone, Copy)]
pub enum Mode {
    Once,
    Saturate,
}
