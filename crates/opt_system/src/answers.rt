//! What the calls of a system answer.

/// How often a goal's matches are taken.
#[derive(Clone, Copy, PartialEq, Eq)]
pub enum Mode {
    /// One match is taken.
    Once,
    /// Matches are taken until none is left.
    Saturate,
}

/// What a match is for a goal in a state.
#[derive(Drop)]
pub enum Verdict<R> {
    Applies,
    /// It is a match of the goal, but its step is not defined, for this reason.
    Faulty(R),
    /// It neither applies nor is faulty.
    No,
    /// Memory was refused.
    NoMemory,
}

/// What the search of a share found.
#[derive(Drop)]
pub enum Sought<F, R> {
    Applies(F),
    Faulty(F, R),
    /// No match of the share applies or is faulty.
    Barren,
    /// Memory was refused.
    NoMemory,
}
