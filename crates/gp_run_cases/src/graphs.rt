//! Kinds of rows that are about graphs in memory.

pub(crate) mod beside;
pub(crate) mod edits;
pub(crate) mod hub;
mod there;
mod told;
