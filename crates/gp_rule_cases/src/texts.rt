//! Kinds of rows that are about texts.

pub(crate) mod cursors;
pub(crate) mod hosts;
pub(crate) mod limits;
pub(crate) mod lines;
pub(crate) mod parts;
pub(crate) mod programs;
pub(crate) mod scopes;
pub(crate) mod tokens;
pub(crate) mod traces;
