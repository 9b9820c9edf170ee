//! Kinds of rows that are about journals, commands and crews.

pub(crate) mod batches;
mod bits;
pub(crate) mod certified;
pub(crate) mod commands;
pub(crate) mod crews;
pub(crate) mod independence;
pub(crate) mod journals;
pub(crate) mod moves;
pub(crate) mod random;
mod replay;
pub(crate) mod upgrades;
