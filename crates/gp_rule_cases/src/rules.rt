//! Kinds of rows that are about rules, matches and steps.

mod cases;
pub(crate) mod choices;
pub(crate) mod hints;
pub(crate) mod lists;
pub(crate) mod matches;
pub(crate) mod searches;
pub(crate) mod steps;
pub(crate) mod unification;
pub(crate) mod values;
pub(crate) mod walks;
