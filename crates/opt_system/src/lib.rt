//! The interface of a system of states and matches that several workers search at the same time, with its laws.
//!
//! Implement `System`: its ghost member `means` is the meaning as plain data (what a match is in a state, the state after
//! its step, the state with a step taken back, the shares of a goal, which matches are independent), and each call answers by
//! it. `check` says what a match is, `seek` searches one share of a goal, `more` finds further matches that are independent of
//! those that are held, `apply` makes a step, and `back` takes steps back without taking memory.
//!
//! The meaning and the laws that it keeps are in `specs/Meaning`, what `check` and `seek` answer in `specs/Answers`, and what
//! `more` keeps and reaches in `specs/Batch`.
//! Two systems for tests are the crate `opt_cells`.
#![tactic(auto)]

mod answers;
mod system;

pub use answers::{Mode, Sought, Verdict};
pub use system::System;
