//! The refusal of memory: the one answer that any call which allocates may give at any growth.
//!
//! Every crate stands on this one. A call that can refuse nothing else answers `Result<_, NoMemory>`; a fault type with
//! causes of its own has a variant `NoMemory`, and its definition gives that variant the row `Free` of `specs/Free`.
//! The conversions let `?` hand on what the library's allocator answers. `proofs/Basics` has the lemmas of truth values,
//! options, lists and numbers that the proofs of several crates need.
#![tactic(auto)]

mod refusal;

pub use refusal::NoMemory;
