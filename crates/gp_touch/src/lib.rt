//! What a step touches, and where matches come up.
//!
//! A step touches the images of the left and of the right side of its rule. Each other node keeps what it carries and its
//! edges, so that a match whose left nodes lie elsewhere is one before the step and after it, with the same verdict. Where a
//! set of rules was blocked, a match that comes up lies at a touched node: a search for it need look nowhere else.
//!
//! `specs/Touch` says it of steps, and of two graphs that are the same but at noted nodes. `specs/Ends` says which nodes it is
//! enough to note where edges come up, go or change. `laws` has the laws; nothing calls them yet.
#![tactic(auto)]

pub mod laws;
