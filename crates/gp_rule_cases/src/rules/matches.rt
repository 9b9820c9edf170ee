//! Images of left nodes and left edges, and the verdict on them.

use crate::rules::cases::case_at;
use gp_match::check_match;
use gp_rows::Answer;
use std::alloc::Global;

/// The verdict on a match: what the row shows, a rule, a host, and the images.
pub(crate) fn answer(alloc: Global, fields: &[&[u8]], out: &mut Answer) {
    match case_at(alloc, fields, 1) {
        Ok(case) => out.debug(&check_match(alloc, &case.rule, &case.graph, &case.found)),
        Err(wrong) => out.wrong(wrong),
    }
}
