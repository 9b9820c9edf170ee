//! Rounds of numbers, and where they begin after a step.

use crate::rules::cases::{found_of, rule_of};
use crate::rules::searches::share_at;
use gp_plan::{Hint, numbers_of_share, plan};
use gp_rows::{Answer, Wrong, field, number, text_at};
use std::alloc::Global;

// A start, such as `4`, or one with the node that was changed, such as `4 then 1`.
fn hint_at(fields: &[&[u8]], place: usize) -> Result<Hint, Wrong> {
    let text = text_at(fields, place)?;
    match text.split_once(" then ") {
        Some((start, changed)) => Ok(Hint {
            start: start.parse::<u64>()?,
            changed: Some(changed.parse::<u64>()?),
        }),
        None => Ok(Hint {
            start: text.parse::<u64>()?,
            changed: None,
        }),
    }
}

fn put_hint(hint: Hint, out: &mut Answer) {
    out.number(hint.start);
    if let Some(changed) = hint.changed {
        out.word(b"then");
        out.number(changed);
    }
}

/// The hint after a step: a rule, its match, the hint before, and the number below which all are.
pub(crate) fn answer(alloc: Global, fields: &[&[u8]], out: &mut Answer) {
    match hint_after(alloc, fields) {
        Ok(hint) => put_hint(hint, out),
        Err(wrong) => out.wrong(wrong),
    }
}

fn hint_after(alloc: Global, fields: &[&[u8]]) -> Result<Hint, Wrong> {
    let rule = rule_of(alloc, field(fields, 0))?;
    let found = found_of(alloc, field(fields, 1))?;
    let before = hint_at(fields, 2)?;
    let plan = plan(alloc, &rule)?;
    Ok(plan.hint_after(found.nodes(), before, number(fields, 3)))
}

/// The numbers of a share in their order: the number below which they are, the hint, and which share of how many.
pub(crate) fn round(fields: &[&[u8]], out: &mut Answer) {
    match hint_at(fields, 1) {
        Ok(hint) => put_round(fields, hint, out),
        Err(wrong) => out.wrong(wrong),
    }
}

fn put_round(fields: &[&[u8]], hint: Hint, out: &mut Answer) {
    match share_at(fields, 2) {
        Ok((share, shares)) => {
            let limit = number(fields, 0);
            let mut round = numbers_of_share(limit, hint, share, shares);
            out.word(b"numbers");
            for _ in 0..limit {
                if let Some(number) = round.next() {
                    out.number(number);
                }
            }
            out.word_if(round.next().is_some(), b"and more");
        }
        Err(wrong) => out.wrong(wrong),
    }
}
