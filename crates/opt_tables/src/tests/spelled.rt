//! Events, answers and endings as texts.

use super::answers::Answer;
use gp_syntax::{Found, NumberKind};
use gp_system::{Fault, Gp};
use opt_cells::{Cells, Never, Traps};
use opt_core::{Core, Ending, Event, Reply, Rest};
use opt_system::{System, Verdict};
use std::alloc::Global;

/// A system whose matches, and the reasons of whose faults, have texts.
pub(crate) trait Spelled: System {
    /// The match of a word, unless memory is refused for it.
    fn found(alloc: Global, word: &str) -> Option<Self::Found>;

    /// Writes a match.
    fn put_found(found: &Self::Found, told: &mut Answer);

    /// Writes the reason of a fault, where there is one.
    fn put_reason(reason: Option<Self::Reason>, told: &mut Answer);
}

impl Spelled for Cells {
    fn found(_alloc: Global, word: &str) -> Option<usize> {
        Some(number_of(word) as usize)
    }

    fn put_found(found: &usize, told: &mut Answer) {
        told.put_number(*found as u64);
    }

    fn put_reason(_reason: Option<Never>, _told: &mut Answer) {}
}

impl Spelled for Traps {
    fn found(_alloc: Global, word: &str) -> Option<u64> {
        Some(u64::from(number_of(word)))
    }

    fn put_found(found: &u64, told: &mut Answer) {
        told.put_number(*found);
    }

    fn put_reason(reason: Option<u64>, told: &mut Answer) {
        if let Some(reason) = reason {
            told.put_number(reason);
        }
    }
}

// A match of rules is written as the rule and the image of its first node, with a slash between them.
impl<'p> Spelled for Gp<'p> {
    fn found(alloc: Global, word: &str) -> Option<Found> {
        let (rule, node) = word.split_once('/').unwrap_or((word, ""));
        let mut found = Found::new(alloc, number_of(rule));
        found.push_node(u64::from(number_of(node))).ok()?;
        Some(found)
    }

    fn put_found(found: &Found, told: &mut Answer) {
        told.put_number(u64::from(found.rule()));
        told.put("/");
        told.put_number(*found.nodes().first().unwrap_or(&0));
    }

    fn put_reason(reason: Option<Fault>, told: &mut Answer) {
        if let Some(reason) = reason {
            told.put_number(u64::from(reason.rule));
            told.put(match reason.kind {
                NumberKind::PastBits => " PastBits",
                NumberKind::ZeroDivisor => " ZeroDivisor",
            });
        }
    }
}

/// The number of a word; the greatest one for another word.
pub(crate) fn number_of(word: &str) -> u32 {
    word.parse::<u32>().unwrap_or(u32::MAX)
}

/// The event of a text such as `offer 0 1`, unless memory is refused for it.
pub(crate) fn event_of<S: Spelled>(alloc: Global, text: &str) -> Option<Event<S::Found>> {
    let (name, rest) = text.split_once(' ').unwrap_or((text, ""));
    let (told, word) = rest.split_once(' ').unwrap_or((rest, ""));
    let told = u64::from(number_of(told));
    let number = number_of(word);
    match name {
        "look" => Some(Event::Look { told, from: number }),
        "quiet" => Some(Event::Quiet {
            told,
            share: number,
        }),
        "stop" => Some(Event::Stop),
        _ => {
            let found = S::found(alloc, word)?;
            Some(if name == "offer" {
                Event::Offer { told, found }
            } else {
                Event::Fault { told, found }
            })
        }
    }
}

/// Writes matches, in brackets.
pub(crate) fn put_founds<S: Spelled>(founds: &[S::Found], told: &mut Answer) {
    told.put("[");
    let mut between = "";
    for found in founds {
        told.put(between);
        S::put_found(found, told);
        between = ", ";
    }
    told.put("]");
}

/// How a goal ended, if it has, without the reason of its fault.
pub(crate) fn word_of<R>(ending: Option<&Ending<R>>) -> &'static str {
    match ending {
        Some(Ending::Committed) => "committed",
        Some(Ending::Blocked) => "blocked",
        Some(Ending::Bound) => "bound",
        Some(Ending::Fault(_)) => "fault ",
        Some(Ending::Stopped) => "stopped",
        None => "running",
    }
}

/// Writes how a goal ended, if it has, with the reason of its fault.
pub(crate) fn put_ending<S: Spelled>(ending: Option<&Ending<S::Reason>>, told: &mut Answer) {
    told.put(word_of(ending));
    if let Some(Ending::Fault(reason)) = ending {
        S::put_reason(Some(*reason), told);
    }
}

/// Writes what a match is.
pub(crate) fn put_verdict<S: Spelled>(verdict: &Verdict<S::Reason>, told: &mut Answer) {
    match verdict {
        Verdict::Applies => told.put("applies"),
        Verdict::Faulty(reason) => {
            told.put("faulty ");
            S::put_reason(Some(*reason), told);
        }
        Verdict::No => told.put("no"),
        Verdict::NoMemory => told.put("no memory"),
    }
}

// Writes why a batch was not committed whole, if it was not.
fn put_rest<S: Spelled>(rest: Option<&Rest<S::Reason>>, told: &mut Answer) {
    match rest {
        None => {}
        Some(Rest::Stale(count)) => {
            told.put(" stale ");
            told.put_number(*count);
        }
        Some(Rest::Closed(ending)) => {
            told.put(" closed ");
            put_ending::<S>(Some(ending), told);
        }
        Some(Rest::NoMemory) => told.put(" no memory"),
    }
}

/// Writes an answer.
pub(crate) fn put_reply<S: Spelled>(reply: &Reply<S::Found, S::Reason>, told: &mut Answer) {
    match reply {
        Reply::News { entries, task } => {
            told.put("news ");
            put_founds::<S>(entries.as_slice(), told);
            told.put(" ");
            told.put_number(u64::from(*task));
        }
        Reply::Committed(place) => {
            told.put("committed ");
            told.put_number(*place);
        }
        Reply::Batched(place, count, rest) => {
            told.put("batched ");
            told.put_number(*place);
            told.put(" ");
            told.put_number(*count);
            put_rest::<S>(rest.as_ref(), told);
        }
        Reply::Stale(count) => {
            told.put("stale ");
            told.put_number(*count);
        }
        Reply::Noted => told.put("noted"),
        Reply::Closed(ending) => {
            told.put("closed ");
            put_ending::<S>(Some(ending), told);
        }
        Reply::NoMemory => told.put("no memory"),
    }
}

/// Writes the entries of a core, its items and its ending.
pub(crate) fn put_core<S: Spelled>(core: Core<S>, told: &mut Answer) {
    let (_, entries, left, ending) = core.into_parts();
    put_founds::<S>(entries.as_slice(), told);
    told.put(" ");
    told.put_number(left);
    told.put(" ");
    put_ending::<S>(ending.as_ref(), told);
}
