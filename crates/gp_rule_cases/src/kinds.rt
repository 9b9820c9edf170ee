//! The kinds of rows.

use crate::rules::{choices, hints, lists, matches, searches, steps, unification, values, walks};
use crate::texts::programs::cuts;
use crate::texts::{cursors, hosts, limits, lines, parts, programs, scopes, tokens, traces};
use gp_rows::Answer;
use std::alloc::Global;

/// What the rows of a file are about.
#[derive(Clone, Copy)]
pub enum Kind {
    Text(TextKind),
    Rule(RuleKind),
}

/// Kinds about texts of programs, hosts and traces.
#[derive(Clone, Copy)]
pub enum TextKind {
    Tokens,
    TokenLines,
    Classes,
    Cursors,
    NumberLists,
    Wants,
    Integers,
    Depths,
    Ranges,
    Programs,
    Reads,
    Cuts,
    Ends,
    Arrows,
    Meanings,
    Lines,
    Sentences,
    Hosts,
    Beginnings,
    Traces,
    Names,
    Founds,
    Assignments,
}

/// Kinds about rules, matches, steps and searches.
#[derive(Clone, Copy)]
pub enum RuleKind {
    Characters,
    Choices,
    Hints,
    Join,
    Loop,
    Order,
    Plan,
    Round,
    Search,
    Step,
    Unify,
    Verdict,
    Walk,
    Worth,
}

/// The files of rows, `NAME.rows`, and the kind of each.
pub const FILES: [(&'static str, Kind); 48] = [
    ("tokens", Kind::Text(TextKind::Tokens)),
    ("token_lines", Kind::Text(TextKind::TokenLines)),
    ("classes", Kind::Text(TextKind::Classes)),
    ("cursors", Kind::Text(TextKind::Cursors)),
    ("number_lists", Kind::Text(TextKind::NumberLists)),
    ("wants", Kind::Text(TextKind::Wants)),
    ("integers", Kind::Text(TextKind::Integers)),
    ("depths", Kind::Text(TextKind::Depths)),
    ("ranges", Kind::Text(TextKind::Ranges)),
    ("programs_declared", Kind::Text(TextKind::Programs)),
    ("programs_lists", Kind::Text(TextKind::Programs)),
    ("programs_faults", Kind::Text(TextKind::Programs)),
    ("programs_flaws", Kind::Text(TextKind::Programs)),
    ("programs_numerals", Kind::Text(TextKind::Programs)),
    ("programs_depths", Kind::Text(TextKind::Reads)),
    ("programs_cuts", Kind::Text(TextKind::Cuts)),
    ("programs_ends", Kind::Text(TextKind::Ends)),
    ("programs_arrows", Kind::Text(TextKind::Arrows)),
    ("meanings", Kind::Text(TextKind::Meanings)),
    ("lines", Kind::Text(TextKind::Lines)),
    ("sentences", Kind::Text(TextKind::Sentences)),
    ("hosts", Kind::Text(TextKind::Hosts)),
    ("beginnings", Kind::Text(TextKind::Beginnings)),
    ("traces", Kind::Text(TextKind::Traces)),
    ("names", Kind::Text(TextKind::Names)),
    ("founds", Kind::Text(TextKind::Founds)),
    ("assignments", Kind::Text(TextKind::Assignments)),
    ("chains", Kind::Rule(RuleKind::Worth)),
    ("characters", Kind::Rule(RuleKind::Characters)),
    ("choices", Kind::Rule(RuleKind::Choices)),
    ("conditions", Kind::Rule(RuleKind::Worth)),
    ("degrees", Kind::Rule(RuleKind::Worth)),
    ("edges", Kind::Rule(RuleKind::Worth)),
    ("hints", Kind::Rule(RuleKind::Hints)),
    ("labels", Kind::Rule(RuleKind::Join)),
    ("loops", Kind::Rule(RuleKind::Loop)),
    ("match_causes", Kind::Rule(RuleKind::Verdict)),
    ("match_dangling", Kind::Rule(RuleKind::Verdict)),
    ("match_images", Kind::Rule(RuleKind::Verdict)),
    ("match_labels", Kind::Rule(RuleKind::Verdict)),
    ("numbers", Kind::Rule(RuleKind::Worth)),
    ("orders", Kind::Rule(RuleKind::Order)),
    ("plans", Kind::Rule(RuleKind::Plan)),
    ("rounds", Kind::Rule(RuleKind::Round)),
    ("searches", Kind::Rule(RuleKind::Search)),
    ("steps", Kind::Rule(RuleKind::Step)),
    ("unification", Kind::Rule(RuleKind::Unify)),
    ("walks", Kind::Rule(RuleKind::Walk)),
];

/// Answers a row of this kind, from all its fields but the last one.
pub fn answer(kind: Kind, alloc: Global, fields: &[&[u8]], out: &mut Answer) {
    match kind {
        Kind::Text(kind) => answer_of_text(kind, alloc, fields, out),
        Kind::Rule(kind) => answer_of_rule(kind, alloc, fields, out),
    }
}

// Answers a row about texts.
fn answer_of_text(kind: TextKind, alloc: Global, fields: &[&[u8]], out: &mut Answer) {
    match kind {
        TextKind::Tokens => tokens::answer(alloc, fields, out),
        TextKind::TokenLines => tokens::line(alloc, fields, out),
        TextKind::Classes => tokens::classes(alloc, fields, out),
        TextKind::Cursors => cursors::answer(alloc, fields, out),
        TextKind::NumberLists => cursors::lists(alloc, fields, out),
        TextKind::Wants => cursors::wants(alloc, fields, out),
        TextKind::Integers => cursors::integer(fields, out),
        TextKind::Depths => limits::depth(alloc, fields, out),
        TextKind::Ranges => limits::range(alloc, fields, out),
        TextKind::Programs => programs::answer(alloc, fields, out),
        TextKind::Reads => programs::read(alloc, fields, out),
        TextKind::Cuts => cuts::cut(alloc, fields, out),
        TextKind::Ends => cuts::ends(alloc, fields, out),
        TextKind::Arrows => cuts::arrows(alloc, fields, out),
        TextKind::Meanings => scopes::meanings(alloc, fields, out),
        TextKind::Lines => lines::answer(alloc, fields, out),
        TextKind::Sentences => lines::sentence(alloc, fields, out),
        TextKind::Hosts => hosts::answer(alloc, fields, out),
        TextKind::Beginnings => hosts::beginnings(alloc, fields, out),
        TextKind::Traces => traces::answer(alloc, fields, out),
        TextKind::Names => parts::name(alloc, fields, out),
        TextKind::Founds => parts::found(alloc, fields, out),
        TextKind::Assignments => parts::assignment(alloc, fields, out),
    }
}

// Answers a row about rules.
fn answer_of_rule(kind: RuleKind, alloc: Global, fields: &[&[u8]], out: &mut Answer) {
    match kind {
        RuleKind::Characters => lists::characters(alloc, fields, out),
        RuleKind::Choices => choices::answer(alloc, fields, out),
        RuleKind::Hints => hints::answer(alloc, fields, out),
        RuleKind::Join => lists::join(alloc, fields, out),
        RuleKind::Loop => searches::repeated(alloc, fields, out),
        RuleKind::Order => lists::order(alloc, fields, out),
        RuleKind::Plan => searches::planned(alloc, fields, out),
        RuleKind::Round => hints::round(fields, out),
        RuleKind::Search => searches::answer(alloc, fields, out),
        RuleKind::Step => steps::answer(alloc, fields, out),
        RuleKind::Unify => unification::answer(alloc, fields, out),
        RuleKind::Verdict => matches::answer(alloc, fields, out),
        RuleKind::Walk => walks::answer(alloc, fields, out),
        RuleKind::Worth => values::answer(alloc, fields, out),
    }
}
