//! Journals of items by chance, which are made again.

ghost use Rattle.std.specs.Prelude.{List, map};
ghost use Rattle.gp_syntax.specs.Rule.{Rule as AnyRule};
ghost use Rattle.gp_syntax.specs.Tree.{rule_of_tree};
ghost use Rattle.gp_journal.specs.Journal.{IsJournalOf};

use crate::runs::replay::{applies, are_alike, catch_up, go, rules_of};
use gp_graph::Graph;
use gp_hostfile::read_host;
use gp_journal::{Journal, Trail};
use gp_memory::NoMemory;
use gp_rows::{Answer, Wrong, field, number};
use gp_syntax::{EdgeImage, Found, Item, Items, LeftEdge, Rule};
use rand_core::SeedableRng;
use rand_core::utils::NextWord;
use rand_pcg::Lcg64Xsh32;
use std::alloc::Global;

// Some rules, a host, and a journal on it.
struct Noted {
    rules: Items<Rule>,
    host: Graph,
    journal: Journal,
}

impl Drop for Noted {
    fn drop(self) {
        let Noted {
            rules,
            host,
            journal,
        } = self;
        drop(rules);
        drop(host);
        drop(journal);
    }
}

// The rules and the host of a row, and a journal without items.
fn started(alloc: Global, fields: &[&[u8]]) -> Result<Noted, Wrong> {
    let host = read_host(alloc, field(fields, 1))?;
    let rules = rules_of(alloc, field(fields, 0))?;
    let journal = Journal::new(alloc, host.copy(alloc)?);
    Ok(Noted {
        rules,
        host,
        journal,
    })
}

/// How many items a journal has, whose graph and depth a replay from the start gives after each: some rules, a host, a seed,
/// how many items are noted, and more than how many steps have to be live, and items that take others back.
pub(crate) fn replays(alloc: Global, fields: &[&[u8]], out: &mut Answer) {
    match started(alloc, fields) {
        Ok(mut noted) => {
            let rules = noted.rules.as_slice();
            match note_all(alloc, rules, &mut noted.journal, Some(&noted.host), fields) {
                Ok(()) => put_journal(&noted.journal, number(fields, 4), out),
                Err(wrong) => out.wrong(wrong),
            }
        }
        Err(wrong) => out.wrong(wrong),
    }
}

fn put_journal(journal: &Journal, few: u64, out: &mut Answer) {
    out.number(journal.items().len() as u64);
    out.word(b"replayed");
    out.word_if(journal.depth() <= few, b"but few live");
    out.word_if(backs_in(journal.items()) <= few, b"but few taken back");
}

/// How many items a trail caught up with in each part of a journal of items by chance, which lead to the journal's graph
/// and depth: some rules, a host, a seed, how many items are noted, and where each part ends.
pub(crate) fn parts(alloc: Global, fields: &[&[u8]], out: &mut Answer) {
    match started(alloc, fields) {
        Ok(mut noted) => {
            let rules = noted.rules.as_slice();
            match note_all(alloc, rules, &mut noted.journal, None, fields) {
                Ok(()) => put_parts(alloc, rules, &noted.host, &noted.journal, fields, out),
                Err(wrong) => out.wrong(wrong),
            }
        }
        Err(wrong) => out.wrong(wrong),
    }
}

fn put_parts(
    alloc: Global,
    rules: &[Rule],
    host: &Graph,
    journal: &Journal,
    fields: &[&[u8]],
    out: &mut Answer,
) {
    match host.copy(alloc) {
        Ok(graph) => {
            let mut trail = Trail::new(alloc, graph);
            let ends = field(fields, 4);
            if let Err(wrong) = catch_parts(alloc, rules, journal, &mut trail, ends, out) {
                out.wrong(wrong);
            }
        }
        Err(error) => out.debug(&error),
    }
}

// Catches up with a journal part by part.
fn catch_parts(
    alloc: Global,
    rules: &[Rule],
    journal: &Journal,
    trail: &mut Trail,
    ends: &[u8],
    out: &mut Answer,
) -> Result<(), Wrong> {
    let mut from: usize = 0;
    for word in str::from_utf8(ends)?.split(' ') {
        let to = word.parse::<usize>()?;
        let items = journal.items().get(from..to).unwrap_or(&[]);
        let is_made = catch_up(alloc, rules, items, trail)?;
        out.word_if(!is_made, b"not");
        out.number(trail.caught());
        from = to;
    }
    stands_at(alloc, trail, journal)
}

// ---- items by chance

// As many items as a row says, from its seed; where there is a host, the items so far are replayed on it after each.
fn note_all(
    alloc: Global,
    rules: &[Rule],
    journal: &mut Journal,
    host: Option<&Graph>,
    fields: &[&[u8]],
) -> Result<(), Wrong> {
    let mut random = Lcg64Xsh32::seed_from_u64(number(fields, 2));
    for _ in 0..number(fields, 3) {
        note(alloc, rules, journal, &mut random)?;
        if let Some(host) = host {
            replay(alloc, rules, host, journal)?;
        }
    }
    Ok(())
}

/// So many items more.
pub(crate) fn note_more(
    alloc: Global,
    rules: &[Rule],
    journal: &mut Journal,
    count: u64,
    random: &mut Lcg64Xsh32,
) -> Result<(), Wrong>
    ensures of_rules { IsJournalOf (map rule_of_tree rules.now) journal.old → IsJournalOf (map rule_of_tree rules.now) journal.new }
{
    for _ in 0..count {
        note(alloc, rules, journal, random)?;
    }
    Ok(())
}

// One more item.
fn note(
    alloc: Global,
    rules: &[Rule],
    journal: &mut Journal,
    random: &mut Lcg64Xsh32,
) -> Result<(), Wrong>
    ensures of_rules { IsJournalOf (map rule_of_tree rules.now) journal.old → IsJournalOf (map rule_of_tree rules.now) journal.new }
{
    match below(random, 8) {
        0 => Ok(journal.turn()?),
        1 | 2 => Ok(back(journal, random)?),
        _ => step(alloc, rules, journal, random),
    }
}

// Takes back some of the last steps.
fn back(journal: &mut Journal, random: &mut Lcg64Xsh32) -> Result<(), NoMemory>
    ensures of_rules { (rules : List AnyRule) → IsJournalOf rules journal.old → IsJournalOf rules journal.new }
{
    let live = journal.mark()?;
    let most = if live < 4 { live } else { 4 };
    let count = below(random, most + 1);
    if count <= live {
        journal.back(count);
    }
    Ok(())
}

// Makes a step of a rule that is drawn, with a guess that is a match that applies.
fn step(
    alloc: Global,
    rules: &[Rule],
    journal: &mut Journal,
    random: &mut Lcg64Xsh32,
) -> Result<(), Wrong>
    ensures of_rules { IsJournalOf (map rule_of_tree rules.now) journal.old → IsJournalOf (map rule_of_tree rules.now) journal.new }
{
    for _ in 0..1000 {
        let found = guess(alloc, rules, journal.graph(), random)?;
        if applies(alloc, rules, journal.graph(), &found) {
            return Ok(journal.step(rules, &found)?);
        }
    }
    Err(Wrong::new("no match is found"))
}

// A rule that is drawn, and images of its nodes, or of an edge and its ends: it may be a match.
fn guess(
    alloc: Global,
    rules: &[Rule],
    graph: &Graph,
    random: &mut Lcg64Xsh32,
) -> Result<Found, NoMemory> {
    let number = u32::try_from(below(random, rules.len() as u64)).unwrap_or(0);
    let mut found = Found::new(alloc, number);
    if let Some(rule) = rules.get(number as usize) {
        match rule.parts().left_edges.as_slice().first() {
            Some(left) => guess_edge(left, graph, random, &mut found)?,
            None => {
                for _ in 0..rule.parts().left_nodes.len() {
                    found.push_node(below(random, graph.next_numbers().0))?;
                }
            }
        }
    }
    Ok(found)
}

fn guess_edge(
    left: &LeftEdge,
    graph: &Graph,
    random: &mut Lcg64Xsh32,
    found: &mut Found,
) -> Result<(), NoMemory> {
    let number = below(random, graph.next_numbers().1);
    let reversed = left.bidirectional && below(random, 2) == 1;
    if let Some((source, target, _, _)) = graph.edge(number) {
        found.push_node(if reversed { target } else { source })?;
        found.push_node(if reversed { source } else { target })?;
        found.push_edge(EdgeImage::new(number, reversed))?;
    }
    Ok(())
}

/// A number below another one that is drawn; 0, if that is 0.
pub(crate) fn below(random: &mut Lcg64Xsh32, count: u64) -> u64 {
    u64::from(random.next_word())
        .checked_rem(count)
        .unwrap_or(0)
}

// ---- replays

// Makes the items one by one from the start.
fn replay(alloc: Global, rules: &[Rule], host: &Graph, journal: &Journal) -> Result<(), Wrong> {
    let mut trail = Trail::new(alloc, host.copy(alloc)?);
    for item in journal.items() {
        if !go(alloc, rules, item, &mut trail)? {
            return Err(Wrong::new("an item may not be made"));
        }
    }
    stands_at(alloc, &trail, journal)
}

// Fails unless the trail has the journal's graph and depth.
fn stands_at(alloc: Global, trail: &Trail, journal: &Journal) -> Result<(), Wrong> {
    let (graph, other) = (trail.graph(), journal.graph());
    if graph.next_numbers() == other.next_numbers()
        && trail.depth() == journal.depth()
        && are_alike(alloc, graph, other)?
    {
        Ok(())
    } else {
        Err(Wrong::new("a replay leads elsewhere"))
    }
}

fn backs_in(items: &[Item]) -> u64 {
    let mut count: u64 = 0;
    for item in items {
        if let Item::Back(_) = item {
            count = count.saturating_add(1);
        }
    }
    count
}
