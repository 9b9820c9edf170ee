//! Traces of version 1 that are brought up to date.

use crate::runs::replay::{catch_up, text_of};
use gp_derivation::{UpgradeFault, upgrade};
use gp_hostfile::read_host;
use gp_journal::Trail;
use gp_reader::read_rules;
use gp_rows::{Answer, Wrong, field};
use gp_syntax::{Item, Rule};
use gp_trace::{read_trace, write_trace};
use std::alloc::Global;

type Upgraded = Result<Vec<Item>, UpgradeFault>;

// The items of version 2 of a host and a trace of version 1, by these rules.
fn upgraded(alloc: Global, rules: &[Rule], fields: &[&[u8]]) -> Result<Upgraded, Wrong> {
    let host = read_host(alloc, field(fields, 1))?;
    let (_, items) = read_trace(alloc, field(fields, 2))?;
    Ok(upgrade(alloc, rules, host, &items))
}

/// The trace of version 2, or the first item that does not replay: a program, a host, and the trace of version 1.
pub(crate) fn answer(alloc: Global, fields: &[&[u8]], out: &mut Answer) {
    match trace_of(alloc, fields) {
        Ok(Ok(text)) => out.word(&text),
        Ok(Err(fault)) => out.show(&fault),
        Err(wrong) => out.wrong(wrong),
    }
}

fn trace_of(alloc: Global, fields: &[&[u8]]) -> Result<Result<Vec<u8>, UpgradeFault>, Wrong> {
    let rules = read_rules(alloc, field(fields, 0))?;
    match upgraded(alloc, rules.as_slice(), fields)? {
        Ok(items) => {
            let mut text = Vec::new(alloc);
            write_trace(alloc, &items, &mut text)?;
            Ok(Ok(text))
        }
        Err(fault) => Ok(Err(fault)),
    }
}

/// The text of the graph to which that trace leads from the host, its edges sorted and without their names.
pub(crate) fn graph(alloc: Global, fields: &[&[u8]], out: &mut Answer) {
    out.take(graph_of(alloc, fields));
}

fn graph_of(alloc: Global, fields: &[&[u8]]) -> Result<Vec<u8>, Wrong> {
    let rules = read_rules(alloc, field(fields, 0))?;
    let Ok(items) = upgraded(alloc, rules.as_slice(), fields)? else {
        return Err(Wrong::new("an item does not replay"));
    };
    let host = read_host(alloc, field(fields, 1))?;
    let mut trail = Trail::new(alloc, host);
    if !catch_up(alloc, rules.as_slice(), &items, &mut trail)? {
        return Err(Wrong::new("an item may not be made"));
    }
    let text = text_of(alloc, trail.graph())?;
    without_names(alloc, &text)
}

// The lines of a graph's text, those of edges sorted and without their names.
fn without_names(alloc: Global, text: &[u8]) -> Result<Vec<u8>, Wrong> {
    let mut lines = Vec::new(alloc);
    let mut edges = Vec::new(alloc);
    for line in text.split(|byte| *byte == b'\n') {
        match line.strip_prefix(b"  (e") {
            Some(rest) => edges.push(behind_name(rest))?,
            None if line.is_empty() => (),
            None => lines.push(line)?,
        }
    }
    edges.sort_unstable();
    let mut joined = Vec::new(alloc);
    for line in lines.iter().chain(edges.iter()) {
        joined.extend_from_slice(*line)?;
        joined.push(b'\n')?;
    }
    Ok(joined)
}

// What stands behind the first comma.
fn behind_name(line: &[u8]) -> &[u8] {
    for i in 0..line.len() {
        if line[i] == b',' {
            return line.get(i..).unwrap_or(&[]);
        }
    }
    line
}
