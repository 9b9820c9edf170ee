//! Edits by their words, what each gives back, and what is left: nodes and edges, degrees and walks.

ghost use Rattle.std.specs.Prelude.{◌≡◌, ◌↔◌, ◌<◌, ◌-◌, ℕ, IsTrue, IsSome, None};
ghost use Rattle.gp_values.specs.Graph.{node_at};
ghost use Rattle.gp_graph.specs.Walks.{BeginsAt, EndsAt};

use crate::graphs::there::{
    ends_with_no_edge, ends_with_no_node, has_edge, has_node, is_free, is_vacant_edge,
    is_vacant_node, label,
};
use crate::graphs::told::{edge_word, put_carried, put_ends, put_graph, put_label};
use gp_graph::Graph;
use gp_rows::{Answer, Wrong, field, number};
use gp_values::{EdgeMark, NodeMark};
use std::alloc::Global;

/// What edits give back, each with the hints behind it, and what a copy has then: edits that are made before, and these.
/// The copy is edited then: where it does not stand alone, this is said behind it.
pub(crate) fn answer(alloc: Global, fields: &[&[u8]], out: &mut Answer) {
    let mut graph = Graph::new(alloc);
    make_before(alloc, field(fields, 0), &mut graph, out);
    make_edits(alloc, field(fields, 1), &mut graph, out);
    match graph.copy(alloc) {
        Ok(mut copied) => compare(alloc, &graph, &mut copied, out),
        Err(error) => out.debug(&error),
    }
}

// Tells a copy, and edits it.
fn compare(alloc: Global, graph: &Graph, copied: &mut Graph, out: &mut Answer) {
    let left = told(alloc, copied);
    out.word(b"=>");
    out.put(b" ");
    out.put(left.text());
    out.word_if(
        copied.start() != graph.start() || copied.changed() != graph.changed(),
        b"but its copy has other hints",
    );
    make_edits(
        alloc,
        b"label 0 9 Blue root",
        copied,
        &mut Answer::new(alloc),
    );
    out.word_if(
        is_told(alloc, copied, &left),
        b"but its copy stays the same",
    );
    out.word_if(!is_told(alloc, graph, &left), b"but it follows its copy");
}

fn told(alloc: Global, graph: &Graph) -> Answer {
    let mut told = Answer::new(alloc);
    put_graph(alloc, graph, &mut told);
    told
}

fn is_told(alloc: Global, graph: &Graph, wanted: &Answer) -> bool {
    told(alloc, graph).text() == wanted.text()
}

/// Whether each edge that begins at a node ends at another: the edits that make the graph, and both nodes.
pub(crate) fn leads(alloc: Global, fields: &[&[u8]], out: &mut Answer) {
    let mut graph = Graph::new(alloc);
    make_before(alloc, field(fields, 0), &mut graph, out);
    let (n, target) = (number(fields, 1), number(fields, 2));
    if has_node(&graph, n) {
        let is_so = leads_only_to(&graph, n, target);
        out.word(if is_so { b"yes" } else { b"no" });
    }
}

// Whether each edge that begins at a node ends at another.
fn leads_only_to(graph: &Graph, n: u64, target: u64) -> bool
    requires { IsSome (node_at graph.now.graph n) }
    ensures { IsTrue result → (e : ℕ) → BeginsAt graph.now.graph n e → EndsAt graph.now.graph target e }
{
    for e in graph.out_edges(n) {
        match graph.edge(e) {
            Some((_, end, _, _)) if end == target => {}
            Some(_) => return false,
            None => unreachable!(),
        }
    }
    true
}

// ---- edits

// Makes edits of which nothing is told.
fn make_before(alloc: Global, text: &[u8], graph: &mut Graph, out: &mut Answer) {
    let mut given = Answer::new(alloc);
    make_edits(alloc, text, graph, &mut given);
    if !given.is_answer() {
        out.wrong(Wrong::new("wrong edits"));
    }
}

/// Makes edits, such as `node 10 Red root; edge 0 0 20 Dashed`. Writes what each gives back, and the hints behind it.
pub(crate) fn make_edits(alloc: Global, text: &[u8], graph: &mut Graph, out: &mut Answer) {
    for part in text.split(|byte| *byte == b';') {
        if let Err(wrong) = make_edit(alloc, part, graph, out) {
            out.wrong(wrong);
        }
        put_hints(graph, out);
    }
}

// The start, and the node that was changed where one is told.
fn put_hints(graph: &Graph, out: &mut Answer) {
    out.word(b"(");
    out.put_number(graph.start());
    if let Some(changed) = graph.changed() {
        out.put(b" ");
        out.put_number(changed);
    }
    out.put(b");");
}

/// Makes an edit, such as `cut 1`. Writes what it gives back.
pub(crate) fn make_edit(
    alloc: Global,
    text: &[u8],
    graph: &mut Graph,
    out: &mut Answer,
) -> Result<(), Wrong> {
    let mut words = Vec::new(alloc);
    for word in text.split(|byte| *byte == b' ') {
        if !word.is_empty() {
            words.push(word)?;
        }
    }
    make(alloc, graph, &words, out)
}

// Makes the edit of these words.
fn make(alloc: Global, graph: &mut Graph, words: &[&[u8]], out: &mut Answer) -> Result<(), Wrong> {
    let word = field(words, 0);
    if word == b"node".as_slice() {
        return add_node(alloc, graph, words, out);
    }
    if word == b"edge".as_slice() {
        return add_edge(alloc, graph, words, out);
    }
    if word == b"label".as_slice() {
        return relabel(alloc, graph, words, out);
    }
    if word == b"relabel-edge".as_slice() {
        return relabel_edge(alloc, graph, words, out);
    }
    if word == b"cut".as_slice() {
        return cut(alloc, graph, words, out);
    }
    if word == b"gone".as_slice() {
        return gone(alloc, graph, words, out);
    }
    make_other(alloc, graph, words)
}

// Makes the edit of these words, which gives nothing back.
fn make_other(alloc: Global, graph: &mut Graph, words: &[&[u8]]) -> Result<(), Wrong> {
    let word = field(words, 0);
    if word == b"put-node".as_slice() {
        return put_node(alloc, graph, words);
    }
    if word == b"put-edge".as_slice() {
        return put_edge(alloc, graph, words);
    }
    if word == b"begin-at".as_slice() || word == b"begin-behind".as_slice() {
        return turn(graph, words);
    }
    if word == b"reserve".as_slice() {
        return Ok(graph.reserve(number(words, 1), number(words, 2))?);
    }
    if word == b"drop".as_slice() {
        lower(graph);
        return Ok(());
    }
    if word == b"index".as_slice() {
        graph.index_edges();
        return Ok(());
    }
    if word == b"hints".as_slice() {
        set_hints(graph, words);
        return Ok(());
    }
    Err(Wrong::new("no edit"))
}

// `hints 3 1`, or `hints 3`.
fn set_hints(graph: &mut Graph, words: &[&[u8]]) {
    let changed = if words.len() > 2 {
        Some(number(words, 2))
    } else {
        None
    };
    graph.set_hints(number(words, 1), changed);
}

fn node_mark(word: &[u8]) -> NodeMark {
    match word {
        [b'R', ..] => NodeMark::Red,
        [b'B', ..] => NodeMark::Blue,
        [b'G', _, _, b'e', _] => NodeMark::Green,
        [b'G', ..] => NodeMark::Grey,
        _ => NodeMark::None,
    }
}

fn edge_mark(word: &[u8]) -> EdgeMark {
    match word.first() {
        Some(b'R') => EdgeMark::Red,
        Some(b'B') => EdgeMark::Blue,
        Some(b'D') => EdgeMark::Dashed,
        _ => EdgeMark::None,
    }
}

fn is_root(words: &[&[u8]], place: usize) -> bool {
    field(words, place) == b"root".as_slice()
}

// `node 10 Red root`: the number of the new node.
fn add_node(
    alloc: Global,
    graph: &mut Graph,
    words: &[&[u8]],
    out: &mut Answer,
) -> Result<(), Wrong> {
    let list = label(alloc, number(words, 1))?;
    out.number(graph.add_node(list, node_mark(field(words, 2)), is_root(words, 3))?);
    Ok(())
}

// `edge 0 1 20 Dashed`: the number of the new edge.
fn add_edge(
    alloc: Global,
    graph: &mut Graph,
    words: &[&[u8]],
    out: &mut Answer,
) -> Result<(), Wrong> {
    let (source, target) = (number(words, 1), number(words, 2));
    if !(has_node(graph, source) && has_node(graph, target)) {
        return Err(Wrong::new("an end is not there"));
    }
    let list = label(alloc, number(words, 3))?;
    out.number(graph.add_edge(source, target, list, edge_mark(field(words, 4)))?);
    Ok(())
}

// `label 2 7 Green root`: the label from before.
fn relabel(
    alloc: Global,
    graph: &mut Graph,
    words: &[&[u8]],
    out: &mut Answer,
) -> Result<(), Wrong> {
    let n = number(words, 1);
    if !has_node(graph, n) {
        return Err(Wrong::new("the node is not there"));
    }
    let list = label(alloc, number(words, 2))?;
    let old = graph.relabel(n, list, node_mark(field(words, 3)), is_root(words, 4));
    put_label(alloc, &old, out);
    Ok(())
}

// `relabel-edge 1 20 Dashed`: the label from before.
fn relabel_edge(
    alloc: Global,
    graph: &mut Graph,
    words: &[&[u8]],
    out: &mut Answer,
) -> Result<(), Wrong> {
    let e = number(words, 1);
    if !has_edge(graph, e) {
        return Err(Wrong::new("the edge is not there"));
    }
    let list = label(alloc, number(words, 2))?;
    let old = graph.relabel_edge(e, list, edge_mark(field(words, 3)));
    put_label(alloc, &old, out);
    Ok(())
}

// `cut 1`: what the edge was.
fn cut(alloc: Global, graph: &mut Graph, words: &[&[u8]], out: &mut Answer) -> Result<(), Wrong> {
    let e = number(words, 1);
    if !has_edge(graph, e) {
        return Err(Wrong::new("the edge is not there"));
    }
    let (source, target, list, mark) = graph.remove_edge(e);
    put_ends(source, target, out);
    put_label(alloc, &list, out);
    out.word(edge_word(mark).as_bytes());
    Ok(())
}

// `gone 1`: what the node was.
fn gone(alloc: Global, graph: &mut Graph, words: &[&[u8]], out: &mut Answer) -> Result<(), Wrong> {
    let n = number(words, 1);
    if !(has_node(graph, n) && is_free(graph, n)) {
        return Err(Wrong::new("the node is not free"));
    }
    let (list, mark, is_root) = graph.remove_node(n);
    put_carried(alloc, &list, mark, is_root, out);
    Ok(())
}

// `put-node 1 10 Red root`
fn put_node(alloc: Global, graph: &mut Graph, words: &[&[u8]]) -> Result<(), Wrong> {
    let n = number(words, 1);
    if !is_vacant_node(graph, n) {
        return Err(Wrong::new("the number is not vacant"));
    }
    let list = label(alloc, number(words, 2))?;
    graph.put_node(n, list, node_mark(field(words, 3)), is_root(words, 4));
    Ok(())
}

// `put-edge 2 0 1 20 Dashed`
fn put_edge(alloc: Global, graph: &mut Graph, words: &[&[u8]]) -> Result<(), Wrong> {
    let (e, source, target) = (number(words, 1), number(words, 2), number(words, 3));
    if !(is_vacant_edge(graph, e) && has_node(graph, source) && has_node(graph, target)) {
        return Err(Wrong::new("the number is not vacant, or an end is not there"));
    }
    let list = label(alloc, number(words, 4))?;
    graph.put_edge(e, source, target, list, edge_mark(field(words, 5)));
    Ok(())
}

// `begin-at 1`, `begin-behind 1`
fn turn(graph: &mut Graph, words: &[&[u8]]) -> Result<(), Wrong> {
    let e = number(words, 1);
    if !has_edge(graph, e) {
        return Err(Wrong::new("the edge is not there"));
    }
    if field(words, 0) == b"begin-at".as_slice() {
        graph.begin_at(e);
    } else {
        graph.begin_behind(e);
    }
    Ok(())
}

// `drop`: lowers the next numbers, where they can be.
fn lower(graph: &mut Graph) {
    if ends_with_no_node(graph) {
        graph.drop_node();
    }
    if ends_with_no_edge(graph) {
        graph.drop_edge();
    }
}
