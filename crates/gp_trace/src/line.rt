//! The lines of items.

ghost use Rattle.std.specs.Prelude.{◌∷◌, ℕ, true, ◌≡◌, ◌↔◌, ◌==◌, ◌<◌, length, ◌^◌, [], map, Some, slice_get, IsTrue, IfOk, MatchOption, MatchBool, codes};
ghost use Rattle.std.specs.Fmt.{decimal};
ghost use Rattle.std.specs.List.{slice_split};
ghost use Rattle.gp_syntax.specs.Tree.{item_of};
ghost use Rattle.gp_trace.specs.inside.Words.{SpellsNumber, SpellsNoNumber, SpellsImage, SpellsNoImage, SpellsNoNumbers, SpellsNoImages, PutsNodes, PutsEdges, SpellsFound, SpellsNoFound, SpellsBack, SpellsNoBack, SpellsItem, SpellsNoItem, IsLineOf, IsLineOfNone, StandsFirst, StandsNowhere, HasFrame};

use gp_memory::NoMemory;
use gp_syntax::{EdgeImage, Found, Item};
use itoa::Buffer;
use std::alloc::{AllocError, Global};

/// The item of a line, given without its line feed, where it is the line of an item.
pub(crate) fn read_item(alloc: Global, line: &[u8]) -> Result<Option<Item>, NoMemory>
    ensures { IfOk result (λ o. MatchOption o (IsLineOfNone line.now) (λ i. IsLineOf line.now (item_of i))) }
{
    let words = words_of(alloc, line)?;
    item_of_words(alloc, &words)
}

// What stands between the spaces.
fn words_of(alloc: Global, line: &[u8]) -> Result<Vec<&[u8]>, AllocError>
    ensures { IfOk result (λ v. map (λ w. w.now) v.items ≡ slice_split (λ b. b == 32) line.now) }
{
    line.split(|b| *b == b' ').collect(alloc)
}

fn item_of_words(alloc: Global, words: &[&[u8]]) -> Result<Option<Item>, NoMemory>
    ensures { IfOk result (λ o. MatchOption o (SpellsNoItem (map (λ w. w.now) words.now)) (λ i. SpellsItem (map (λ w. w.now) words.now) (item_of i))) }
{
    if is_turn(words) {
        return Ok(Some(Item::Turn));
    }
    if let Some(count) = back_of(words) {
        return Ok(Some(Item::Back(count)));
    }
    match read_step(alloc, words)? {
        Some(found) => Ok(Some(Item::Step(found))),
        None => Ok(None),
    }
}

fn is_turn(words: &[&[u8]]) -> bool
    ensures { IsTrue result ↔ (map (λ w. w.now) words.now ≡ codes "turn" ∷ []) }
{
    words.len() == 1 && word_is(words, 0, b"turn")
}

fn back_of(words: &[&[u8]]) -> Option<u64>
    ensures { MatchOption result (SpellsNoBack (map (λ w. w.now) words.now)) (SpellsBack (map (λ w. w.now) words.now)) }
{
    if words.len() == 2 && word_is(words, 0, b"back") {
        number(words[1])
    } else {
        None
    }
}

fn word_is(words: &[&[u8]], at: usize, word: &[u8]) -> bool
    requires { at < length words.now }
    ensures { IsTrue result ↔ (slice_get (map (λ w. w.now) words.now) at ≡ Some word.now) }
{
    words[at] == word
}

// The first place of a word.
fn place_of(words: &[&[u8]], word: &[u8]) -> Option<usize>
    ensures { MatchOption result (StandsNowhere (map (λ w. w.now) words.now) word.now) (StandsFirst (map (λ w. w.now) words.now) word.now) }
{
    for i in 0..words.len() {
        if word_is(words, i, word) {
            return Some(i);
        }
    }
    None
}

// The number that a word is, as it is printed: without a sign and without leading zeros.
fn number(word: &[u8]) -> Option<u64>
    ensures { MatchOption result (SpellsNoNumber word.now) (SpellsNumber word.now) }
{
    let Ok(text) = std::str::from_utf8(word) else {
        return None;
    };
    let Ok(number) = text.parse::<u64>() else {
        return None;
    };
    if Buffer::new().format(number) == text {
        Some(number)
    } else {
        None
    }
}

// The same, of a rule.
fn rule_number(word: &[u8]) -> Option<u32>
    ensures { MatchOption result ((n : ℕ) → n < 2 ^ 32 → decimal n ≡ word.now → ⊥) (λ n. (decimal n ≡ word.now) × (n < 2 ^ 32)) }
{
    let number = number(word)?;
    if number < 1 << 32 {
        Some(number as u32)
    } else {
        None
    }
}

// The image of an edge that a word is.
fn image(word: &[u8]) -> Option<EdgeImage>
    ensures { MatchOption result (SpellsNoImage word.now) (SpellsImage word.now) }
{
    if let Some(number) = number(word) {
        return Some(EdgeImage::new(number, false));
    }
    match word.strip_suffix(b"~") {
        Some(word) => reversed_image(word),
        None => None,
    }
}

fn reversed_image(word: &[u8]) -> Option<EdgeImage>
    ensures { MatchOption result (SpellsNoNumber word.now) (λ i. SpellsNumber word.now i.number × (i.reversed ≡ true)) }
{
    match number(word) {
        Some(number) => Some(EdgeImage::new(number, true)),
        None => None,
    }
}

// The rule of a step, and the place of the word `edges`.
#[tactic(auto, using(crate::proofs::WordFacts::no_found_edges_word, crate::proofs::WordFacts::texts_behind))]
fn frame_of(words: &[&[u8]]) -> Option<(u32, usize)>
    ensures { MatchOption result (SpellsNoFound (map (λ w. w.now) words.now)) (λ p. HasFrame (map (λ w. w.now) words.now) p.0 p.1) }
{
    if words.len() < 3 || !word_is(words, 0, b"step") || !word_is(words, 2, b"nodes") {
        return None;
    }
    let rule = rule_number(words[1])?;
    let (_, rest) = words.split_at(3);
    let Some(end) = place_of(rest, b"edges") else {
        return None;
    };
    Some((rule, end))
}

fn read_step(alloc: Global, words: &[&[u8]]) -> Result<Option<Found>, NoMemory>
    ensures { IfOk result (λ o. MatchOption o (SpellsNoFound (map (λ w. w.now) words.now)) (SpellsFound (map (λ w. w.now) words.now))) }
{
    let Some((rule, end)) = frame_of(words) else {
        return Ok(None);
    };
    let (_, rest) = words.split_at(3);
    let (nodes, _) = rest.split_at(end);
    let (_, edges) = rest.split_at(end + 1);
    let mut found = Found::new(alloc, rule);
    if !push_nodes(nodes, &mut found)? {
        return Ok(None);
    }
    if !push_edges(edges, &mut found)? {
        return Ok(None);
    }
    Ok(Some(found))
}

// Puts the numbers that the words are into a match without nodes, where each is one.
fn push_nodes(words: &[&[u8]], found: &mut Found) -> Result<bool, NoMemory>
    requires { found.old.nodes ≡ [] }
    ensures { IfOk result (λ b. MatchBool b (PutsNodes (map (λ w. w.now) words.now) found.old found.new) (SpellsNoNumbers (map (λ w. w.now) words.now))) }
{
    for word in words {
        match number(word) {
            Some(node) => found.push_node(node)?,
            None => return Ok(false),
        }
    }
    Ok(true)
}

// Puts the images that the words are into a match without edges, where each is one.
fn push_edges(words: &[&[u8]], found: &mut Found) -> Result<bool, NoMemory>
    requires edges { found.old.edges ≡ [] }
    requires reversed { found.old.reversed ≡ [] }
    ensures { IfOk result (λ b. MatchBool b (PutsEdges (map (λ w. w.now) words.now) found.old found.new) (SpellsNoImages (map (λ w. w.now) words.now))) }
{
    for word in words {
        match image(word) {
            Some(edge) => found.push_edge(edge)?,
            None => return Ok(false),
        }
    }
    Ok(true)
}
