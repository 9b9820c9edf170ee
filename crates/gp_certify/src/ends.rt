//! Where commands may end.

ghost use Rattle.std.specs.Prelude.{◌≡◌, ◌<◌, ◌≤◌, ◌∷◌, [], List, length, IfOk, OnOk, Some, slice_get, Contains};
ghost use Rattle.gp_syntax.specs.Run.{Command, Call};
ghost use Rattle.gp_certify.specs.Code.{at, IsCode};
ghost use Rattle.gp_certify.specs.Places.{IsPart};
ghost use Rattle.gp_certify.specs.inside.View.{IsTape};
ghost use Rattle.gp_certify.specs.inside.Grows.{Grows, Has};
ghost use Rattle.gp_certify.specs.inside.Ways.{HasFirst, above};
ghost use Rattle.gp_certify.specs.inside.Found.{AreEnds, AreEndsAt, AreByWay, IsTrueOf, GoesOn, Leaves, HasTurned};

use crate::end::{End, Outcome};
use crate::memory::Memory;
use crate::node::Node;
use crate::starts::{Reached, put_end, put_ends, put_start, reached_first, take_least};
use crate::tape::Tape;
use crate::ways::{Way, way_of};
use gp_memory::NoMemory;
use std::alloc::Global;

// One end.
fn one_end(alloc: Global, place: usize, outcome: Outcome) -> Result<Vec<End>, NoMemory>
    ensures { IfOk result (λ v. v.items ≡ record { place = place; outcome = outcome } ∷ []) }
{
    let mut ends = Vec::new(alloc);
    ends.push(End { place, outcome })?;
    Ok(ends)
}

// Of a call. A set that steps is not blocked, so only of the others it is asked whether they are.
fn call_ends<T: Tape>(
    alloc: Global,
    call: u32,
    place: usize,
    tape: &mut T,
) -> Result<Vec<End>, NoMemory>
    requires tape { IsTape (T.view tape.old) }
    requires set { call < length (T.view tape.old).program.sets }
    requires place { place ≤ length (T.view tape.old).trace }
    ensures same { T.view tape.new ≡ T.view tape.old }
    ensures ends { IfOk result (λ es. AreEnds (T.view tape.old) (Call call) place es.items) }
{
    if tape.steps(call, place) {
        return one_end(alloc, place + 1, Outcome::Gives);
    }
    if tape.is_blocked(call, place)? {
        return one_end(alloc, place, Outcome::Fails);
    }
    Ok(Vec::new(alloc))
}

// What an end of a loop's body, which began at `start`, leads to.
fn after_body<T: Tape>(
    start: usize,
    end: End,
    tape: &T,
    reached: &mut Reached,
) -> Result<(), NoMemory>
    requires tape { IsTape (T.view tape.now) }
    requires part { IsPart (T.view tape.now).trace start end.place }
    ensures starts { OnOk result (Grows (Has reached.old.starts) (Has reached.new.starts) (GoesOn end)) }
    ensures ends { OnOk result (Grows (Contains reached.old.ends.items) (Contains reached.new.ends.items) (Leaves (T.view tape.now) start end)) }
{
    match end.outcome {
        Outcome::Gives => put_start(&mut reached.starts, end.place),
        Outcome::Fails => {
            if tape.takes_back(start, end.place) {
                put_end(&mut reached.ends, End::given(end.place + 1))
            } else {
                Ok(())
            }
        }
        Outcome::Breaks => put_end(&mut reached.ends, End::given(end.place)),
    }
}

/// The ends of a node from a place, from memory where it has them.
#[cycle(ends)]
pub(crate) fn ends_of<T: Tape>(
    code: &[Node],
    node: u32,
    place: usize,
    tape: &mut T,
    memory: &mut Memory,
) -> Result<Vec<End>, NoMemory>
    requires tape { IsTape (T.view tape.old) }
    requires code { (cs : List Command) × IsCode (T.view tape.old).program code.now cs }
    requires node { node < length code.now }
    requires place { place ≤ length (T.view tape.old).trace }
    requires memory { IsTrueOf (T.view tape.old) code.now memory.old.found }
    ensures same { T.view tape.new ≡ T.view tape.old }
    ensures memory { IsTrueOf (T.view tape.old) code.now memory.new.found }
    ensures ends { IfOk result (λ es. AreEndsAt (T.view tape.old) code.now node place es.items) }
{
    if let Some(known) = memory.recall(node, place)? {
        return Ok(known);
    }
    let found = fresh_ends(code, node, place, tape, memory)?;
    memory.keep(node, place, &found)?;
    Ok(found)
}

// As `ends_of`, of what memory does not have.
#[cycle(ends)]
fn fresh_ends<T: Tape>(
    code: &[Node],
    node: u32,
    place: usize,
    tape: &mut T,
    memory: &mut Memory,
) -> Result<Vec<End>, NoMemory>
    requires tape { IsTape (T.view tape.old) }
    requires code { (cs : List Command) × IsCode (T.view tape.old).program code.now cs }
    requires node { node < length code.now }
    requires place { place ≤ length (T.view tape.old).trace }
    requires memory { IsTrueOf (T.view tape.old) code.now memory.old.found }
    ensures same { T.view tape.new ≡ T.view tape.old }
    ensures memory { IsTrueOf (T.view tape.old) code.now memory.new.found }
    ensures ends { IfOk result (λ es. AreEndsAt (T.view tape.old) code.now node place es.items) }
{
    let shape = code[node as usize];
    match shape {
        Node::Call(call) => call_ends(memory.alloc, call, place, tape),
        Node::Seq(first, _) | Node::If(first, _, _) | Node::Try(first, _, _) => {
            first_ends(code, node, first, place, tape, memory)
        }
        Node::Loop(body) => loop_ends(code, node, body, place, tape, memory),
        Node::Or(first, second) => {
            let mut found = ends_of(code, first, place, tape, memory)?;
            let more = ends_of(code, second, place, tape, memory)?;
            put_ends(&mut found, &more)?;
            Ok(found)
        }
        Node::Skip => one_end(memory.alloc, place, Outcome::Gives),
        Node::Fail => one_end(memory.alloc, place, Outcome::Fails),
        Node::Break => one_end(memory.alloc, place, Outcome::Breaks),
        Node::Proc(_, body) => ends_of(code, body, place, tape, memory),
    }
}

// Of a sequence, an `if` or a `try`: what comes after each end of its first part.
#[cycle(ends)]
fn first_ends<T: Tape>(
    code: &[Node],
    node: u32,
    first: u32,
    place: usize,
    tape: &mut T,
    memory: &mut Memory,
) -> Result<Vec<End>, NoMemory>
    requires tape { IsTape (T.view tape.old) }
    requires code { (cs : List Command) × IsCode (T.view tape.old).program code.now cs }
    requires first { HasFirst code.now node first }
    requires place { place ≤ length (T.view tape.old).trace }
    requires memory { IsTrueOf (T.view tape.old) code.now memory.old.found }
    ensures same { T.view tape.new ≡ T.view tape.old }
    ensures memory { IsTrueOf (T.view tape.old) code.now memory.new.found }
    ensures ends { IfOk result (λ es. AreEndsAt (T.view tape.old) code.now node place es.items) }
{
    let shape = code[node as usize];
    let firsts = ends_of(code, first, place, tape, memory)?;
    let mut found = Vec::new(memory.alloc);
    'firsts: for end in &firsts {
        let way = way_of(shape, end.outcome);
        let more = way_ends(code, way, place, *end, tape, memory)?;
        put_ends(&mut found, &more)?;
    }
    Ok(found)
}

// What comes by a way after an end of a first part, which began at `place`.
#[cycle(ends)]
fn way_ends<T: Tape>(
    code: &[Node],
    way: Way,
    place: usize,
    end: End,
    tape: &mut T,
    memory: &mut Memory,
) -> Result<Vec<End>, NoMemory>
    requires tape { IsTape (T.view tape.old) }
    requires code { (cs : List Command) × IsCode (T.view tape.old).program code.now cs }
    requires way { above way ≤ length code.now }
    requires part { IsPart (T.view tape.old).trace place end.place }
    requires memory { IsTrueOf (T.view tape.old) code.now memory.old.found }
    ensures same { T.view tape.new ≡ T.view tape.old }
    ensures memory { IsTrueOf (T.view tape.old) code.now memory.new.found }
    ensures ends { IfOk result (λ es. AreByWay (T.view tape.old) code.now way place end es.items) }
{
    match way {
        Way::Stops => Ok(Vec::new(memory.alloc)),
        Way::Ends => one_end(memory.alloc, end.place, end.outcome),
        Way::On(part) => ends_of(code, part, end.place, tape, memory),
        Way::OnBehind(part) => {
            if !tape.takes_back(place, end.place) {
                return Ok(Vec::new(memory.alloc));
            }
            ends_of(code, part, end.place + 1, tape, memory)
        }
    }
}

// Of a loop: each place at which a turn may begin is looked at once, the least first.
#[cycle(ends)]
fn loop_ends<T: Tape>(
    code: &[Node],
    node: u32,
    body: u32,
    place: usize,
    tape: &mut T,
    memory: &mut Memory,
) -> Result<Vec<End>, NoMemory>
    requires tape { IsTape (T.view tape.old) }
    requires code { (cs : List Command) × IsCode (T.view tape.old).program code.now cs }
    requires shape { slice_get code.now node ≡ Some (Node.Loop body) }
    requires place { place ≤ length (T.view tape.old).trace }
    requires memory { IsTrueOf (T.view tape.old) code.now memory.old.found }
    ensures same { T.view tape.new ≡ T.view tape.old }
    ensures memory { IsTrueOf (T.view tape.old) code.now memory.new.found }
    ensures ends { IfOk result (λ es. AreEndsAt (T.view tape.old) code.now node place es.items) }
{
    let mut reached = reached_first(memory.alloc, place)?;
    let mut floor = place;
    'turns: while let Some(start) = take_least(&mut reached.starts) {
        floor = start + 1;
        turn_ends(code, body, start, tape, memory, &mut reached)?;
    }
    Ok(reached.ends)
}

// Puts in what a turn of this body leads to.
#[cycle(ends)]
fn turn_ends<T: Tape>(
    code: &[Node],
    body: u32,
    start: usize,
    tape: &mut T,
    memory: &mut Memory,
    reached: &mut Reached,
) -> Result<(), NoMemory>
    requires tape { IsTape (T.view tape.old) }
    requires code { (cs : List Command) × IsCode (T.view tape.old).program code.now cs }
    requires body { body < length code.now }
    requires start { start ≤ length (T.view tape.old).trace }
    requires memory { IsTrueOf (T.view tape.old) code.now memory.old.found }
    ensures same { T.view tape.new ≡ T.view tape.old }
    ensures memory { IsTrueOf (T.view tape.old) code.now memory.new.found }
    ensures turned { OnOk result ((cs : List Command) → IsCode (T.view tape.old).program code.now cs → HasTurned (T.view tape.old) (at cs body) start reached.old reached.new) }
{
    if !tape.is_turn(start) {
        return Ok(());
    }
    let ends = ends_of(code, body, start + 1, tape, memory)?;
    'ends: for end in &ends {
        after_body(start + 1, *end, tape, reached)?;
    }
    Ok(())
}
