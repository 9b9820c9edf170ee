//! Scripts walked over the items of a run.

ghost use Rattle.std.specs.Prelude.{◌≡◌, ◌++◌, List, map, slice_get, OnOk, IfOk};
ghost use Rattle.gp_syntax.specs.Rule.{Rule as AnyRule};
ghost use Rattle.gp_syntax.specs.Tree.{rule_of_tree};
ghost use Rattle.gp_journal.specs.Trail.{Trail, fresh};
ghost use Rattle.gp_journal.specs.Leads.{Leads};
ghost use Rattle.gp_journal.specs.Journal.{items_of};
ghost use Rattle.gp_derivation.specs.Stepper.{IsStepperOf};
ghost use Rattle.gp_derivation.specs.Walk.{place_text, Walks};
ghost use Rattle.gp_derivation.specs.inside.Told.{item_text, Follows};

use crate::line::Line;
use crate::stepper::{Moved, Stepper};
use gp_graph::Graph;
use gp_hostfile::write_graph;
use gp_journal::Items;
use gp_memory::NoMemory;
use gp_syntax::Rule;
use gp_trace::write_item;
use itoa::Buffer;
use std::alloc::Global;

// A stepper over the items of a run, and the text of what was told so far.
#[derive(Drop)]
struct Walker {
    stepper: Stepper,
    text: Vec<u8>,
}

/// What the lines of a script come to over the items of a run on the host, from the first item on.
pub fn walk(
    alloc: Global,
    host: Graph,
    items: Items,
    rules: &[Rule],
    script: &[Line],
) -> Result<Vec<u8>, NoMemory>
    requires { (end : Trail) × Leads (map rule_of_tree rules.now) (items_of items.items) (fresh host.graph) end }
    ensures { IfOk result (λ v. Walks (map rule_of_tree rules.now) host.graph (items_of items.items) 0 script.now v.items) }
{
    let mut walker = Walker {
        stepper: Stepper::at_host(alloc, host, items),
        text: Vec::new(alloc),
    };
    for line in script {
        walker.follow(alloc, rules, *line)?;
    }
    Ok(walker.text)
}

impl Walker {
    // Makes the move or the look of a line, and tells of it.
    fn follow(&mut self, alloc: Global, rules: &[Rule], line: Line) -> Result<(), NoMemory>
        requires { IsStepperOf (map rule_of_tree rules.now) self.old.stepper }
        ensures { OnOk result (Follows (map rule_of_tree rules.now) line self.old self.new) }
    {
        match line {
            Line::Forward => self.forward(rules),
            Line::Back => self.back(rules),
            Line::Show => self.show(alloc),
        }
    }

    // Tells the item at the place, and goes over it.
    fn forward(&mut self, rules: &[Rule]) -> Result<(), NoMemory>
        requires { IsStepperOf (map rule_of_tree rules.now) self.old.stepper }
        ensures { OnOk result (Follows (map rule_of_tree rules.now) Line.Forward self.old self.new) }
    {
        tell_item(&self.stepper, &mut self.text)?;
        let moved = self.stepper.forward(rules);
        match moved {
            Moved::Made | Moved::End => Ok(()),
            Moved::NoMemory => Err(NoMemory),
        }
    }

    // Goes back over the item before the place, and tells the place.
    fn back(&mut self, rules: &[Rule]) -> Result<(), NoMemory>
        requires { IsStepperOf (map rule_of_tree rules.now) self.old.stepper }
        ensures { OnOk result (Follows (map rule_of_tree rules.now) Line.Back self.old self.new) }
    {
        match self.stepper.back(rules) {
            Moved::Made => tell_place(self.stepper.place(), &mut self.text),
            Moved::End => tell(b"start\n", &mut self.text),
            Moved::NoMemory => Err(NoMemory),
        }
    }

    // Tells the graph at the place.
    fn show(&mut self, alloc: Global) -> Result<(), NoMemory>
        ensures { OnOk result ((rules : List AnyRule) → IsStepperOf rules self.old.stepper → Follows rules Line.Show self.old self.new) }
    {
        let graph = self.stepper.graph();
        write_graph(alloc, graph, &mut self.text)
    }
}

// Puts a piece behind the text.
fn tell(piece: &[u8], text: &mut Vec<u8>) -> Result<(), NoMemory>
    ensures { OnOk result (text.new.items ≡ text.old.items ++ piece.now) }
{
    text.extend_from_slice(piece)?;
    Ok(())
}

// Puts the line of the item at the place behind the text, or the end.
fn tell_item(stepper: &Stepper, text: &mut Vec<u8>) -> Result<(), NoMemory>
    ensures { OnOk result (text.new.items ≡ text.old.items ++ item_text (slice_get stepper.now.items stepper.now.place)) }
{
    match stepper.item() {
        Some(item) => write_item(item, text),
        None => tell(b"end\n", text),
    }
}

// Puts the line of a place behind the text.
fn tell_place(place: usize, text: &mut Vec<u8>) -> Result<(), NoMemory>
    ensures { OnOk result (text.new.items ≡ text.old.items ++ place_text place) }
{
    tell(b"at ", text)?;
    tell(Buffer::new().format(place).as_bytes(), text)?;
    tell(b"\n", text)
}
