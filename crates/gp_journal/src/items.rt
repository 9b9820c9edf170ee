//! The items of a journal by themselves.

ghost use Rattle.std.specs.Prelude.{◌≡◌, ◌<◌, ◌≤◌, ◌+◌, ◌-◌, ◌++◌, ◌∷◌, [], OnOk, OnErr, vec_len, vec_capacity};
ghost use Rattle.gp_journal.specs.Journal.{noted, with_item};
ghost use Rattle.gp_journal.specs.inside.Items.{items_each};

use crate::mode::Mode;
use crate::trail::push_spare;
use gp_memory::NoMemory;
use gp_syntax::{Found, Item};
use std::alloc::Global;
use std::marker::Model;

/// The items of a journal, with the room for those that take steps back. Contracts see the items, and for how many more
/// of these there is room.
#[derive(Drop)]
pub struct Items {
    pub(crate) items: Vec<Item>,
    pub(crate) backs: u64,
}

impl Model for Items {
    ghost use Rattle.gp_journal.specs.Journal.{Kept, kept_code};
    ghost use Rattle.std.specs.Prelude.{◌≤◌, ◌+◌, vec_len, vec_capacity};

    ghost Value = { Kept };

    ghost coded = { kept_code };

    ghost view = { λ a. record { items = a.items.items; backs = a.backs } };

    ghost invariant = { λ a. vec_len a.items + a.backs ≤ vec_capacity a.items };
}

impl Items {
    /// No items, and room for none that takes steps back. It takes no memory.
    pub fn new(alloc: Global) -> Items
        ensures { result ≡ record { items = []; backs = 0 } }
    {
        Items {
            items: Vec::new(alloc),
            backs: 0,
        }
    }

    /// The items, in order.
    pub fn as_slice(&self) -> &[Item]
        ensures { result.now ≡ self.now.items }
    {
        self.items.as_slice()
    }

    /// Puts the step by a match at the end. On refusal the items are as before.
    pub fn step(&mut self, found: Found) -> Result<(), NoMemory>
        ensures ok { OnOk result (self.new ≡ with_item self.old (Item.Step found)) }
        ensures err { OnErr result (self.new ≡ self.old) }
    {
        put(&mut self.items, self.backs, Item::Step(found))
    }

    /// Puts the beginning of a turn at the end. On refusal the items are as before.
    pub fn turn(&mut self) -> Result<(), NoMemory>
        ensures ok { OnOk result (self.new ≡ with_item self.old Item.Turn) }
        ensures err { OnErr result (self.new ≡ self.old) }
    {
        put(&mut self.items, self.backs, Item::Turn)
    }

    /// Makes room for one more item that takes steps back. On refusal the items are as before.
    pub fn mark(&mut self) -> Result<(), NoMemory>
        ensures ok { OnOk result (self.new ≡ record self.old { backs = self.old.backs + 1 }) }
        ensures err { OnErr result (self.new ≡ self.old) }
    {
        let _told = self.items.capacity();
        self.items.reserve(self.backs as usize + 1)?;
        self.backs += 1;
        Ok(())
    }

    /// Gives up the room of one mark. It takes no memory.
    pub fn unmark(&mut self)
        requires { 0 < self.old.backs }
        ensures { self.new ≡ record self.old { backs = self.old.backs - 1 } }
    {
        self.backs -= 1;
    }

    /// Puts at the end that the last `k` live steps are taken back. It takes no memory, but the room of one mark.
    pub fn back(&mut self, k: u64)
        requires { 0 < self.old.backs }
        ensures { self.new ≡ record { items = self.old.items ++ Item.Back k ∷ []; backs = self.old.backs - 1 } }
    {
        push_spare(&mut self.items, Item::Back(k));
        self.backs -= 1;
    }

    /// Puts the steps by these matches at the end, in order, each with a turn after it where matches are taken until none
    /// is left. On refusal the items are as before. No match is copied.
    pub fn note(&mut self, founds: Vec<Found>, mode: Mode) -> Result<(), NoMemory>
        ensures ok { OnOk result (self.new.items ≡ self.old.items ++ noted mode founds.items) }
        ensures err { OnErr result (self.new.items ≡ self.old.items) }
        ensures backs { self.new.backs ≡ self.old.backs }
    {
        let _told = self.items.capacity();
        let room = founds.len() * items_each(mode);
        self.items.reserve(self.backs as usize + room)?;
        let mut left = founds;
        left.reverse();
        'notes: while let Some(found) = left.pop() {
            note_one(&mut self.items, found, mode);
        }
        Ok(())
    }
}

// Puts an item at the end, and keeps the room for so many more that take steps back. On refusal the items are as before.
fn put(items: &mut Vec<Item>, backs: u64, item: Item) -> Result<(), NoMemory>
    requires { vec_len items.old + backs ≤ vec_capacity items.old }
    ensures ok { OnOk result (items.new.items ≡ items.old.items ++ item ∷ []) }
    ensures err { OnErr result (items.new.items ≡ items.old.items) }
    ensures room { vec_len items.new + backs ≤ vec_capacity items.new }
{
    let _told = items.capacity();
    items.reserve(backs as usize + 1)?;
    push_spare(items, item);
    Ok(())
}

// How many items a match takes.
fn items_each(mode: Mode) -> usize
    ensures { result ≡ items_each mode }
{
    match mode {
        Mode::Once => 1,
        Mode::Saturate => 2,
    }
}

// Puts the items of one match at the end, where there are spare places.
fn note_one(items: &mut Vec<Item>, found: Found, mode: Mode)
    requires { vec_len items.old + items_each mode ≤ vec_capacity items.old }
    ensures items { items.new.items ≡ items.old.items ++ noted mode (found ∷ []) }
    ensures len { vec_len items.new ≡ vec_len items.old + items_each mode }
    ensures room { vec_capacity items.old ≤ vec_capacity items.new }
{
    push_spare(items, Item::Step(found));
    match mode {
        Mode::Once => (),
        Mode::Saturate => push_spare(items, Item::Turn),
    }
}
