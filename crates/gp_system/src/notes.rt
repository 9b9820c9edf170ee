//! The items of a run, where they are kept.

ghost use Rattle.std.specs.Prelude.{◌≡◌, ◌<◌, ◌++◌, OnOk, OnErr, IfSome, take};
ghost use Rattle.std.specs.Option.{option_map};
ghost use Rattle.gp_system.specs.inside.Noted.{noted, backs_in, with_step, with_turn, with_end, with_back, with_all, with_room, without_room};
ghost use Rattle.gp_system.specs.inside.Pursued.{HasUsed, noted_but_last_turn};

use gp_journal::{Items, Mode as Noting};
use gp_memory::NoMemory;
use gp_syntax::Found;
use opt_system::Mode;

/// Notes the step by a match.
pub(crate) fn note_step(items: &mut Option<Items>, found: Found) -> Result<(), NoMemory>
    ensures ok { OnOk result (items.new ≡ option_map (with_step found) items.old) }
    ensures err { OnErr result (items.new ≡ items.old) }
{
    match items {
        Some(items) => items.step(found),
        None => Ok(()),
    }
}

/// Notes the beginning of a turn.
pub(crate) fn note_turn(items: &mut Option<Items>) -> Result<(), NoMemory>
    ensures ok { OnOk result (items.new ≡ option_map with_turn items.old) }
    ensures err { OnErr result (items.new ≡ items.old) }
{
    match items {
        Some(items) => items.turn(),
        None => Ok(()),
    }
}

/// Notes that no step is taken back.
pub(crate) fn note_end(items: &mut Option<Items>) -> Result<(), NoMemory>
    ensures ok { OnOk result (items.new ≡ option_map with_end items.old) }
    ensures err { OnErr result (items.new ≡ items.old) }
{
    match items {
        Some(items) => {
            items.mark()?;
            items.back(0);
            Ok(())
        }
        None => Ok(()),
    }
}

/// Makes room for noting that steps are taken back.
pub(crate) fn make_room(items: &mut Option<Items>) -> Result<(), NoMemory>
    ensures ok { OnOk result (items.new ≡ option_map with_room items.old) }
    ensures err { OnErr result (items.new ≡ items.old) }
{
    match items {
        Some(items) => items.mark(),
        None => Ok(()),
    }
}

/// Gives up the room that was made last.
pub(crate) fn give_room_up(items: &mut Option<Items>)
    requires { IfSome items.old (λ k. 0 < k.backs) }
    ensures { items.new ≡ option_map without_room items.old }
{
    match items {
        Some(items) => items.unmark(),
        None => {}
    }
}

/// Notes that the last `k` live steps are taken back, in the room that was made last.
pub(crate) fn note_back(items: &mut Option<Items>, k: u64)
    requires { IfSome items.old (λ k. 0 < k.backs) }
    ensures { items.new ≡ option_map (with_back k) items.old }
{
    match items {
        Some(items) => items.back(k),
        None => {}
    }
}

/// Notes the items of the matches that were taken for a goal, as many as were used.
pub(crate) fn note_taken(
    items: &mut Option<Items>,
    entries: Vec<Found>,
    mode: Mode,
    used: u64,
) -> Result<(), NoMemory>
    requires { HasUsed mode entries.items used }
    ensures ok { OnOk result (items.new ≡ option_map (with_all (take used (noted mode entries.items))) items.old) }
    ensures backs { option_map backs_in items.new ≡ option_map backs_in items.old }
{
    match items {
        Some(items) => note_used(items, entries, mode, used),
        None => Ok(()),
    }
}

// Puts the items of matches at the end, but for the turn after the last step.
fn note_but_last_turn(items: &mut Items, entries: Vec<Found>) -> Result<(), NoMemory>
    ensures items { OnOk result (items.new.items ≡ items.old.items ++ noted_but_last_turn entries.items) }
    ensures backs { items.new.backs ≡ items.old.backs }
{
    let mut last = Vec::with_capacity(*entries.allocator(), 1)?;
    let mut entries = entries;
    match entries.pop() {
        Some(found) => last.push_reserved(found),
        None => return Ok(()),
    }
    items.note(entries, Noting::Saturate)?;
    items.note(last, Noting::Once)
}

// Puts the items of the matches that were taken at the end, as many as were used: where none was left for the turn after
// the last step, that turn is not made.
fn note_used(items: &mut Items, entries: Vec<Found>, mode: Mode, used: u64) -> Result<(), NoMemory>
    requires { HasUsed mode entries.items used }
    ensures items { OnOk result (items.new.items ≡ items.old.items ++ take used (noted mode entries.items)) }
    ensures backs { items.new.backs ≡ items.old.backs }
{
    match mode {
        Mode::Once => items.note(entries, Noting::Once),
        Mode::Saturate => {
            if used % 2 == 1 {
                return note_but_last_turn(items, entries);
            }
            items.note(entries, Noting::Saturate)
        }
    }
}
