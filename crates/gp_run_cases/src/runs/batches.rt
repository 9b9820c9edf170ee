//! Independent matches that are held together, of the rules of a program.

ghost use Rattle.std.specs.Prelude.{◌<◌};

use gp_hostfile::read_host;
use gp_journal::Trail;
use gp_plan::plans_of;
use gp_reader::read_program;
use gp_rows::{Answer, Wrong, field, number};
use gp_syntax::{Found, Item};
use gp_system::{CallGoal, Gp};
use gp_trace::write_item;
use opt_system::{Mode, Sought, System};
use std::alloc::Global;

/// How many matches of the first call are held for one turn, and each as a step of a trace: a program, a host, how many
/// shares a call has, the share that is searched, and how many may be held.
pub(crate) fn answer(alloc: Global, fields: &[&[u8]], out: &mut Answer) {
    match held_of(alloc, fields) {
        Ok(held) => {
            out.put_number(held.len() as u64);
            out.put(b" held");
            out.take(steps_of(alloc, held));
        }
        Err(wrong) => out.wrong(wrong),
    }
}

// The lines of steps, a line feed before each.
fn steps_of(alloc: Global, held: Vec<Found>) -> Result<Vec<u8>, Wrong> {
    let mut text = vec![in alloc; b'\n']?;
    for found in held {
        write_item(&Item::Step(found), &mut text)?;
    }
    Ok(text)
}

fn held_of(alloc: Global, fields: &[&[u8]]) -> Result<Vec<Found>, Wrong> {
    let program = read_program(alloc, field(fields, 0))?;
    let at = Trail::new(alloc, read_host(alloc, field(fields, 1))?);
    let shares = u32::try_from(number(fields, 2))?;
    let share = u32::try_from(number(fields, 3))?;
    let limit = u32::try_from(number(fields, 4))?;
    if share >= shares || limit == 0 {
        return Err(Wrong::new("no such share, or nothing is to be held"));
    }
    let plans = plans_of(alloc, program.parts().rules.as_slice())?;
    let system = Gp::new(alloc, &program, &plans, shares);
    let goal = CallGoal {
        call: 0,
        mode: Mode::Saturate,
    };
    held_in(alloc, &system, goal, share, &at, limit)
}

// The match of the share that is found first, and those that fit beside it, up to so many in all.
fn held_in<S: System>(
    alloc: Global,
    system: &S,
    goal: S::Goal,
    share: u32,
    at: &S::State,
    limit: u32,
) -> Result<Vec<S::Found>, Wrong>
    requires share { share < (S.means system.now).shares goal }
    requires limit { 0 < limit }
{
    let mut held = Vec::new(alloc);
    match system.seek(goal, share, at) {
        Sought::Applies(found) => held.push(found)?,
        Sought::Barren => return Ok(held),
        Sought::Faulty(_, _) => return Err(Wrong::new("a match is faulty")),
        Sought::NoMemory => return Err(Wrong::new("no memory")),
    }
    system.more(goal, share, at, &mut held, limit)?;
    Ok(held)
}
