//! Which commands may break.

ghost use Rattle.std.specs.Prelude.{◌||◌, ◌≡◌, ◌<◌, ◌↔◌, true, false, length, map, slice_index_or, IfOk};
ghost use Rattle.std.specs.List.{list_any};
ghost use Rattle.gp_syntax.specs.Tree.{command_of};
ghost use Rattle.gp_reader.specs.inside.Procedures.{Strays};
ghost use Rattle.gp_reader.specs.inside.Judged.{either, judged_by, breaks_by, strays_by, rest_judged, condition_before, MarksBreaking, FindsMore};

use gp_memory::NoMemory;
use gp_syntax::Command;
use std::alloc::Global;

/// Whether a command may break, and whether a condition in it may.
#[derive(Clone, Copy)]
pub(crate) struct Judged {
    pub(crate) breaks: bool,
    pub(crate) strays: bool,
}

impl Judged {
    // What holds of either.
    fn or(self, other: Judged) -> Judged
        ensures { result ≡ either self other }
    {
        Judged {
            breaks: self.breaks || other.breaks,
            strays: self.strays || other.strays,
        }
    }
}

impl Judged {
    // Whether it, or a condition in it, may break.
    fn any(self) -> bool
        ensures { result ≡ (self.breaks || self.strays) }
    {
        self.breaks || self.strays
    }

    // That of a condition, before that of its branches.
    fn before(self, branches: Judged) -> Judged
        ensures { result ≡ condition_before self branches }
    {
        Judged {
            breaks: self.breaks || branches.breaks,
            strays: self.breaks || self.strays || branches.strays,
        }
    }
}

/// Whether the command may break, and whether a condition in it may, where these procedures are known to break.
#[cycle(judge)]
pub(crate) fn judge(command: &Command, known: &[bool]) -> Judged
    ensures { result ≡ judged_by known.now (command_of command.now) }
{
    match command {
        Command::Break => Judged {
            breaks: true,
            strays: false,
        },
        Command::Proc(number) => Judged {
            breaks: is_known(known, *number as usize),
            strays: false,
        },
        Command::Seq(first, rest) | Command::Or(first, rest) => {
            let judged = judge(first.get(), known);
            judge_rest(judged, rest.as_slice(), known)
        }
        Command::If(condition, then, other) | Command::Try(condition, then, other) => {
            let asked = judge(condition.get(), known);
            let done = judge(then.get(), known);
            asked.before(done.or(judge(other.get(), known)))
        }
        Command::Loop(body) => Judged {
            breaks: false,
            strays: judge(body.get(), known).strays,
        },
        Command::Call(_) | Command::Skip | Command::Fail => Judged {
            breaks: false,
            strays: false,
        },
    }
}

fn is_known(known: &[bool], number: usize) -> bool
    ensures { result ≡ slice_index_or known.now number false }
{
    number < known.len() && known[number]
}

// The further parts of a chain, behind what holds of those before.
#[cycle(judge)]
fn judge_rest(first: Judged, rest: &[Command], known: &[bool]) -> Judged
    ensures { result ≡ rest_judged known.now first rest.now }
{
    let mut judged = first;
    for part in rest {
        judged = judged.or(judge(part, known));
    }
    judged
}

/// Which procedures may break. Each round finds those that call one that was found before.
pub(crate) fn breaking(alloc: Global, procedures: &[Command]) -> Result<Vec<bool>, NoMemory>
    ensures { IfOk result (λ v. MarksBreaking (map command_of procedures.now) v.items) }
{
    let mut known = vec![in alloc; false; procedures.len()]?;
    while find_more(procedures, &mut known) {}
    Ok(known)
}

// Marks further procedures that may break, and says whether there were any.
fn find_more(procedures: &[Command], known: &mut Vec<bool>) -> bool
    requires { length known.old.items ≡ length procedures.now }
    ensures { FindsMore (map command_of procedures.now) known.old.items known.new.items result }
{
    let mut more = false;
    for k in 0..procedures.len() {
        if is_found(&procedures[k], known.as_slice(), k) {
            known[k] = true;
            more = true;
        }
    }
    more
}

// Whether the procedure is not known to break, and its body may.
fn is_found(body: &Command, known: &[bool], k: usize) -> bool
    requires { k < length known.now }
    ensures unknown { result ≡ true → slice_index_or known.now k false ≡ false }
    ensures breaks { result ≡ true → breaks_by known.now (command_of body.now) ≡ true }
    ensures passed { result ≡ false → breaks_by known.now (command_of body.now) ≡ true → slice_index_or known.now k false ≡ true }
{
    if known[k] {
        return false;
    }
    judge(body, known).breaks
}

/// Whether Main, or a condition in some body, may break.
pub(crate) fn has_stray_break(
    alloc: Global,
    main: &Command,
    procedures: &[Command],
) -> Result<bool, NoMemory>
    ensures { IfOk result (λ b. (b ≡ true) ↔ Strays (command_of main.now) (map command_of procedures.now)) }
{
    let known = breaking(alloc, procedures)?;
    let judged = judge(main, known.as_slice());
    if judged.any() {
        return Ok(true);
    }
    Ok(any_strays(procedures, known.as_slice()))
}

fn any_strays(procedures: &[Command], known: &[bool]) -> bool
    ensures { result ≡ list_any (λ c. strays_by known.now (command_of c)) procedures.now }
{
    procedures.iter().any(|body| judge(body, known).strays)
}
