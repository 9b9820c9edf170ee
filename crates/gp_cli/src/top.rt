//! The top call.

ghost use Rattle.std.specs.Prelude.{◌≡◌, List, map, string_bytes, Some, option_map, IfOk, IfSome, OnErr};
ghost use Rattle.gp_values.specs.Names.{Name as AnyName};
ghost use Rattle.gp_words.specs.CommandLine as spec;
ghost use Rattle.gp_words.specs.Told.{run_now, command_now, HasSize};
ghost use Rattle.gp_cli.specs.Answer.{wants_journal, asks_journal, IsTrue, Replies, ReadsNone, Answered, IsSilent};
ghost use Rattle.gp_cli.specs.Completes.{Completes};
ghost use Rattle.gp_cli.specs.inside.Parts.{RunsFiles};
ghost use Rattle.gp_cli.specs.Statuses.{status_code};
ghost use Rattle.gp_cli.specs.Said.{IsTold};

use crate::check::check;
use crate::deliver::deliver;
use crate::demo::demo;
use crate::files::load_both;
use crate::fmt::fmt;
use crate::reply::Reply;
use crate::resources::Resources;
use crate::run::{ended, run};
use crate::said::{Refusal, Said, Stop, or_stopped, settled};
use crate::status::Status;
use crate::step::step;
use crate::texts::reply_of;
use gp_fmt::laws::{canonical_texts_are_read, canonical_texts_mean_the_same, canonical_texts_stay};
use gp_io::{Files, Sink};
use gp_memory::NoMemory;
use gp_reader::laws::{texts_have_one_fault, texts_have_one_program, texts_have_one_tree};
use gp_system::{Crew, Terms};
use gp_words::{Command, RunCommand, command_of};
use opt_worker::Pacing;
use std::alloc::{AllocGlobal, Global};
use std::sync::Wait;
use std::thread::Threads;

// What the files of a command come to. The items of its run are kept where the journal is asked for.
fn said_by_files<'a, F: Files, R: Threads + Wait + Sync>(
    resources: &Resources<'_, R>,
    command: RunCommand<'a>,
    files: &mut F,
) -> Result<Said<'a>, Stop<'a>>
    ensures { RunsFiles (F.known files.old) (F.known files.new) (run_now command.entry) result }
{
    let (program, graph) = load_both(resources.alloc, files, command.program, command.host)?;
    let terms = Terms {
        bound: command.bound,
        keeps: command.journal,
        crew: Crew {
            workers: command.crew.workers,
            fan: command.crew.fan,
            batch: command.crew.batch,
        },
        pace: resources.pace,
    };
    let outcome = run(resources, &program, graph, terms, command.seed);
    or_stopped(ended(resources.alloc, &program, command.bound, outcome))
}

// What a command comes to.
fn said_by_command<'a, F: Files, R: Threads + Wait + Sync>(
    resources: &Resources<'_, R>,
    command: Command<'a>,
    files: &mut F,
) -> Result<Said<'a>, NoMemory>
    requires { HasSize command }
    ensures answer { IfOk result (λ s. (words : List AnyName) → spec.command_of words ≡ Some (command_now command.entry) →
        IsTold (wants_journal (command_now command.entry)) (IsTrue words (F.known files.old) (F.known files.new)) s) }
    ensures unread { ReadsNone (Some (command_now command.entry)) → files.new ≡ files.old }
{
    match command {
        Command::Run(command) => settled(said_by_files(resources, command, files)),
        Command::Demo(command) => settled(demo(resources, command)),
        Command::Check(command) => settled(check(resources.alloc, command, files)),
        Command::Fmt(command) => settled(fmt(resources.alloc, command, files)),
        Command::Step(command) => settled(step(resources, command, files)),
    }
}

// What the words and the files come to.
fn said_by<'a, F: Files, R: Threads + Wait + Sync>(
    resources: &Resources<'_, R>,
    command: Option<Command<'a>>,
    files: &mut F,
) -> Result<Said<'a>, NoMemory>
    requires { IfSome command HasSize }
    ensures answer { IfOk result (λ s. (words : List AnyName) → option_map command_now command.entry ≡ spec.command_of words →
        IsTold (asks_journal words) (IsTrue words (F.known files.old) (F.known files.new)) s) }
    ensures unread { ReadsNone (option_map command_now command.entry) → files.new ≡ files.old }
{
    match command {
        None => Ok(Said::Refused(Refusal::Usage)),
        Some(command) => said_by_command(resources, command, files),
    }
}

fn reply_to<F: Files, R: Threads + Wait + Sync>(
    resources: &Resources<'_, R>,
    words: &[String],
    files: &mut F,
) -> Result<Reply, NoMemory>
    ensures replies { IfOk result (λ r. Replies (map string_bytes words.now) (F.known files.old) (F.known files.new)
        (status_code r.status) r.journal.items r.result.items r.err.items) }
    ensures unread { ReadsNone (spec.command_of (map string_bytes words.now)) → files.new ≡ files.old }
{
    let command = command_of(resources.alloc, words)?;
    let said = said_by(resources, command, files)?;
    reply_of(resources.alloc, said)
}

// Answers these words: all text is made before the first write.
fn answer_words<F: Files, O: Sink, E: Sink, R: Threads + Wait + Sync>(
    resources: &Resources<'_, R>,
    words: &[String],
    files: &mut F,
    out: &mut O,
    err: &mut E,
) -> u8
    ensures answered { Answered (map string_bytes words.now) (F.known files.old) (F.known files.new)
        (O.known out.old) (O.known out.new) (E.known err.old) (E.known err.new) result }
    ensures complete { Completes (map string_bytes words.now) (F.known files.old) (F.known files.new)
        (O.known out.old) (O.known out.new) (E.known err.old) (E.known err.new) result }
    ensures unread { ReadsNone (spec.command_of (map string_bytes words.now)) → files.new ≡ files.old }
{
    texts_have_one_fault();
    texts_have_one_program();
    texts_have_one_tree();
    canonical_texts_are_read();
    canonical_texts_mean_the_same();
    canonical_texts_stay();
    match reply_to(resources, words, files) {
        Ok(reply) => deliver(&reply, out, err),
        Err(NoMemory) => Status::NoMemory.code(),
    }
}

/// Runs the program's file on the host's, or a demo, checks a trace and a result, writes a program in its canonical
/// text, or walks a script over a run, as the words say, and writes what comes of it. The answer is the status of the
/// process. The words are those behind the program's name, or that memory was refused for them. With two workers or
/// more the call starts threads, and the pace may hold them; it may wait then.
pub fn gp2_main<R: AllocGlobal + Threads + Wait + Sync, F: Files, O: Sink, E: Sink>(
    rt: &R,
    words: Result<Vec<String>, NoMemory>,
    files: &mut F,
    out: &mut O,
    err: &mut E,
    pace: &Pacing,
) -> u8
    ensures answered { IfOk words (λ given. Answered (map string_bytes given.items) (F.known files.old) (F.known files.new)
        (O.known out.old) (O.known out.new) (E.known err.old) (E.known err.new) result) }
    ensures complete { IfOk words (λ given. Completes (map string_bytes given.items) (F.known files.old) (F.known files.new)
        (O.known out.old) (O.known out.new) (E.known err.old) (E.known err.new) result) }
    ensures unread { IfOk words (λ given. ReadsNone (spec.command_of (map string_bytes given.items)) → files.new ≡ files.old) }
    ensures refused { OnErr words (IsSilent files.old files.new out.old out.new err.old err.new result) }
{
    match words {
        Ok(words) => {
            let resources = Resources {
                rt,
                alloc: rt.alloc(),
                pace,
            };
            answer_words(&resources, &words, files, out, err)
        }
        Err(NoMemory) => Status::NoMemory.code(),
    }
}
