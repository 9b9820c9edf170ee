//! The text of an answer.

ghost use Rattle.std.specs.Prelude.{◌≡◌, ◌++◌, ℕ, List, Bool, [], IfOk};
ghost use Rattle.std.specs.Fmt.{decimal};
ghost use Rattle.gp_hostfile.specs.GraphText.{IsGraphText};
ghost use Rattle.gp_hostfile.specs.FaultLines.{line_of as host_line};
ghost use Rattle.gp_reader.specs.FaultLines.{line_of};
ghost use Rattle.gp_syntax.specs.Run.{Item as AnyItem};
ghost use Rattle.gp_trace.specs.declared.version.Version.TheVariants.{Two};
ghost use Rattle.gp_trace.specs.Reading.{IsTraceOf};
ghost use Rattle.gp_journal.specs.Journal.{items_of};
ghost use Rattle.gp_system.specs.Ended.{kept_if, items_left};
ghost use Rattle.gp_cli.specs.Texts.{graph, failed, demo_done, kind_text, number_text, bound_text, read_text, trace_line, script_line, IsJournal};
ghost use Rattle.gp_cli.specs.Said.{said_of, IsLeftOf};
ghost use Rattle.gp_cli.specs.inside.Sides.{IsOnErr, IsOnOut, IsReply, IsReplyTo};

use crate::reply::Reply;
use crate::said::{Refusal, Said};
use crate::status::Status;
use crate::summary_lines::summary;
use gp_gen::Kind;
use gp_graph::Graph;
use gp_hostfile::{HostFault, write_graph};
use gp_journal::Items;
use gp_memory::NoMemory;
use gp_reader::ProgramFault;
use gp_syntax::{Name, NumberKind};
use gp_system::Ran;
use gp_trace::write_trace;
use itoa::Buffer;
use std::alloc::Global;

const USAGE: &[u8] =
    b"usage: gp2 run PROGRAM HOST [--workers N] [--bound N] [--fan N] [--seed N] [--journal] [--batch N]\n       gp2 demo KIND SIZE SEED [--workers N] [--fan N] [--batch N]\n       gp2 check PROGRAM HOST TRACE RESULT\n       gp2 fmt PROGRAM\n       gp2 step PROGRAM HOST SCRIPT [--bound N] [--seed N]\n";

// A line of these three parts.
fn line_of_parts(
    alloc: Global,
    first: &[u8],
    middle: &[u8],
    last: &[u8],
) -> Result<Vec<u8>, NoMemory>
    ensures { IfOk result (λ v. v.items ≡ first.now ++ middle.now ++ last.now) }
{
    let mut line = Vec::from_slice(alloc, first)?;
    line.extend_from_slice(middle)?;
    line.extend_from_slice(last)?;
    Ok(line)
}

fn bound_text(alloc: Global, bound: u64) -> Result<Vec<u8>, NoMemory>
    ensures { IfOk result (λ v. v.items ≡ bound_text bound) }
{
    line_of_parts(
        alloc,
        b"bound ",
        Buffer::new().format(bound).as_bytes(),
        b"\n",
    )
}

fn kind_text(kind: NumberKind) -> &'static [u8]
    ensures { result.now ≡ kind_text kind }
{
    match kind {
        NumberKind::PastBits => b"past-128-bits",
        NumberKind::ZeroDivisor => b"zero-divisor",
    }
}

fn number_text(alloc: Global, rule: &Name, kind: NumberKind) -> Result<Vec<u8>, NoMemory>
    ensures { IfOk result (λ v. v.items ≡ number_text rule.now kind) }
{
    let mut line = line_of_parts(alloc, b"number ", rule.as_bytes(), b" ")?;
    line.extend_from_slice(kind_text(kind))?;
    line.push(b'\n')?;
    Ok(line)
}

fn read_text(alloc: Global, name: &str) -> Result<Vec<u8>, NoMemory>
    ensures { IfOk result (λ v. v.items ≡ read_text name.now) }
{
    line_of_parts(alloc, b"read: ", name.as_bytes(), b"\n")
}

fn trace_line(alloc: Global, line: u64) -> Result<Vec<u8>, NoMemory>
    ensures { IfOk result (λ v. v.items ≡ trace_line line) }
{
    line_of_parts(
        alloc,
        b"trace: Line ",
        Buffer::new().format(line).as_bytes(),
        b"\n",
    )
}

fn script_line(alloc: Global, line: u64) -> Result<Vec<u8>, NoMemory>
    ensures { IfOk result (λ v. v.items ≡ script_line line) }
{
    line_of_parts(
        alloc,
        b"script: Line ",
        Buffer::new().format(line).as_bytes(),
        b"\n",
    )
}

fn program_line(alloc: Global, fault: &ProgramFault) -> Result<Vec<u8>, NoMemory>
    ensures { IfOk result (λ v. v.items ≡ line_of fault.now) }
{
    let mut line = Vec::new(alloc);
    fault.write_line(alloc, &mut line)?;
    Ok(line)
}

fn host_line(alloc: Global, fault: &HostFault) -> Result<Vec<u8>, NoMemory>
    ensures { IfOk result (λ v. v.items ≡ host_line fault.now) }
{
    let mut line = Vec::new(alloc);
    fault.write_line(alloc, &mut line)?;
    Ok(line)
}

fn graph_text(alloc: Global, graph: &Graph) -> Result<Vec<u8>, NoMemory>
    ensures { IfOk result (λ v. IsGraphText graph.now.graph v.items) }
{
    let mut text = Vec::new(alloc);
    write_graph(alloc, graph, &mut text)?;
    Ok(text)
}

fn trace_text(alloc: Global, items: &Items) -> Result<Vec<u8>, NoMemory>
    ensures { IfOk result (λ v. IsTraceOf v.items Two (items_of items.now.items)) }
{
    let mut text = Vec::new(alloc);
    write_trace(alloc, items.as_slice(), &mut text)?;
    Ok(text)
}

// The trace, where the items are kept.
fn journal_text(alloc: Global, ran: &Ran) -> Result<Vec<u8>, NoMemory>
    ensures { IfOk result (λ v. (asked : Bool) (t : List AnyItem) → items_left ran.now ≡ kept_if asked t → IsJournal t asked v.items) }
{
    match &ran.items {
        Some(items) => trace_text(alloc, items),
        None => Ok(Vec::new(alloc)),
    }
}

// An answer on standard error alone.
fn on_err(alloc: Global, status: Status, err: Vec<u8>) -> Reply
    ensures { IsOnErr status err.items result }
{
    Reply {
        status,
        journal: Vec::new(alloc),
        result: Vec::new(alloc),
        err,
    }
}

// An answer on standard output alone.
fn on_out(alloc: Global, status: Status, journal: Vec<u8>, text: Vec<u8>) -> Reply
    ensures { IsOnOut status journal.items text.items result }
{
    Reply {
        status,
        journal,
        result: text,
        err: Vec::new(alloc),
    }
}

// A graph, with its trace where the items are kept.
fn graph_reply(alloc: Global, ran: &Ran) -> Result<Reply, NoMemory>
    ensures { IfOk result (λ r. (asked : Bool) (t : List AnyItem) → IsLeftOf asked t ran.now → IsReply asked (graph t ran.now.graph.graph) r) }
{
    let trace = journal_text(alloc, ran)?;
    let text = graph_text(alloc, &ran.graph)?;
    Ok(on_out(alloc, Status::Graph, trace, text))
}

fn fail_reply(alloc: Global, ran: &Ran) -> Result<Reply, NoMemory>
    ensures { IfOk result (λ r. (asked : Bool) (t : List AnyItem) → IsLeftOf asked t ran.now → IsReply asked (failed t) r) }
{
    let trace = journal_text(alloc, ran)?;
    let text = Vec::from_slice(alloc, b"fail\n")?;
    Ok(on_out(alloc, Status::Fail, trace, text))
}

// The summary of a demo.
fn demo_reply(alloc: Global, kind: Kind, size: u64, ran: &Ran) -> Result<Reply, NoMemory>
    ensures { IfOk result (λ r. (asked : Bool) (t : List AnyItem) → IsLeftOf asked t ran.now → IsReply asked (demo_done kind size t ran.now.graph.graph) r) }
{
    let text = summary(alloc, kind, size, &ran.graph, ran.live)?;
    Ok(on_out(alloc, Status::Graph, Vec::new(alloc), text))
}

// What a check says, on standard output.
fn verdict(alloc: Global, status: Status, text: &[u8]) -> Result<Reply, NoMemory>
    ensures { IfOk result (IsOnOut status [] text.now) }
{
    let copied = Vec::from_slice(alloc, text)?;
    Ok(on_out(alloc, status, Vec::new(alloc), copied))
}

// A refusal that is always told by the same text.
fn refusal(alloc: Global, status: Status, text: &[u8]) -> Result<Reply, NoMemory>
    ensures { IfOk result (IsOnErr status text.now) }
{
    Ok(on_err(alloc, status, Vec::from_slice(alloc, text)?))
}

// A refusal that is told by this line, unless memory is refused for it.
fn told(alloc: Global, status: Status, line: Result<Vec<u8>, NoMemory>) -> Result<Reply, NoMemory>
    ensures { (text : List ℕ) → IfOk line (λ v. v.items ≡ text) → IfOk result (IsOnErr status text) }
{
    match line {
        Ok(line) => Ok(on_err(alloc, status, line)),
        Err(NoMemory) => Err(NoMemory),
    }
}

// The texts of a refusal.
fn refused(alloc: Global, why: &Refusal<'_>) -> Result<Reply, NoMemory>
    ensures { IfOk result (λ r. (asked : Bool) → IsReply asked (said_of why.now) r) }
{
    match why {
        Refusal::Usage => refusal(alloc, Status::Words, USAGE),
        Refusal::LongProgram => refusal(alloc, Status::Program, b"program: TooLong\n"),
        Refusal::BadProgram(fault) => told(alloc, Status::Program, program_line(alloc, fault)),
        Refusal::LongHost => refusal(alloc, Status::Host, b"host: TooLong\n"),
        Refusal::BadHost(fault) => told(alloc, Status::Host, host_line(alloc, fault)),
        Refusal::LongTrace => refusal(alloc, Status::Trace, b"trace: TooLong\n"),
        Refusal::BadTrace(line) => told(alloc, Status::Trace, trace_line(alloc, *line)),
        Refusal::LongResult => refusal(alloc, Status::Trace, b"result: TooLong\n"),
        Refusal::LongScript => refusal(alloc, Status::Script, b"script: TooLong\n"),
        Refusal::BadScript(line) => told(alloc, Status::Script, script_line(alloc, *line)),
        Refusal::Unread(name) => told(alloc, Status::Read, read_text(alloc, name)),
    }
}

/// The texts of an answer, with the journal where its items are kept. Texts that it holds are not copied.
pub(crate) fn reply_of(alloc: Global, said: Said<'_>) -> Result<Reply, NoMemory>
    ensures { IfOk result (IsReplyTo said.entry) }
{
    match said {
        Said::Graph(ran) => graph_reply(alloc, &ran),
        Said::Fail(ran) => fail_reply(alloc, &ran),
        Said::Demo(kind, size, ran) => demo_reply(alloc, kind, size, &ran),
        Said::Derivation => verdict(alloc, Status::Derivation, b"derivation\n"),
        Said::NoDerivation => verdict(alloc, Status::NoDerivation, b"no derivation\n"),
        Said::Formatted(text) => Ok(on_out(alloc, Status::Formatted, Vec::new(alloc), text)),
        Said::Walked(text) => Ok(on_out(alloc, Status::Walked, Vec::new(alloc), text)),
        Said::Bound(bound) => told(alloc, Status::Bound, bound_text(alloc, bound)),
        Said::Number(rule, kind) => told(alloc, Status::Number, number_text(alloc, &rule, kind)),
        Said::Refused(why) => refused(alloc, &why),
    }
}
