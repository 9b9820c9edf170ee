//! What is answered where a text is refused.

ghost use Rattle.std.specs.Prelude.{◌≡◌};
ghost use Rattle.gp_cli.specs.Said.{program_refused, host_refused, trace_refused, script_refused};

use crate::said::{Refusal, Stop};
use gp_derivation::ScriptFault;
use gp_hostfile::HostFault;
use gp_reader::ProgramFault;
use gp_trace::TraceFault;

/// What is answered where a program is refused so.
pub(crate) fn program_refused<'a>(fault: ProgramFault) -> Stop<'a>
    ensures { result ≡ program_refused fault }
{
    match fault {
        ProgramFault::NoMemory => Stop::NoMemory,
        other => Stop::Said(Refusal::BadProgram(other)),
    }
}

/// The same of a host.
pub(crate) fn host_refused<'a>(fault: HostFault) -> Stop<'a>
    ensures { result ≡ host_refused fault }
{
    match fault {
        HostFault::NoMemory => Stop::NoMemory,
        other => Stop::Said(Refusal::BadHost(other)),
    }
}

/// The same of a trace.
pub(crate) fn trace_refused<'a>(fault: TraceFault) -> Stop<'a>
    ensures { result ≡ trace_refused fault }
{
    match fault {
        TraceFault::Line(line) => Stop::Said(Refusal::BadTrace(line)),
        TraceFault::NoMemory => Stop::NoMemory,
    }
}

/// The same of a script.
pub(crate) fn script_refused<'a>(fault: ScriptFault) -> Stop<'a>
    ensures { result ≡ script_refused fault }
{
    match fault {
        ScriptFault::Line(line) => Stop::Said(Refusal::BadScript(line)),
        ScriptFault::NoMemory => Stop::NoMemory,
    }
}
