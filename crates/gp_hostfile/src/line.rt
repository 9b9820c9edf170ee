//! The line that names why a host is refused.

ghost use Rattle.std.specs.Prelude.{◌≡◌, ◌++◌, OnErr, OnOk};
ghost use Rattle.std.specs.Fmt.{decimal};
ghost use Rattle.gp_hostfile.specs.FaultLines.{fault_text, line_of};
ghost use Rattle.gp_hostfile.specs.inside.Puts.{Puts, Says};

use crate::fault::HostFault;
use crate::sheet::Sheet;
use gp_memory::NoMemory;
use gp_tokens::Text;
use std::alloc::Global;

impl HostFault {
    /// Puts the line that names the fault behind what `text` holds. On refusal `text` is as before.
    pub fn write_line(&self, alloc: Global, text: &mut Vec<u8>) -> Result<(), NoMemory>
        ensures ok { OnOk result (text.new.items ≡ text.old.items ++ line_of self.now) }
        ensures err { OnErr result (text.new.items ≡ text.old.items) }
    {
        let line = line_of(alloc, self).into_text()?;
        text.extend_from_slice(&line)?;
        Ok(())
    }
}

fn line_of(alloc: Global, fault: &HostFault) -> Sheet
    ensures { Says result (line_of fault.now) }
{
    let mut sheet = Sheet::new(alloc);
    sheet.put(b"host: ");
    put_fault(fault, &mut sheet);
    sheet.put(b"\n");
    sheet
}

// A kind of fault and a number.
fn put_number(kind: &[u8], number: u64, sheet: &mut Sheet)
    ensures { Puts sheet.old sheet.new (kind.now ++ decimal number) }
{
    sheet.put(kind);
    sheet.number(number);
}

// A kind of fault and a name.
fn put_name(kind: &[u8], name: &Text, sheet: &mut Sheet)
    ensures { Puts sheet.old sheet.new (kind.now ++ name.now) }
{
    sheet.put(kind);
    sheet.put(name.as_bytes());
}

fn put_fault(fault: &HostFault, sheet: &mut Sheet)
    ensures { Puts sheet.old sheet.new (fault_text fault.now) }
{
    match fault {
        HostFault::Lex(fault) => sheet.lex_fault(fault),
        HostFault::Syntax(line) => put_number(b"Syntax line ", *line, sheet),
        HostFault::NumberRange(at) => put_number(b"NumberRange ", *at, sheet),
        HostFault::TwoNodes(name) => put_name(b"TwoNodes ", name, sheet),
        HostFault::TwoEdges(name) => put_name(b"TwoEdges ", name, sheet),
        HostFault::NoSuchEnd(name) => put_name(b"NoSuchEnd ", name, sheet),
        HostFault::WrongMark(name) => put_name(b"WrongMark ", name, sheet),
        HostFault::NoMemory => sheet.put(b"NoMemory"),
    }
}
