//! The lines that name why a program is refused.

ghost use Rattle.std.specs.Prelude.{◌≡◌, ◌++◌, IfOk, OnErr, OnOk};
ghost use Rattle.std.specs.Fmt.{decimal};
ghost use Rattle.gp_reader.specs.FaultLines.{fault_text, line_of, rule_text, scope_text};

use crate::fault::ProgramFault;
use gp_check::RuleFault;
use gp_memory::NoMemory;
use gp_scope::ScopeFault;
use gp_syntax::Name;
use itoa::Buffer;
use std::alloc::Global;

impl ProgramFault {
    /// Puts the line that names the fault behind what `text` holds. On refusal `text` is as before.
    pub fn write_line(&self, alloc: Global, text: &mut Vec<u8>) -> Result<(), NoMemory>
        ensures ok { OnOk result (text.new.items ≡ text.old.items ++ line_of self.now) }
        ensures err { OnErr result (text.new.items ≡ text.old.items) }
    {
        let line = line_of(alloc, self)?;
        text.extend_from_slice(&line)?;
        Ok(())
    }
}

fn line_of(alloc: Global, fault: &ProgramFault) -> Result<Vec<u8>, NoMemory>
    ensures { IfOk result (λ v. v.items ≡ line_of fault.now) }
{
    let mut line = Vec::from_slice(alloc, b"program: ")?;
    write_fault(fault, &mut line)?;
    line.push(b'\n')?;
    Ok(line)
}

fn write(piece: &[u8], text: &mut Vec<u8>) -> Result<(), NoMemory>
    ensures { OnOk result (text.new.items ≡ text.old.items ++ piece.now) }
{
    text.extend_from_slice(piece)?;
    Ok(())
}

// A kind of fault and a number.
fn write_number(kind: &[u8], number: u64, text: &mut Vec<u8>) -> Result<(), NoMemory>
    ensures { OnOk result (text.new.items ≡ text.old.items ++ (kind.now ++ decimal number)) }
{
    write(kind, text)?;
    write(Buffer::new().format(number).as_bytes(), text)
}

// A kind of fault and a name.
fn write_name(kind: &[u8], name: &Name, text: &mut Vec<u8>) -> Result<(), NoMemory>
    ensures { OnOk result (text.new.items ≡ text.old.items ++ (kind.now ++ name.now)) }
{
    write(kind, text)?;
    write(name.as_bytes(), text)
}

fn write_fault(fault: &ProgramFault, text: &mut Vec<u8>) -> Result<(), NoMemory>
    ensures { OnOk result (text.new.items ≡ text.old.items ++ fault_text fault.now) }
{
    match fault {
        ProgramFault::Lex(fault) => fault.write_text(text),
        ProgramFault::TooDeep { line } => write_number(b"TooDeep line ", *line, text),
        ProgramFault::Syntax { line } => write_number(b"Syntax line ", *line, text),
        ProgramFault::NumberRange { line } => write_number(b"NumberRange line ", *line, text),
        ProgramFault::Scope(fault) => write_scope(fault, text),
        ProgramFault::Rule { name, fault } => {
            write_name(b"rule ", name, text)?;
            write(b": ", text)?;
            write_rule(fault, text)
        }
        ProgramFault::NoMemory => write(b"NoMemory", text),
    }
}

fn write_scope(fault: &ScopeFault, text: &mut Vec<u8>) -> Result<(), NoMemory>
    ensures { OnOk result (text.new.items ≡ text.old.items ++ scope_text fault.now) }
{
    match fault {
        ScopeFault::NoMain => write(b"NoMain", text),
        ScopeFault::TwoMains => write(b"TwoMains", text),
        ScopeFault::TwoRules(name) => write_name(b"TwoRules ", name, text),
        ScopeFault::Unknown(name) => write_name(b"Unknown ", name, text),
        ScopeFault::Recursive(name) => write_name(b"Recursive ", name, text),
        ScopeFault::DeepCalls(name) => write_name(b"DeepCalls ", name, text),
        ScopeFault::StrayBreak => write(b"StrayBreak", text),
        ScopeFault::NoMemory => write(b"NoMemory", text),
    }
}

fn write_rule(fault: &RuleFault, text: &mut Vec<u8>) -> Result<(), NoMemory>
    ensures { OnOk result (text.new.items ≡ text.old.items ++ rule_text fault.now) }
{
    match fault {
        RuleFault::TooLarge => write(b"TooLarge", text),
        RuleFault::TwiceDeclared(name) => write_name(b"TwiceDeclared ", name, text),
        RuleFault::UnknownNode(name) => write_name(b"UnknownNode ", name, text),
        RuleFault::BadInterface(name) => write_name(b"BadInterface ", name, text),
        RuleFault::Unbound(name) => write_name(b"Unbound ", name, text),
        RuleFault::BadType => write(b"BadType", text),
        RuleFault::NotSimple => write(b"NotSimple", text),
        RuleFault::BadMark => write(b"BadMark", text),
        RuleFault::BadBidi(name) => write_name(b"BadBidi ", name, text),
        RuleFault::NoMemory => write(b"NoMemory", text),
    }
}
