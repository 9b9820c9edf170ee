//! The text of a label.

ghost use Rattle.std.specs.Prelude.{◌≡◌, ◌++◌, codes, OnOk, OnErr};
ghost use Rattle.std.specs.List.{flat_map};
ghost use Rattle.gp_values.specs.Labels.{atom_text, label_text};
ghost use Rattle.gp_values.specs.Texts.{IsBegun};

use crate::atom::Atom;
use crate::list::List;
use gp_memory::NoMemory;
use itoa::Buffer;

impl List {
    /// Writes the text of the label: `empty`, or its atoms with a colon between each two. On refusal `out` holds what
    /// it held, and behind it a beginning of the text.
    pub fn write_label(&self, out: &mut Vec<u8>) -> Result<(), NoMemory>
        ensures ok { OnOk result (out.new.items ≡ out.old.items ++ label_text self.now) }
        ensures err { OnErr result (IsBegun (label_text self.now) out.old.items out.new.items) }
    {
        match self.atoms() {
            [] => write_text(b"empty", out),
            [first, rest @ ..] => {
                write_atom(first, out)?;
                write_rest(rest, out)
            }
        }
    }
}

fn write_text(text: &[u8], out: &mut Vec<u8>) -> Result<(), NoMemory>
    ensures ok { OnOk result (out.new.items ≡ out.old.items ++ text.now) }
    ensures err { OnErr result (out.new.items ≡ out.old.items) }
{
    out.extend_from_slice(text)?;
    Ok(())
}

fn write_string(text: &[u8], out: &mut Vec<u8>) -> Result<(), NoMemory>
    ensures ok { OnOk result (out.new.items ≡ out.old.items ++ (codes "\"" ++ text.now ++ codes "\"")) }
    ensures err { OnErr result (IsBegun (codes "\"" ++ text.now ++ codes "\"") out.old.items out.new.items) }
{
    write_text(b"\"", out)?;
    write_text(text, out)?;
    write_text(b"\"", out)
}

fn write_atom(atom: &Atom, out: &mut Vec<u8>) -> Result<(), NoMemory>
    ensures ok { OnOk result (out.new.items ≡ out.old.items ++ atom_text atom.now) }
    ensures err { OnErr result (IsBegun (atom_text atom.now) out.old.items out.new.items) }
{
    match atom {
        Atom::Int(n) => write_text(Buffer::new().format(n.get()).as_bytes(), out),
        Atom::Str(text) => write_string(text.get().as_bytes(), out),
    }
}

fn write_next(atom: &Atom, out: &mut Vec<u8>) -> Result<(), NoMemory>
    ensures ok { OnOk result (out.new.items ≡ out.old.items ++ (codes ":" ++ atom_text atom.now)) }
    ensures err { OnErr result (IsBegun (codes ":" ++ atom_text atom.now) out.old.items out.new.items) }
{
    write_text(b":", out)?;
    write_atom(atom, out)
}

fn write_rest(rest: &[Atom], out: &mut Vec<u8>) -> Result<(), NoMemory>
    ensures ok { OnOk result (out.new.items ≡ out.old.items ++ flat_map (λ y. codes ":" ++ atom_text y) rest.now) }
    ensures err { OnErr result (IsBegun (flat_map (λ y. codes ":" ++ atom_text y) rest.now) out.old.items out.new.items) }
{
    for atom in rest {
        write_next(atom, out)?;
    }
    Ok(())
}
