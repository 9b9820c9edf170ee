//! Programs as text.

ghost use Rattle.std.specs.Prelude.{◌≡◌, ◌++◌, List, ℕ, OnOk, OnErr, IfOk};
ghost use Rattle.std.specs.List.{flat_map};
ghost use Rattle.gp_values.specs.Texts.{IsBegun};
ghost use Rattle.gp_reader.specs.Program.{HasTree};
ghost use Rattle.gp_fmt.specs.Canonical.{declaration, line, canonical_text};
ghost use Rattle.gp_fmt.specs.Laws.{IsReadAgain};

use crate::declarations::put_declaration;
use crate::laws::canonical_texts_are_read;
use crate::piece::Piece;
use crate::sheet::Sheet;
use crate::write::{write_spaced, write_text};
use gp_memory::NoMemory;
use gp_syntax::{Ast, Decl};
use std::alloc::Global;

/// Writes the canonical text of the tree. On refusal `text` holds what it held, and behind it a beginning of the
/// canonical text. Where the tree is that of a text, what is written is cut into the tree's tokens and is read as the tree.
pub fn print_program(alloc: Global, ast: &Ast, text: &mut Vec<u8>) -> Result<(), NoMemory>
    ensures ok { OnOk result (text.new.items ≡ text.old.items ++ canonical_text ast.now) }
    ensures err { OnErr result (IsBegun (canonical_text ast.now) text.old.items text.new.items) }
    ensures read { (bytes : List ℕ) → HasTree bytes ast.now → IsReadAgain ast.now }
{
    canonical_texts_are_read();
    print_lines(alloc, ast.declarations.as_slice(), text)
}

fn print_lines(alloc: Global, declarations: &[Decl], text: &mut Vec<u8>) -> Result<(), NoMemory>
    ensures ok { OnOk result (text.new.items ≡ text.old.items ++ flat_map line declarations.now) }
    ensures err { OnErr result (IsBegun (flat_map line declarations.now) text.old.items text.new.items) }
{
    'each: for d in declarations {
        print_line(alloc, d, text)?;
    }
    Ok(())
}

// Writes the line of a declaration.
fn print_line(alloc: Global, d: &Decl, text: &mut Vec<u8>) -> Result<(), NoMemory>
    ensures ok { OnOk result (text.new.items ≡ text.old.items ++ line d.now) }
    ensures err { OnErr result (IsBegun (line d.now) text.old.items text.new.items) }
{
    let pieces = pieces_of(alloc, d)?;
    write_spaced(&pieces, text)?;
    write_text(b"\n", text)
}

// The tokens of a declaration.
fn pieces_of<'a>(alloc: Global, d: &'a Decl) -> Result<Vec<Piece<'a>>, NoMemory>
    ensures { IfOk result (λ ps. ps.items ≡ declaration d.now) }
{
    let mut sheet = Sheet::new(alloc);
    put_declaration(d, &mut sheet);
    sheet.into_pieces()
}
