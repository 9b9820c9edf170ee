//! What a program is written as.

ghost use Rattle.std.specs.Prelude.{false, IfOk};
ghost use Rattle.gp_fmt.specs.Canonical.{canonical_text};
ghost use Rattle.gp_words.specs.Told.{fmt_now};
ghost use Rattle.gp_cli.specs.Texts.{formatted};
ghost use Rattle.gp_cli.specs.Said.{Tells};
ghost use Rattle.gp_cli.specs.inside.Parts.{FormatsFile};

use crate::files::load_tree;
use crate::said::{Said, Stop, or_stopped};
use gp_fmt::print_program;
use gp_io::Files;
use gp_memory::NoMemory;
use gp_syntax::Ast;
use gp_words::FmtCommand;
use std::alloc::Global;

// The canonical text of a tree.
fn canonical<'a>(alloc: Global, tree: &Ast) -> Result<Said<'a>, NoMemory>
    ensures { IfOk result (λ s. Tells false s (formatted (canonical_text tree.now))) }
{
    let mut text = Vec::new(alloc);
    print_program(alloc, tree, &mut text)?;
    Ok(Said::Formatted(text))
}

/// What the file of a program comes to.
pub(crate) fn fmt<'a, F: Files>(
    alloc: Global,
    command: FmtCommand<'a>,
    files: &mut F,
) -> Result<Said<'a>, Stop<'a>>
    ensures { FormatsFile (F.known files.old) (F.known files.new) (fmt_now command.entry) result }
{
    let tree = load_tree(alloc, files, command.program)?;
    or_stopped(canonical(alloc, &tree))
}
