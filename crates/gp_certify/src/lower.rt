//! Commands are put into a table, each behind its parts.

ghost use Rattle.std.specs.Prelude.{◌≡◌, [], ◌∷◌, length, map, IfOk};
ghost use Rattle.gp_syntax.specs.Run.{If, Procedure};
ghost use Rattle.gp_syntax.specs.Tree.{command_of, program_of_tree};
ghost use Rattle.gp_certify.specs.Code.{at};
ghost use Rattle.gp_certify.specs.inside.Table.{Lowers, grouped};
ghost use Rattle.gp_certify.specs.inside.Fits.{Fits};

use crate::node::Node;
use crate::table::{Chain, Table, joined, put};
use gp_memory::NoMemory;
use gp_syntax::{Command, Program};
use sqlite_items::{Boxed, Items};

/// Puts a command into the table, and tells its number. A chain of calls that begins in it has at most `depth` procedures.
#[cycle(lower)]
pub(crate) fn lower(
    program: &Program,
    depth: u32,
    command: &Command,
    table: &mut Table,
) -> Result<u32, NoMemory>
    requires fits { Fits (program_of_tree program.now) depth (command_of command.now) }
    requires roots { length table.old.roots.items ≡ length program.now.procedures }
    ensures roots { length table.new.roots.items ≡ length table.old.roots.items }
    ensures lowers { IfOk result (λ n. Lowers (program_of_tree program.now) table.old table.new (n ∷ []) (command_of command.now ∷ [])) }
{
    match command {
        Command::Call(call) => put(table, Node::Call(*call)),
        Command::Seq(first, rest) => {
            lower_chain(program, depth, Chain::Sequence, first, rest, table)
        }
        Command::If(condition, then, otherwise) => {
            let (condition, then, otherwise) = lower_branches(
                program, depth, condition, then, otherwise, table,
            )?;
            put(table, Node::If(condition, then, otherwise))
        }
        Command::Try(condition, then, otherwise) => {
            let (condition, then, otherwise) = lower_branches(
                program, depth, condition, then, otherwise, table,
            )?;
            put(table, Node::Try(condition, then, otherwise))
        }
        Command::Loop(body) => {
            let body = lower(program, depth, body.get(), table)?;
            put(table, Node::Loop(body))
        }
        Command::Or(first, rest) => {
            lower_chain(program, depth, Chain::Choice, first, rest, table)
        }
        Command::Skip => put(table, Node::Skip),
        Command::Fail => put(table, Node::Fail),
        Command::Break => put(table, Node::Break),
        Command::Proc(procedure) => {
            let body = lower_body(program, depth, *procedure, table)?;
            put(table, Node::Proc(*procedure, body))
        }
    }
}

// A chain, grouped from the left.
#[cycle(lower)]
fn lower_chain(
    program: &Program,
    depth: u32,
    chain: Chain,
    first: &Boxed<Command>,
    rest: &Items<Command>,
    table: &mut Table,
) -> Result<u32, NoMemory>
    requires fits { Fits (program_of_tree program.now) depth (grouped chain (command_of first.now) (map command_of rest.now)) }
    requires roots { length table.old.roots.items ≡ length program.now.procedures }
    ensures roots { length table.new.roots.items ≡ length table.old.roots.items }
    ensures lowers { IfOk result (λ n. Lowers (program_of_tree program.now) table.old table.new (n ∷ []) (grouped chain (command_of first.now) (map command_of rest.now) ∷ [])) }
{
    let mut so_far = lower(program, depth, first.get(), table)?;
    'parts: for part in rest.as_slice() {
        let next = lower(program, depth, part, table)?;
        so_far = put(table, joined(chain, so_far, next))?;
    }
    Ok(so_far)
}

// The parts of an `if` or a `try`.
#[cycle(lower)]
fn lower_branches(
    program: &Program,
    depth: u32,
    condition: &Boxed<Command>,
    then: &Boxed<Command>,
    otherwise: &Boxed<Command>,
    table: &mut Table,
) -> Result<(u32, u32, u32), NoMemory>
    requires fits { Fits (program_of_tree program.now) depth (If (command_of condition.now) (command_of then.now) (command_of otherwise.now)) }
    requires roots { length table.old.roots.items ≡ length program.now.procedures }
    ensures roots { length table.new.roots.items ≡ length table.old.roots.items }
    ensures lowers { IfOk result (λ n. Lowers (program_of_tree program.now) table.old table.new (n.0 ∷ n.1 ∷ n.2 ∷ []) (command_of condition.now ∷ command_of then.now ∷ command_of otherwise.now ∷ [])) }
{
    let condition = lower(program, depth, condition.get(), table)?;
    let then = lower(program, depth, then.get(), table)?;
    let otherwise = lower(program, depth, otherwise.get(), table)?;
    Ok((condition, then, otherwise))
}

// The body of a procedure, which is put into the table at the first call.
#[cycle(lower)]
fn lower_body(
    program: &Program,
    depth: u32,
    procedure: u32,
    table: &mut Table,
) -> Result<u32, NoMemory>
    requires fits { Fits (program_of_tree program.now) depth (Procedure procedure) }
    requires roots { length table.old.roots.items ≡ length program.now.procedures }
    ensures roots { length table.new.roots.items ≡ length table.old.roots.items }
    ensures lowers { IfOk result (λ n. Lowers (program_of_tree program.now) table.old table.new (n ∷ []) (at (program_of_tree program.now).procedures procedure ∷ [])) }
{
    if let Some(body) = table.roots[procedure as usize] {
        return Ok(body);
    }
    let parts = program.parts();
    let body = lower(
        program,
        depth - 1,
        &parts.procedures.as_slice()[procedure as usize],
        table,
    )?;
    table.roots[procedure as usize] = Some(body);
    Ok(body)
}
