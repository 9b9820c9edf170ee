//! Rules and hosts from their texts, and the tokens and the trees of texts.

use gp_graph::Graph;
use gp_hostfile::{HostFault, read_host};
use gp_program::parse_program;
use gp_reader::{ProgramFault, read_rules};
use gp_rows::Answer;
use gp_syntax::{Ast, Items, Rule};
use gp_tokens::{Token, lex};
use std::alloc::Global;

/// The rules of a text, in its order: those of the program that it is behind `Main = skip`.
pub(crate) fn rules_of(alloc: Global, text: &[u8]) -> Result<Items<Rule>, ProgramFault> {
    let mut program = Vec::from_slice(alloc, b"Main = skip ")?;
    program.extend_from_slice(text)?;
    read_rules(alloc, &program)
}

/// The graph of a host text.
pub(crate) fn host_of(alloc: Global, text: &[u8]) -> Result<Graph, HostFault> {
    read_host(alloc, text)
}

/// The tokens of a text; none where it has a fault, which is told.
pub(crate) fn tokens_of<'a>(
    alloc: Global,
    text: &'a [u8],
    out: &mut Answer,
) -> Option<Vec<Token<'a>>> {
    match lex(alloc, text) {
        Ok(tokens) => Some(tokens),
        Err(fault) => {
            out.show(&fault);
            None
        }
    }
}

/// The tree of a text; none where it has a fault, which is told.
pub(crate) fn tree_of(alloc: Global, text: &[u8], out: &mut Answer) -> Option<Ast> {
    let tokens = tokens_of(alloc, text, out)?;
    match parse_program(alloc, &tokens) {
        Ok(tree) => Some(tree),
        Err(fault) => {
            out.show(&fault);
            None
        }
    }
}
