//! Rules whose conditions ask for the edges between two nodes.

use gp_syntax::{Cond, MarkPattern, Rule};
use gp_values::EdgeMark;

/// Whether `edge` stands in the condition of one of the rules, so that an index of edges by their ends serves it. No contract
/// says anything of it, as of a hint.
pub fn conditions_ask_between(rules: &[Rule]) -> bool {
    for rule in rules {
        if let Some(condition) = &rule.parts().condition {
            if asks_between(condition) {
                return true;
            }
        }
    }
    false
}

#[cycle(asks_between)]
fn asks_between(condition: &Cond<u32, MarkPattern<EdgeMark>>) -> bool {
    match condition {
        Cond::HasType(_, _) => false,
        Cond::HasEdge(_, _) => true,
        Cond::HasEdgeWith(_, _, _, _) => true,
        Cond::Compared(_, _, _) => false,
        Cond::Not(part) => asks_between(part.get()),
        Cond::And(first, rest) => asks_between(first.get()) || some_between(rest.as_slice()),
        Cond::Or(first, rest) => asks_between(first.get()) || some_between(rest.as_slice()),
    }
}

#[cycle(asks_between)]
fn some_between(rest: &[Cond<u32, MarkPattern<EdgeMark>>]) -> bool {
    'parts: for part in rest {
        if asks_between(part) {
            return true;
        }
    }
    false
}
