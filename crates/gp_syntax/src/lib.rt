//! Rules, matches, steps, commands and runs: what a GP 2 program means.
//!
//! The meaning stands in `specs/`: begin with `Expression`, `Rule`, `Match`, `Step` and `Run`, which are what every
//! contract above speaks of (Plump 2012, "The Design of GP 2"; Bak 2015 for roots, `any` and `(B)`). `laws` has what holds
//! of these definitions, with worked examples.
//! Here are the types that carry it: the tree of a program text (`Ast`, `RuleDecl`, `CommandTree`, `Expr`, `Cond`), the
//! checked rule (`Rule`, whose parts are those of a declaration without a fault), the assignment that is being found,
//! the match (`Found`), the item of a trace, and the program. `specs/Tree` says what each of them stands for.
#![tactic(auto)]

mod assignment;
mod command;
mod expression;
mod found;
mod kinds;
mod label;
pub mod laws;
mod name;
mod rule;
pub mod sharing;
mod tree;

pub use assignment::Assignment;
pub use command::{Command, Program, ProgramParts};
pub use expression::{Cond, Expr, ProductSign, Signed, SumSign};
pub use found::{EdgeImage, Found, INLINE_EDGES, INLINE_NODES, Item};
pub use kinds::{Comparison, NumberKind, VariableType, is_of};
pub use label::SimpleLabel;
pub use name::Name;
pub use rule::{LeftEdge, LeftNode, MarkPattern, RightEdge, RightNode, Rule, RuleParts};
pub use sqlite_items::{Boxed, Items};
pub use tree::{Ast, CommandTree, Decl, EdgeDecl, GraphDecl, NodeDecl, RuleDecl, VariableGroup};
