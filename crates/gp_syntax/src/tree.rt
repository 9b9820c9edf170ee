//! The tree of a program text: declarations with names, as they are written. Comments, positions, leading zeros, missing
//! parts and brackets without declarations leave no trace in it.

use crate::expression::{Cond, Expr};
use crate::kinds::VariableType;
use crate::name::Name;
use sqlite_items::{Boxed, Items};

/// Variables that are declared together, as `x, y : int`: the first and the further ones.
pub struct VariableGroup {
    pub first: Name,
    pub rest: Items<Name>,
    pub variable_type: VariableType,
}

impl Drop for VariableGroup {
    fn drop(self) {
        let VariableGroup {
            first,
            rest,
            variable_type: _,
        } = self;
        drop(first);
        drop(rest);
    }
}

/// A node of a side: its name, whether it is a root, its label, and the word behind `#`, if one is written.
pub struct NodeDecl {
    pub name: Name,
    pub root: bool,
    pub label: Expr<Name>,
    pub mark: Option<Name>,
}

impl Drop for NodeDecl {
    fn drop(self) {
        let NodeDecl {
            name,
            root: _,
            label,
            mark,
        } = self;
        drop(name);
        drop(label);
        drop(mark);
    }
}

/// An edge of a side: its name, whether it has `(B)`, the names of its ends, its label, and the word behind `#`.
pub struct EdgeDecl {
    pub name: Name,
    pub bidirectional: bool,
    pub source: Name,
    pub target: Name,
    pub label: Expr<Name>,
    pub mark: Option<Name>,
}

impl Drop for EdgeDecl {
    fn drop(self) {
        let EdgeDecl {
            name,
            bidirectional: _,
            source,
            target,
            label,
            mark,
        } = self;
        drop(name);
        drop(source);
        drop(target);
        drop(label);
        drop(mark);
    }
}

/// A side of a rule.
pub struct GraphDecl {
    pub nodes: Items<NodeDecl>,
    pub edges: Items<EdgeDecl>,
}

impl Drop for GraphDecl {
    fn drop(self) {
        let GraphDecl { nodes, edges } = self;
        drop(nodes);
        drop(edges);
    }
}

/// A rule as it is declared. The interface lists names of nodes.
pub struct RuleDecl {
    pub name: Name,
    pub variables: Items<VariableGroup>,
    pub left: GraphDecl,
    pub right: GraphDecl,
    pub interface: Items<Name>,
    pub condition: Option<Cond<Name, Option<Name>>>,
}

impl Drop for RuleDecl {
    fn drop(self) {
        let RuleDecl {
            name,
            variables,
            left,
            right,
            interface,
            condition,
        } = self;
        drop(name);
        drop(variables);
        drop(left);
        drop(right);
        drop(interface);
        drop(condition);
    }
}

/// A command that names rules and procedures. A chain has a first part and further ones; a call of one rule is that of
/// the set of it alone; a missing `then` or `else` is `Skip`.
pub enum CommandTree {
    Call(Items<Name>),
    Procedure(Name),
    Seq(Boxed<CommandTree>, Items<CommandTree>),
    If(Boxed<CommandTree>, Boxed<CommandTree>, Boxed<CommandTree>),
    Try(Boxed<CommandTree>, Boxed<CommandTree>, Boxed<CommandTree>),
    Loop(Boxed<CommandTree>),
    Or(Boxed<CommandTree>, Items<CommandTree>),
    Skip,
    Fail,
    Break,
}

/// A declaration: of a procedure, Main among them, with its local declarations, or of a rule.
#[derive(Drop)]
pub enum Decl {
    Procedure {
        name: Name,
        declarations: Items<Decl>,
        body: CommandTree,
    },
    Rule(RuleDecl),
}

/// A program text.
#[derive(Drop)]
pub struct Ast {
    pub declarations: Items<Decl>,
}

// Written, so that a function that lets a command go calls it.
impl Drop for CommandTree {
    fn drop(self) {
        match self {
            CommandTree::Skip | CommandTree::Fail | CommandTree::Break => {}
            CommandTree::Call(names) => drop(names),
            CommandTree::Procedure(name) => drop(name),
            CommandTree::Seq(first, rest) | CommandTree::Or(first, rest) => {
                drop(first);
                drop(rest);
            }
            CommandTree::If(test, first, second) | CommandTree::Try(test, first, second) => {
                drop(test);
                drop(first);
                drop(second);
            }
            CommandTree::Loop(body) => drop(body),
        }
    }
}
