//! Trees of program texts as bracketed texts, which is how the rows give them: a word and its parts in parentheses.

use super::{pieces, terms};
use gp_rows::{Answer, Wrong};
use gp_syntax::{
    Ast, CommandTree, Cond, Decl, EdgeDecl, Expr, GraphDecl, Name, NodeDecl, ProductSign, RuleDecl,
    Signed, SumSign, VariableGroup, VariableType,
};
use std::alloc::Global;

/// A part of a tree that is to be written, or several of one kind.
#[derive(Clone, Copy)]
pub(super) enum Piece<'a> {
    Declarations(&'a [Decl]),
    Rule(&'a RuleDecl),
    Variables(&'a [VariableGroup]),
    Graph(&'a GraphDecl),
    Nodes(&'a [NodeDecl]),
    Edges(&'a [EdgeDecl]),
    Commands(&'a [CommandTree]),
    Command(&'a CommandTree),
    Expressions(&'a [Expr<Name>]),
    Expression(&'a Expr<Name>),
    Terms(&'a [Signed<SumSign, Expr<Name>>]),
    Factors(&'a [Signed<ProductSign, Expr<Name>>]),
    Conditions(&'a [Cond<Name, Option<Name>>]),
    Condition(&'a Cond<Name, Option<Name>>),
    Where(&'a Option<Cond<Name, Option<Name>>>),
    Mark(&'a Option<Name>),
    Names(&'a [Name]),
    Name(&'a Name),
    Interface(&'a [Name]),
    Word(&'static str),
    Number(i128),
    Close,
}

/// The parts of a tree that are left to be written behind a text, the last one first.
pub(super) struct Writer<'a, 'o> {
    out: &'o mut Answer,
    left: Vec<Piece<'a>>,
}

impl Drop for Writer<'_, '_> {
    fn drop(self) {
        let Writer { out: _, left } = self;
        drop(left);
    }
}

impl<'a> Writer<'a, '_> {
    /// Leaves these parts to be written next.
    pub(super) fn leave(&mut self, parts: &[Piece<'a>]) {
        for part in parts.iter().rev() {
            if self.left.push(*part).is_err() {
                self.out.wrong(Wrong::new("no memory"));
            }
        }
    }

    /// Writes an opening parenthesis and a word, and leaves these parts and the closing parenthesis to be written next.
    pub(super) fn group(&mut self, word: &str, parts: &[Piece<'a>]) {
        self.put(b"(");
        self.out.put(word.as_bytes());
        self.leave(&[Piece::Close]);
        self.leave(parts);
    }

    /// Writes a word. A space stands before it, but not behind an opening parenthesis.
    pub(super) fn put(&mut self, word: &[u8]) {
        if self.out.text().ends_with(b"(") {
            self.out.put(word);
        } else {
            self.out.word(word);
        }
    }

    /// Writes a string in its quotes.
    pub(super) fn put_string(&mut self, bytes: &[u8]) {
        self.put(b"\"");
        self.out.put(bytes);
        self.out.put(b"\"");
    }

    // Writes a part, or leaves its parts.
    fn write(&mut self, piece: Piece<'a>) {
        match piece {
            Piece::Declarations(declarations) => pieces::declarations(self, declarations),
            Piece::Rule(rule) => pieces::rule(self, rule),
            Piece::Variables(groups) => pieces::variables(self, groups),
            Piece::Graph(graph) => pieces::graph(self, graph),
            Piece::Nodes(nodes) => pieces::nodes(self, nodes),
            Piece::Edges(edges) => pieces::edges(self, edges),
            Piece::Commands(commands) => pieces::commands(self, commands),
            Piece::Command(command) => pieces::command(self, command),
            _ => self.write_term(piece),
        }
    }

    // Writes a part of a label or a condition, or leaves its parts.
    fn write_term(&mut self, piece: Piece<'a>) {
        match piece {
            Piece::Expressions(expressions) => terms::expressions(self, expressions),
            Piece::Expression(expression) => terms::expression(self, expression),
            Piece::Terms(rest) => terms::rest_of_sum(self, rest),
            Piece::Factors(rest) => terms::rest_of_product(self, rest),
            Piece::Conditions(conditions) => terms::conditions(self, conditions),
            Piece::Condition(condition) => terms::condition(self, condition),
            Piece::Where(Some(condition)) => self.group("where", &[Piece::Condition(condition)]),
            Piece::Mark(Some(word)) => self.leave(&[Piece::Word("#"), Piece::Name(word)]),
            _ => self.write_leaf(piece),
        }
    }

    // Writes a part that has no parts.
    fn write_leaf(&mut self, piece: Piece<'a>) {
        match piece {
            Piece::Interface(names) => self.group("interface", &[Piece::Names(names)]),
            Piece::Names(names) => self.put_names(names),
            Piece::Name(name) => self.put(name.as_bytes()),
            Piece::Word(word) => self.put(word.as_bytes()),
            Piece::Number(number) => self.out.show(&number),
            Piece::Close => self.out.put(b")"),
            _ => (),
        }
    }

    fn put_names(&mut self, names: &[Name]) {
        for name in names {
            self.put(name.as_bytes());
        }
    }

    // Writes all parts that are left.
    fn write_all(&mut self) {
        for _ in 0..MOST_PARTS {
            match self.left.pop() {
                Some(piece) => self.write(piece),
                None => return,
            }
        }
        self.out.wrong(Wrong::new("a tree with too many parts"));
    }
}

// More parts than the tree of any row has.
const MOST_PARTS: u32 = 100_000;

/// The word of a type.
pub(super) fn type_word(variable_type: VariableType) -> &'static str {
    match variable_type {
        VariableType::Int => "int",
        VariableType::Char => "char",
        VariableType::String => "string",
        VariableType::Atom => "atom",
        VariableType::List => "list",
    }
}

/// Writes the tree of a program text.
pub(super) fn put_tree(alloc: Global, ast: &Ast, out: &mut Answer) {
    let mut writer = Writer {
        out,
        left: Vec::new(alloc),
    };
    writer.group(
        "program",
        &[Piece::Declarations(ast.declarations.as_slice())],
    );
    writer.write_all();
}
