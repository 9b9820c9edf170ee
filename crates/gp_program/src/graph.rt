//! Reads the sides of rules, one function for each line of the grammar.

ghost use Rattle.std.specs.Prelude.{◌≡◌};
ghost use Rattle.gp_tokens.specs.Cursor.{Reads};
ghost use Rattle.gp_tokens.specs.Reading.{reader_of};
ghost use Rattle.gp_expressions.specs.Expressions.{list};
ghost use Rattle.gp_program.specs.Rules as spec;
ghost use Rattle.gp_program.specs.inside.EdgeParts.{edge_ends};
ghost use Rattle.gp_program.specs.inside.Passing.{Passes};

use gp_expressions::{Ranged, gather, read_label, read_name};
use gp_syntax::{EdgeDecl, GraphDecl, Items, Name, NodeDecl};
use gp_tokens::{Keyword, Kind, ReadError, Token, Tokens, Want, repeated_by, stands_before};

const OPEN: Want = Want::Kind(Kind::OpenParenthesis);

const CLOSE: Want = Want::Kind(Kind::CloseParenthesis);

const COMMA: Want = Want::Kind(Kind::Comma);

const NUMBER: Want = Want::Kind(Kind::Number);

const BAR: Want = Want::Kind(Kind::Bar);

const CLOSE_BRACKET: Want = Want::Kind(Kind::CloseBracket);

const LESS: Want = Want::Kind(Kind::Less);

// Coord = ["-"] Number ["." Number]
#[tactic(auto, unfolding(crate::specs::Rules::coord))]
fn passes_coord(tokens: &mut Tokens<'_, '_>) -> bool
    ensures { Passes (reader_of spec.coord tokens.old) result tokens.new }
{
    tokens.eat(Want::Kind(Kind::Minus));
    tokens.eat(NUMBER) && (!tokens.eat(Want::Kind(Kind::Dot)) || tokens.eat(NUMBER))
}

// Position = "<" Coord "," Coord ">"
#[tactic(auto, unfolding(crate::specs::Rules::position))]
fn passes_position(tokens: &mut Tokens<'_, '_>) -> bool
    ensures { Passes (reader_of spec.position tokens.old) result tokens.new }
{
    tokens.eat(LESS)
        && passes_coord(tokens)
        && tokens.eat(COMMA)
        && passes_coord(tokens)
        && tokens.eat(Want::Kind(Kind::Greater))
}

// [Position]
#[tactic(auto, unfolding(crate::specs::Rules::place))]
fn passes_place(tokens: &mut Tokens<'_, '_>) -> bool
    ensures { Passes (reader_of spec.place tokens.old) result tokens.new }
{
    !tokens.begins(LESS) || passes_position(tokens)
}

// ["(" word ")"]
#[tactic(auto, unfolding(crate::specs::Rules::flag))]
fn read_flag(tokens: &mut Tokens<'_, '_>, word: Want) -> Result<bool, ReadError>
    ensures { Reads (reader_of (spec.flag word) tokens.old) result tokens.new }
{
    if !tokens.eat(OPEN) {
        return Ok(false);
    }
    if tokens.eat(word) && tokens.eat(CLOSE) {
        return Ok(true);
    }
    Err(tokens.refusal())
}

// Node = "(" Item ["(" "R" ")"] "," Label [Position] ")"
#[tactic(auto, unfolding(crate::specs::Rules::node))]
fn read_node(tokens: &mut Tokens<'_, '_>, lists: u64) -> Result<Ranged<NodeDecl>, ReadError>
    ensures { Reads (reader_of (spec.node (list lists)) tokens.old) result tokens.new }
{
    if !tokens.eat(OPEN) {
        return Err(tokens.refusal());
    }
    let name = read_name(tokens, Want::Item)?;
    let root = read_flag(tokens, Want::Keyword(Keyword::Root))?;
    if !tokens.eat(COMMA) {
        return Err(tokens.refusal());
    }
    let (label, mark) = read_label(tokens, lists)?;
    let node = Ranged {
        tree: NodeDecl {
            name,
            root,
            label: label.tree,
            mark,
        },
        past: label.past,
    };
    if !passes_place(tokens) || !tokens.eat(CLOSE) {
        return Err(tokens.refusal());
    }
    Ok(node)
}

// Item "," Item "," Label ")", behind the name of an edge
#[tactic(auto, unfolding(crate::specs::inside::EdgeParts::edge_ends))]
fn read_ends(
    tokens: &mut Tokens<'_, '_>,
    lists: u64,
    name: Name,
    bidirectional: bool,
) -> Result<Ranged<EdgeDecl>, ReadError>
    ensures { Reads (reader_of (edge_ends name bidirectional (list lists)) tokens.old) result tokens.new }
{
    let source = read_name(tokens, Want::Item)?;
    if !tokens.eat(COMMA) {
        return Err(tokens.refusal());
    }
    let target = read_name(tokens, Want::Item)?;
    if !tokens.eat(COMMA) {
        return Err(tokens.refusal());
    }
    let (label, mark) = read_label(tokens, lists)?;
    let edge = Ranged {
        tree: EdgeDecl {
            name,
            bidirectional,
            source,
            target,
            label: label.tree,
            mark,
        },
        past: label.past,
    };
    if !tokens.eat(CLOSE) {
        return Err(tokens.refusal());
    }
    Ok(edge)
}

// Edge = "(" Item ["(" "B" ")"] "," Item "," Item "," Label ")"
#[tactic(auto, unfolding(crate::specs::Rules::edge))]
fn read_edge(tokens: &mut Tokens<'_, '_>, lists: u64) -> Result<Ranged<EdgeDecl>, ReadError>
    ensures { Reads (reader_of (spec.edge (list lists)) tokens.old) result tokens.new }
{
    tokens.expect(OPEN)?;
    let name = read_name(tokens, Want::Item)?;
    let bidirectional = read_flag(tokens, Want::Keyword(Keyword::Bidirectional))?;
    tokens.expect(COMMA)?;
    read_ends(tokens, lists, name, bidirectional)
}

#[tactic(auto, unfolding(crate::specs::Rules::nodes))]
fn read_nodes(tokens: &mut Tokens<'_, '_>, lists: u64) -> Result<Ranged<Items<NodeDecl>>, ReadError>
    ensures { Reads (reader_of (spec.nodes (list lists)) tokens.old) result tokens.new }
{
    let nodes = repeated_by(tokens, OPEN, lists, read_node)?;
    Ok(gather(tokens.alloc(), nodes)?)
}

#[tactic(auto, unfolding(crate::specs::Rules::edges))]
fn read_edges(tokens: &mut Tokens<'_, '_>, lists: u64) -> Result<Ranged<Items<EdgeDecl>>, ReadError>
    ensures { Reads (reader_of (spec.edges (list lists)) tokens.old) result tokens.new }
{
    let edges = repeated_by(tokens, OPEN, lists, read_edge)?;
    Ok(gather(tokens.alloc(), edges)?)
}

// {Node} "|" {Edge} "]"
#[tactic(auto, unfolding(crate::specs::Rules::body))]
fn read_body(tokens: &mut Tokens<'_, '_>, lists: u64) -> Result<Ranged<GraphDecl>, ReadError>
    ensures { Reads (reader_of (spec.body (list lists)) tokens.old) result tokens.new }
{
    let nodes = read_nodes(tokens, lists)?;
    if !tokens.eat(BAR) {
        return Err(tokens.refusal());
    }
    let edges = read_edges(tokens, lists)?;
    let graph = Ranged {
        tree: GraphDecl {
            nodes: nodes.tree,
            edges: edges.tree,
        },
        past: nodes.past.or(edges.past),
    };
    if !tokens.eat(CLOSE_BRACKET) {
        return Err(tokens.refusal());
    }
    Ok(graph)
}

// Whether a bar comes next, and another one before the next closing bracket.
fn has_two_bars(tokens: &[Token<'_>]) -> bool
    ensures { result ≡ spec.two_bars tokens.now }
{
    match tokens {
        [first, rest @ ..] => BAR.is_met_by(first) && stands_before(rest, BAR, CLOSE_BRACKET),
        [] => false,
    }
}

// ["|"] {Node} "|" {Edge} "]"
#[tactic(auto, unfolding(crate::specs::Rules::barred))]
fn read_barred(tokens: &mut Tokens<'_, '_>, lists: u64) -> Result<Ranged<GraphDecl>, ReadError>
    ensures { Reads (reader_of (spec.barred (list lists)) tokens.old) result tokens.new }
{
    if has_two_bars(tokens.left()) {
        tokens.eat(BAR);
        return read_body(tokens, lists);
    }
    read_body(tokens, lists)
}

/// Graph = "[" [Position ["|"]] {Node} "|" {Edge} "]"
#[tactic(auto, unfolding(crate::specs::Rules::graph))]
pub(crate) fn read_graph(
    tokens: &mut Tokens<'_, '_>,
    lists: u64,
) -> Result<Ranged<GraphDecl>, ReadError>
    ensures { Reads (reader_of (spec.graph (list lists)) tokens.old) result tokens.new }
{
    if !tokens.eat(Want::Kind(Kind::OpenBracket)) {
        return Err(tokens.refusal());
    }
    if tokens.begins(LESS) {
        if !passes_position(tokens) {
            return Err(tokens.refusal());
        }
        return read_barred(tokens, lists);
    }
    read_body(tokens, lists)
}
