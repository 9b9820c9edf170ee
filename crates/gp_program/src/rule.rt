//! Reads rules, one function for each line of the grammar.

ghost use Rattle.std.specs.Prelude.{◌≡◌};
ghost use Rattle.gp_tokens.specs.Cursor.{Reads};
ghost use Rattle.gp_tokens.specs.Reading.{reader_of};
ghost use Rattle.gp_tokens.specs.SignWants.{comma};
ghost use Rattle.gp_expressions.specs.Conditions.{condition};
ghost use Rattle.gp_expressions.specs.Expressions.{behind, name as name_of, list};
ghost use Rattle.gp_program.specs.Rules as spec;
ghost use Rattle.gp_program.specs.inside.Names.{names};
ghost use Rattle.gp_program.specs.inside.RuleParts.{whole_rule, interface_part, rule_end, rule_sides};

use crate::graph::read_graph;
use gp_expressions::{CondTree, Ranged, read_condition, read_name, whole};
use gp_syntax::{GraphDecl, Items, Name, RuleDecl, VariableGroup, VariableType};
use gp_tokens::{Keyword, Kind, ReadError, Tokens, Want, repeated_by, separated_by};

const COMMA: Want = Want::Kind(Kind::Comma);

// The name that comes next: a function of this crate, as what is passed by its name has to be.
fn read_listed(tokens: &mut Tokens<'_, '_>, want: Want) -> Result<Name, ReadError>
    ensures { Reads (reader_of (name_of want) tokens.old) result tokens.new }
{
    read_name(tokens, want)
}

/// [Name {"," Name}], of this class.
pub(crate) fn read_names(tokens: &mut Tokens<'_, '_>, want: Want) -> Result<Items<Name>, ReadError>
    ensures { Reads (reader_of (names want) tokens.old) result tokens.new }
{
    if tokens.begins(want) {
        let names = separated_by(tokens, COMMA, want, read_listed)?;
        return Ok(Items::from_vec(names));
    }
    Ok(Items::new(tokens.alloc()))
}

// Type = "int" | "char" | "string" | "atom" | "list"
#[tactic(auto, unfolding(crate::specs::Rules::variable_type))]
fn read_type(tokens: &mut Tokens<'_, '_>) -> Result<VariableType, ReadError>
    ensures { Reads (reader_of spec.variable_type tokens.old) result tokens.new }
{
    if tokens.eat(Want::Keyword(Keyword::Int)) {
        return Ok(VariableType::Int);
    }
    if tokens.eat(Want::Keyword(Keyword::Char)) {
        return Ok(VariableType::Char);
    }
    if tokens.eat(Want::Keyword(Keyword::String)) {
        return Ok(VariableType::String);
    }
    if tokens.eat(Want::Keyword(Keyword::Atom)) {
        return Ok(VariableType::Atom);
    }
    if tokens.eat(Want::Keyword(Keyword::List)) {
        return Ok(VariableType::List);
    }
    Err(tokens.refusal())
}

// "," and a name of this class.
fn read_further_name(tokens: &mut Tokens<'_, '_>, want: Want) -> Result<Name, ReadError>
    ensures { Reads (reader_of (behind comma (name_of want)) tokens.old) result tokens.new }
{
    if tokens.eat(COMMA) {
        return read_name(tokens, want);
    }
    Err(tokens.refusal())
}

// Vars = Var {"," Var} ":" Type
#[tactic(auto, unfolding(crate::specs::Rules::variable_group))]
fn read_group(tokens: &mut Tokens<'_, '_>, _nothing: ()) -> Result<VariableGroup, ReadError>
    ensures { Reads (reader_of spec.variable_group tokens.old) result tokens.new }
{
    let first = read_name(tokens, Want::Variable)?;
    let rest = repeated_by(tokens, COMMA, Want::Variable, read_further_name)?;
    if !tokens.eat(Want::Kind(Kind::Colon)) {
        return Err(tokens.refusal());
    }
    let variable_type = read_type(tokens)?;
    Ok(VariableGroup {
        first,
        rest: Items::from_vec(rest),
        variable_type,
    })
}

// [Vars {";" Vars}]
#[tactic(auto, unfolding(crate::specs::Rules::variables))]
fn read_variables(tokens: &mut Tokens<'_, '_>) -> Result<Items<VariableGroup>, ReadError>
    ensures { Reads (reader_of spec.variables tokens.old) result tokens.new }
{
    if tokens.begins(Want::Variable) {
        let groups = separated_by(tokens, Want::Kind(Kind::Semicolon), (), read_group)?;
        return Ok(Items::from_vec(groups));
    }
    Ok(Items::new(tokens.alloc()))
}

// ["where" Cond]
#[tactic(auto, unfolding(crate::specs::Rules::where_part))]
fn read_where(tokens: &mut Tokens<'_, '_>, room: u64) -> Result<Ranged<Option<CondTree>>, ReadError>
    ensures { Reads (reader_of (spec.where_part (condition room room)) tokens.old) result tokens.new }
{
    if tokens.eat(Want::Keyword(Keyword::Where)) {
        let condition = read_condition(tokens, room, room)?;
        return Ok(Ranged {
            tree: Some(condition.tree),
            past: condition.past,
        });
    }
    Ok(whole(None))
}

// A rule up to the end of its sides.
pub(crate) struct Sides {
    name: Name,
    variables: Items<VariableGroup>,
    left: Ranged<GraphDecl>,
    right: Ranged<GraphDecl>,
}

impl Drop for Sides {
    fn drop(self) {
        let Sides {
            name,
            variables,
            left,
            right,
        } = self;
        drop(name);
        drop(variables);
        drop(left);
        drop(right);
    }
}

impl Sides {
    fn into_rule(
        self,
        interface: Items<Name>,
        condition: Ranged<Option<CondTree>>,
    ) -> Ranged<RuleDecl>
        ensures { result ≡ whole_rule self interface condition }
    {
        let Sides {
            name,
            variables,
            left,
            right,
        } = self;
        Ranged {
            tree: RuleDecl {
                name,
                variables,
                left: left.tree,
                right: right.tree,
                interface,
                condition: condition.tree,
            },
            past: left.past.or(right.past.or(condition.past)),
        }
    }
}

// "interface" "=" "{" [Item {"," Item}] "}"
#[tactic(auto, unfolding(crate::specs::inside::RuleParts::interface_part, crate::specs::Rules::interface))]
fn read_interface(tokens: &mut Tokens<'_, '_>) -> Result<Items<Name>, ReadError>
    ensures { Reads (reader_of interface_part tokens.old) result tokens.new }
{
    tokens.expect(Want::Keyword(Keyword::Interface))?;
    tokens.expect(Want::Kind(Kind::Equal))?;
    tokens.expect(Want::Kind(Kind::OpenBrace))?;
    let names = read_names(tokens, Want::Item)?;
    if !tokens.eat(Want::Kind(Kind::CloseBrace)) {
        return Err(tokens.refusal());
    }
    Ok(names)
}

// "interface" "=" "{" [Item {"," Item}] "}" ["where" Cond], behind the sides
#[tactic(auto, unfolding(crate::specs::inside::RuleParts::rule_end))]
fn read_end(
    tokens: &mut Tokens<'_, '_>,
    room: u64,
    sides: Sides,
) -> Result<Ranged<RuleDecl>, ReadError>
    ensures { Reads (reader_of (rule_end sides (condition room room)) tokens.old) result tokens.new }
{
    let interface = read_interface(tokens)?;
    let condition = read_where(tokens, room)?;
    Ok(sides.into_rule(interface, condition))
}

// Graph "=>" Graph, and what is behind them
#[tactic(auto, unfolding(crate::specs::inside::RuleParts::rule_sides))]
fn read_sides(
    tokens: &mut Tokens<'_, '_>,
    room: u64,
    name: Name,
    variables: Items<VariableGroup>,
) -> Result<Ranged<RuleDecl>, ReadError>
    ensures { Reads (reader_of (rule_sides name variables (list room) (condition room room)) tokens.old) result tokens.new }
{
    let left = read_graph(tokens, room)?;
    tokens.expect(Want::Kind(Kind::Arrow))?;
    let right = read_graph(tokens, room)?;
    read_end(
        tokens,
        room,
        Sides {
            name,
            variables,
            left,
            right,
        },
    )
}

/// RuleDecl = RuleName "(" [Vars {";" Vars}] ")" Graph "=>" Graph "interface" "=" "{" [Item {"," Item}] "}" ["where" Cond]
#[tactic(auto, unfolding(crate::specs::Rules::rule_with))]
pub(crate) fn read_rule(
    tokens: &mut Tokens<'_, '_>,
    room: u64,
) -> Result<Ranged<RuleDecl>, ReadError>
    ensures { Reads (reader_of (spec.rule room) tokens.old) result tokens.new }
{
    let name = read_name(tokens, Want::RuleName)?;
    tokens.expect(Want::Kind(Kind::OpenParenthesis))?;
    let variables = read_variables(tokens)?;
    tokens.expect(Want::Kind(Kind::CloseParenthesis))?;
    read_sides(tokens, room, name, variables)
}
