//! The tokens of declarations.

ghost use Rattle.std.specs.Prelude.{map};
ghost use Rattle.gp_fmt.specs.Canonical.{declaration, locals};
ghost use Rattle.gp_fmt.specs.inside.Puts.{Puts};

use crate::commands::put_command;
use crate::rules::put_rule;
use crate::sheet::Sheet;
use gp_syntax::Decl;
use gp_tokens::Kind;

/// Puts a declaration.
#[cycle(declaration)]
pub(crate) fn put_declaration<'a>(d: &'a Decl, sheet: &mut Sheet<'a>)
    ensures { Puts sheet.old sheet.new (declaration d.now) }
{
    match d {
        Decl::Procedure {
            name,
            declarations,
            body,
        } => {
            sheet.name(name);
            sheet.sign(Kind::Equal);
            put_locals(declarations.as_slice(), sheet);
            put_command(body, sheet);
        }
        Decl::Rule(r) => put_rule(r, sheet),
    }
}

// Puts local declarations in brackets, where there are any.
#[cycle(declaration)]
fn put_locals<'a>(declarations: &'a [Decl], sheet: &mut Sheet<'a>)
    ensures { Puts sheet.old sheet.new (locals (map declaration declarations.now)) }
{
    if declarations.is_empty() {
        return;
    }
    sheet.sign(Kind::OpenBracket);
    'each: for d in declarations {
        put_declaration(d, sheet);
    }
    sheet.sign(Kind::CloseBracket);
}
