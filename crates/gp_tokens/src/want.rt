//! What a token has to be.

ghost use Rattle.std.specs.Prelude.{◌≡◌};
ghost use Rattle.gp_tokens.specs.Wants.{meets};

use crate::{Keyword, Kind, Token};

/// What a token has to be.
#[derive(Clone, Copy)]
pub enum Want {
    /// A token of this kind: a number, a string, any word, or a sign.
    Kind(Kind),
    /// This word.
    Keyword(Keyword),
    /// A name of a node or an edge.
    Item,
    /// A name of a rule.
    RuleName,
    /// A name of a variable.
    Variable,
    /// A name of a procedure.
    ProcedureName,
}

impl Want {
    /// Whether the token is what it has to be.
    #[tactic(auto, unfolding(crate::specs::Wants::meets))]
    pub fn is_met_by(self, token: &Token<'_>) -> bool
        ensures { result ≡ meets self token.now }
    {
        match self {
            Want::Kind(kind) => token.kind.is(kind),
            Want::Keyword(word) => token.is_word(word),
            Want::Item => token.is_item(),
            Want::RuleName => token.is_rule_name(),
            Want::Variable => token.is_variable(),
            Want::ProcedureName => token.is_procedure_name(),
        }
    }
}
