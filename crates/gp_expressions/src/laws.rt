//! What holds of the tokens of expressions and of conditions. Each function does nothing: its contract is the law.

ghost use Rattle.gp_expressions.specs.Laws.{ConditionsFit, ListsFit, NoTokensAreBoth};

/// Expressions and conditions are read without a doubt, so that what `gp_tokens::laws::grammars_are_read` says holds of
/// their grammars: what is read is a tree, and each tree is read.
pub fn expressions_are_read()
    ensures lists { ListsFit }
    ensures conditions { ConditionsFit }
{}

/// No tokens are both a list and a condition.
pub fn no_tokens_are_both()
    ensures { NoTokensAreBoth }
{}
