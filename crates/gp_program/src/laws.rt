//! What holds of programs' tokens. Each function does nothing: its contract is the law.

ghost use Rattle.gp_program.specs.Laws.{ProgramsHaveRoom, TokensHaveAnAnswer, TokensHaveOneTree};

/// Tokens have at most one tree.
pub fn tokens_have_one_tree()
    ensures { TokensHaveOneTree }
{}

/// All tokens have a tree or a fault.
pub fn tokens_have_an_answer()
    ensures { TokensHaveAnAnswer }
{}

/// As many tokens as there are give room enough: what is a program at any room is one.
pub fn programs_have_room()
    ensures { ProgramsHaveRoom }
{}
