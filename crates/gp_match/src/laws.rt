//! What holds of judged matches. Each function does nothing: its contract is the law.

ghost use Rattle.gp_match.specs.Laws.{MatchesAreJudged};

/// What a match of a checked rule is judged to be is what the relations say.
pub fn matches_are_judged()
    ensures { MatchesAreJudged }
{}
