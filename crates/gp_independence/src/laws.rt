//! What holds of independent matches. Each function does nothing: its contract is the law.

ghost use Rattle.gp_independence.specs.Laws.{IndependentStepsCommute, IndependenceIsKept, IndependentMatchesDerive, IndependentMatchesFollow, WrittenAgainIsPreserved};

/// A node that the right side writes as the left side does is preserved.
pub fn written_again_is_preserved()
    ensures { WrittenAgainIsPreserved }
{}

/// The steps of independent matches commute: each applies after the other, and both orders lead to one graph, but for the
/// numbers of what is new.
pub fn independent_steps_commute()
    ensures { IndependentStepsCommute }
{}

/// Independence is kept by the step of a third match that is independent of both.
pub fn independence_is_kept()
    ensures { IndependenceIsKept }
{}

/// Pairwise independent matches are a derivation in every order.
pub fn independent_matches_derive()
    ensures { IndependentMatchesDerive }
{}

/// A match applies after the steps of others, in any order, where all are pairwise independent.
pub fn independent_matches_follow()
    ensures { IndependentMatchesFollow }
{}
