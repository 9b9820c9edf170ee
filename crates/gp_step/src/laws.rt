//! What holds of steps. Each function does nothing: its contract is the law.

ghost use Rattle.gp_step.specs.Laws.{MatchesLeadOn};

/// An applying match of a checked rule leads to one graph, which the function gives.
pub fn matches_lead_on()
    ensures { MatchesLeadOn }
{}
