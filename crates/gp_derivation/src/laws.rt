//! What holds of the step as it was, of items brought up to date, of steppers and of the texts of scripts. Each function
//! does nothing: its contract is the law.

ghost use Rattle.gp_derivation.specs.Laws.{StepAnewIsUnique, MatchesLeadAnew, ItemsBreakOnce, UpgradesExist, UpgradesEndAlike};
ghost use Rattle.gp_derivation.specs.StepperLaws.{SteppersReplay, WellFormedMovesAreInverse, MovesAreCounted, ScriptsBreakOnce};

/// A match of a checked rule led to one graph at most.
pub fn step_anew_is_unique()
    ensures { StepAnewIsUnique }
{}

/// An applying match of a checked rule led to a graph, from one whose used numbers are below the next ones.
pub fn matches_lead_anew()
    ensures { MatchesLeadAnew }
{}

/// Items break at one place at most, and those that can be brought up to date at none. By well-formed rules and from a
/// numbered host the one or the other holds.
pub fn items_break_once()
    ensures { ItemsBreakOnce }
{}

/// Items can be brought up to date where each beginning of them replays by the step as it was: by well-formed rules, and
/// from a numbered host.
pub fn upgrades_exist()
    ensures { UpgradesExist }
{}

/// In whatever way items are brought up to date, the runs that make them end with the same texts: by well-formed rules,
/// and from a numbered host.
pub fn upgrades_end_alike()
    ensures { UpgradesEndAlike }
{}

/// The items before the place of a stepper replay from its root graph to its graph.
pub fn steppers_replay()
    ensures { SteppersReplay }
{}

/// By well-formed rules, items, root graph and place tell the trail. So a move forward and then one back are the
/// identity, and so are one back and then one forward.
pub fn moves_are_inverse()
    ensures { WellFormedMovesAreInverse }
{}

/// After a list of moves, of which none was refused, the place is that of the moves, and the items before it replay to
/// the graph.
pub fn moves_are_counted()
    ensures { MovesAreCounted }
{}

/// A text is that of one script or breaks at one line, and not both.
pub fn scripts_break_once()
    ensures { ScriptsBreakOnce }
{}
