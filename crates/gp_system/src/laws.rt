//! What holds of goals over the rules of a program. The function does nothing: its contract is the law.

ghost use Rattle.gp_system.specs.Laws.{EntriesAreCalls};

/// Each entry of a legal core over checked rules is a call of the goal's rule set at the graph that the entries before it
/// reach, however few of them its search saw.
pub fn entries_are_calls()
    ensures { EntriesAreCalls }
{}
