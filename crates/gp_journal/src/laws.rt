//! What holds of trails, journals and runs. The functions do nothing: their contracts are the laws.

ghost use Rattle.gp_journal.specs.Laws.{TrailsAndJournalsReplay, RunsLead};

/// The graph of a trail is what some live steps lead to from its root graph, and that of a journal what its items lead
/// to; each beginning of these leads to some graph.
pub fn trails_and_journals_replay()
    ensures { TrailsAndJournalsReplay }
{}

/// The trace of a run leads the trail of the graph where it begins to a trail of the graph where it ends.
pub fn runs_lead()
    ensures { RunsLead }
{}
