//! What holds of the texts of traces. Each function does nothing: its contract is the law.

ghost use Rattle.gp_trace.specs.Laws.{TracesAreTold, TextsBreakOnce};

/// No two lists of items have one text, and none is that of two versions.
pub fn traces_are_told()
    ensures { TracesAreTold }
{}

/// A text is that of a list of items or breaks at one line, and not both.
pub fn texts_break_once()
    ensures { TextsBreakOnce }
{}
