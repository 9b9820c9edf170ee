//! What holds of the definitions alone, and of rules in memory. Each contract is a law: the first three functions do
//! nothing, and the last only reads the rules.

ghost use Rattle.std.specs.Prelude.{All, map};
ghost use Rattle.gp_syntax.specs.Tree.{rule_of_tree};
ghost use Rattle.gp_syntax.specs.WellFormed.{IsWellFormed};
ghost use Rattle.gp_certify.specs.Laws.{SpansAreOfParts, ReplaysAreGraphs, RunsAreSpans, NoReplayNoRun};

use gp_syntax::Rule;

/// Where a command may end is told by where its parts may, and by the items at the places: one row a command.
pub fn spans_are_of_parts()
    ensures { SpansAreOfParts }
{}

/// Where each beginning of a trace replays to a graph, by checked rules, these are the graphs at its places.
pub fn replays_are_graphs()
    ensures { ReplaysAreGraphs }
{}

/// The runs of a whole trace are where its command may end at the last place. They are there only where it replays.
pub fn runs_are_spans()
    ensures spans { RunsAreSpans }
    ensures none { NoReplayNoRun }
{}

/// The rules of a program in memory are well formed: their type says so of each that is read.
pub fn rules_are_well_formed(rules: &[Rule])
    ensures { All IsWellFormed (map rule_of_tree rules.now) }
{
    for rule in rules {
        let _well_formed = rule.parts();
    }
}
