//! What holds of the definitions: laws, and worked examples. Each function does nothing: its contract is the law.

ghost use Rattle.gp_syntax.specs.Laws.{StepIsUnique, StepWithoutVariablesIsUnique, KeptEdgesStay, RunsReplay, RulesOfDeclarationsFit, ConstantsHaveTheirValue, FaultlessRulesApply};
ghost use Rattle.gp_syntax.specs.Simple.{SimpleLabelsAreThese};
ghost use Rattle.gp_values.specs.Names.{Name};
ghost use Rattle.std.specs.Prelude.{ℕ};
ghost use Rattle.gp_syntax.specs.Rows.{DanglingEdgeBlocks, IsolatedNodeIsDeleted, OneEdgeIsNotTwo, ParallelEdgesMatch, RootWantsRoot, RootIsTakenAway, OtherWantsNoRoot, AnyKeepsMark, IfTakesBack, TryTakesBack, FailedBodyIsTakenBack, BreakKeepsBody, EmptySetEndsLoop, SkipLoopStands, ThenBegins, ElseBegins, FirstPartEnds, OrTakesEither, ProceduresRun, StringPatterns, KeptEdgeIsRelabelled, OtherEndsAreAnotherEdge, DirectionIsKept, OneWayIsAnotherEdge, AnyKeepsMarkOfEdge, KeptBesideRemoved, SharesGoByFirstNode};
ghost use Rattle.gp_syntax.specs.ValueRows.{ArithmeticHasEnds, DivisionTruncates, FirstKindIsTold, LengthGoesByType, DegreesCountLoops, ChainsJoin, SecondPartWaits, EdgeTests, OtherTests};

/// A match leads, by its assignment, to one graph.
pub fn step_is_unique()
    ensures by_assignment { StepIsUnique }
    ensures without_variables { StepWithoutVariablesIsUnique }
{}

/// A kept edge stays at its number and between its nodes.
pub fn kept_edges_stay()
    ensures { KeptEdgesStay }
{}

/// A run's trace leads to the graph at which it ends, and each beginning of it to some graph.
pub fn runs_replay()
    ensures { RunsReplay }
{}

/// The rule of a well named declaration has its nodes and edges, and names places that are there.
pub fn rules_of_declarations_fit()
    ensures { RulesOfDeclarationsFit }
{}

/// Simple labels are the well typed ones that the static clause on left labels lets pass, by names and by places.
pub fn simple_labels_are_these()
    ensures names { SimpleLabelsAreThese Name }
    ensures places { SimpleLabelsAreThese ℕ }
{}

/// Numbers, strings and lists of these have the value that is written, wherever they stand.
pub fn constants_have_their_value()
    ensures { ConstantsHaveTheirValue }
{}

/// Without a condition and arithmetic on the right, what matches applies.
pub fn faultless_rules_apply()
    ensures { FaultlessRulesApply }
{}

/// Nodes with edges that are not matched are not deleted.
pub fn dangling_examples()
    ensures blocks { DanglingEdgeBlocks }
    ensures isolated { IsolatedNodeIsDeleted }
{}

/// Two left edges want two edges.
pub fn parallel_edge_examples()
    ensures one { OneEdgeIsNotTwo }
    ensures two { ParallelEdgesMatch }
{}

/// Roots, and the mark `any`.
pub fn root_and_mark_examples()
    ensures wanted { RootWantsRoot }
    ensures taken { RootIsTakenAway }
    ensures other { OtherWantsNoRoot }
    ensures any { AnyKeepsMark }
{}

/// What is taken back, and what is kept.
pub fn command_examples()
    ensures condition { IfTakesBack }
    ensures tried { TryTakesBack }
    ensures failed_body { FailedBodyIsTakenBack }
    ensures broken_body { BreakKeepsBody }
    ensures empty_set { EmptySetEndsLoop }
    ensures standing { SkipLoopStands }
    ensures then_begins { ThenBegins }
    ensures else_begins { ElseBegins }
    ensures first_part { FirstPartEnds }
    ensures either { OrTakesEither }
    ensures procedures { ProceduresRun }
{}

/// Which matches a share has.
pub fn share_examples()
    ensures { SharesGoByFirstNode }
{}

/// A string matched by its pattern, and what is none.
pub fn string_pattern_examples()
    ensures { StringPatterns }
{}

/// Which edges a step keeps, with what they carry, and which it makes anew.
pub fn kept_edge_examples()
    ensures relabelled { KeptEdgeIsRelabelled }
    ensures other_ends { OtherEndsAreAnotherEdge }
    ensures direction { DirectionIsKept }
    ensures one_way { OneWayIsAnotherEdge }
    ensures any { AnyKeepsMarkOfEdge }
    ensures parallel { KeptBesideRemoved }
{}

/// Integers of 128 bits, division, and the kind that is met first.
pub fn arithmetic_examples()
    ensures ends { ArithmeticHasEnds }
    ensures division { DivisionTruncates }
    ensures first_kind { FirstKindIsTold }
{}

/// Chains, lengths and degrees.
pub fn value_examples()
    ensures chains { ChainsJoin }
    ensures lengths { LengthGoesByType }
    ensures degrees { DegreesCountLoops }
{}

/// What conditions test, and what they value.
pub fn condition_examples()
    ensures second_part { SecondPartWaits }
    ensures edges { EdgeTests }
    ensures others { OtherTests }
{}
