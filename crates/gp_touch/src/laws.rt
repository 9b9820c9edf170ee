//! What holds of touched and of noted nodes. Each function does nothing: its contract is the law.

ghost use Rattle.gp_touch.specs.Touch.{TouchedAreNumbered, UntouchedStay, ImagesTell, BareSeeNothing, SameAreJudgedAlike, OthersStay, OthersStayLong, NotedAloneBringUp, TouchedAloneBringUp, TouchedAloneBringBack, TouchedAloneUnblock, BareStayBlocked};
ghost use Rattle.gp_touch.specs.Rows.{OneEndIsEnough, OneEndIsNotEnough, WhatGoesIsSeen};
ghost use Rattle.gp_touch.specs.Ends.{AddsNoted, DiffersAtNoted, DiffersAtEnds, AddedAloneBringUp, OneEndBringsUp, BothEndsBringUp, NotedAloneUnblock, SameNeedNoNote, NotesAreJoined};

/// Steps touch the images of the left nodes of their matches, and the new nodes: whoever keeps these numbers needs no images
/// of right sides.
pub fn touched_are_numbered()
    ensures { TouchedAreNumbered }
{}

/// A node that a step does not touch keeps what it carries, and its edges (Plump 2012, section 3: direct derivations).
pub fn untouched_stay()
    ensures { UntouchedStay }
{}

/// Two graphs that are the same at the images of the left nodes are the same for the match (Plump 2012, section 3: matches and
/// the dangling condition). The laws below rest on it.
pub fn images_tell()
    ensures { ImagesTell }
{}

/// All graphs are the same for a match of a rule without left nodes, so that its verdict is asked once.
pub fn bare_see_nothing()
    ensures { BareSeeNothing }
{}

/// A match has one verdict on two graphs that are the same for it: no verdict need be asked again.
pub fn same_are_judged_alike()
    ensures { SameAreJudgedAlike }
{}

/// A match that has no left node at a touched node is one before the step and after it, with the same verdict.
pub fn others_stay()
    ensures { OthersStay }
{}

/// The same after more steps than one.
pub fn others_stay_long()
    ensures { OthersStayLong }
{}

/// A match that comes up has a left node at a noted node, where two graphs are the same at all others. It names no step, so
/// it holds too where steps are taken back.
pub fn noted_alone_bring_up()
    ensures { NotedAloneBringUp }
{}

/// A match that steps bring up has a left node at a node that they touch.
pub fn touched_alone_bring_up()
    ensures { TouchedAloneBringUp }
{}

/// So does one that comes up where the steps are taken back.
pub fn touched_alone_bring_back()
    ensures { TouchedAloneBringBack }
{}

/// Where a set of rules was blocked, each match of it that applies or is faulty later has a left node at a touched node: a
/// search need look there alone.
pub fn touched_alone_unblock()
    ensures { TouchedAloneUnblock }
{}

/// Where a set of rules was blocked, none of its rules without left nodes has such a match, on any graph.
pub fn bare_stay_blocked()
    ensures { BareStayBlocked }
{}

/// For a rule that deletes no node and whose condition asks neither degrees nor edges, it is enough to note the nodes that come
/// up or change, and one end of each edge that does; what goes brings up none of its matches.
pub fn added_alone_bring_up()
    ensures { AddedAloneBringUp }
{}

/// For a rule that deletes no node and whose condition asks no degrees, it is enough to note one end of each edge that comes
/// up, goes or changes, either one: the edges that such a rule sees have both ends at images of its left nodes.
pub fn one_end_brings_up()
    ensures { OneEndBringsUp }
{}

/// For any other rule both ends of an edge that comes up or goes are noted, since these change the degrees there; one end is
/// enough of an edge that is relabelled.
pub fn both_ends_bring_up()
    ensures { BothEndsBringUp }
{}

/// Where a set of rules was blocked, each match of it that applies or is faulty on another graph has a left node at a noted
/// node, where what is noted is enough for its rule.
pub fn noted_alone_unblock()
    ensures { NotedAloneUnblock }
{}

/// A node where two graphs are the same need not be noted, so that the nodes that steps touch are always enough.
pub fn same_need_no_note()
    ensures { SameNeedNoNote }
{}

/// What is noted is enough over several edits, one after another.
pub fn notes_are_joined()
    ensures added { NotesAreJoined AddsNoted }
    ensures differing { NotesAreJoined DiffersAtNoted }
    ensures ends { NotesAreJoined DiffersAtEnds }
{}

/// An edge that goes, with one of its ends noted: for which rules that is enough.
pub fn noted_examples()
    ensures enough { OneEndIsEnough }
    ensures not_enough { OneEndIsNotEnough }
    ensures gone { WhatGoesIsSeen }
{}
