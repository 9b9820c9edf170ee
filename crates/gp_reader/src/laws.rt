//! What holds of program texts, of their faults, whoever tells them, and of names, whoever puts numbers in their place.
//! Each function calls laws alone, if anything: its contract is the law.

ghost use Rattle.gp_reader.specs.Laws.{TextsHaveATreeOrAFault, TextsHaveAnAnswer, TextsHaveNoFault, TextsHaveOneFault, TextsHaveOneProgram, TextsHaveOneTree, TreesHaveNoFault};
ghost use Rattle.gp_reader.specs.ResolutionLaws.{OneFault, FaultlessTextsArePrograms, ProgramsHaveNoFault, NumbersArePlaces, RulesAreInOrder, ProgramsCallWhatIsVisible};

use gp_program::laws::{tokens_have_an_answer, tokens_have_one_tree};
use gp_tokens::laws::tokens_are_the_cut;

/// A text has a tree, or a fault of tokens, nesting, syntax or numerals.
pub fn texts_have_a_tree_or_a_fault()
    ensures { TextsHaveATreeOrAFault }
{
    tokens_are_the_cut();
    tokens_have_an_answer();
}

/// A text has at most one tree, and a text with a tree has no such fault.
pub fn texts_have_one_tree()
    ensures one { TextsHaveOneTree }
    ensures none { TreesHaveNoFault }
{
    tokens_have_one_tree();
}

/// A text without a fault is that of a program.
pub fn texts_have_an_answer()
    ensures { TextsHaveAnAnswer }
{
    tokens_are_the_cut();
    tokens_have_an_answer();
}

/// A text is that of at most one program.
pub fn texts_have_one_program()
    ensures { TextsHaveOneProgram }
{
    tokens_have_one_tree();
}

/// A text of a program has no fault, and another text has one at most, but for the line of Syntax.
pub fn texts_have_one_fault()
    ensures none { TextsHaveNoFault }
    ensures one { TextsHaveOneFault }
{
    tokens_have_one_tree();
    fault_is_unique();
}

/// A program text has no more than one fault, and none just where it stands for a program.
pub fn fault_is_unique()
    ensures one { OneFault }
    ensures faultless { FaultlessTextsArePrograms }
    ensures none { ProgramsHaveNoFault }
{}

/// The number that a name becomes is that of the declaration that is visible there, by the place where it stands; and a
/// program calls what is visible where its text calls it.
pub fn names_become_places()
    ensures numbers { NumbersArePlaces }
    ensures rules { RulesAreInOrder }
    ensures program { ProgramsCallWhatIsVisible }
{}
