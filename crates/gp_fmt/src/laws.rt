//! What holds of the canonical texts of program texts. Each function calls laws alone: its contract is the law.

ghost use Rattle.gp_fmt.specs.Laws.{CanonicalTextsAreRead, CanonicalTextsMeanTheSame, CanonicalTextsStay};

use gp_program::laws::tokens_have_one_tree;

/// The canonical text of a text's tree is cut into the tokens of that tree, they are nested no deeper than 64, and they have
/// that tree.
pub fn canonical_texts_are_read()
    ensures { CanonicalTextsAreRead }
{}

/// It is a text of the same program, and where the text is at fault in a name, a call or a rule it has the same fault.
pub fn canonical_texts_mean_the_same()
    ensures { CanonicalTextsMeanTheSame }
{
    tokens_have_one_tree();
}

/// It is its own canonical text.
pub fn canonical_texts_stay()
    ensures { CanonicalTextsStay }
{
    tokens_have_one_tree();
}
