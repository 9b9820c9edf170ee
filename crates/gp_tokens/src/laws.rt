//! What holds of the tokens of texts, and of grammars over them. Each function does nothing: its contract is the law.

ghost use Rattle.std.specs.Prelude.{◌≡◌, true, false};
ghost use Rattle.gp_tokens.specs.Laws.{TextsHaveOneCut, TextsHaveOneFault, FaultsExcludeCuts, TextsHaveCutOrFault, TokensAreTheCut, RefusalsAreTheFault};
ghost use Rattle.gp_tokens.specs.declared.token.Token.{Token};
ghost use Rattle.gp_tokens.specs.declared.want.Want.{Want};
ghost use Rattle.gp_tokens.specs.Fits.{Fits, NoneOf, enders};
ghost use Rattle.gp_tokens.specs.Grammar.{Grammar, shape_of};
ghost use Rattle.gp_tokens.specs.GrammarLaws.{Sound, Again, NumbersHaveValues, StringsHaveCharacters};
ghost use Rattle.gp_tokens.specs.Wants.{meets, excludes};
ghost use Rattle.gp_tokens.specs.Reading.{reader_of};

/// A text has one cut into tokens or one first fault, and not both.
pub fn texts_have_one_cut_or_one_fault()
    ensures some { TextsHaveCutOrFault }
    ensures one_cut { TextsHaveOneCut }
    ensures one_fault { TextsHaveOneFault }
    ensures not_both { FaultsExcludeCuts }
{}

/// What `lex` answers is the cut of a text exactly where it has one, and its first fault exactly where it has one.
/// So every definition over the tokens of a text speaks of its cut, and not of the way in which it is found.
pub fn tokens_are_the_cut()
    ensures tokens { TokensAreTheCut }
    ensures refusals { RefusalsAreTheFault }
{}

/// A grammar of the tree `A`.
pub trait Form<A> {
    ghost grammar: { Grammar A };
}

/// What is read is a tree of the grammar. Where the grammar fits, each tree of it is read, before what does not go on.
pub fn grammars_are_read<A, F: Form<A>>()
    ensures sound { Sound (reader_of F.grammar) (shape_of F.grammar) }
    ensures again { Fits F.grammar → Again (reader_of F.grammar) (shape_of F.grammar) (NoneOf (enders F.grammar)) }
{}

/// What numbers and strings ask of a token beside its kind, each token of a text has.
pub fn texts_have_values()
    ensures numbers { NumbersHaveValues }
    ensures strings { StringsHaveCharacters }
{}

/// No token meets two wants of which one excludes the other.
pub fn wants_are_apart()
    ensures { (a b : Want) (t : Token) → excludes a b ≡ true → meets a t ≡ true → meets b t ≡ false }
{}
