//! Theorems on the limits of contract text: the reader stops at the first token that exceeds one, and what stays within
//! all of them is read. Each is the contract of a function that does nothing.
#![tactic(auto)]

ghost use Rattle.theory_limits.specs.Statements.{OneAdvertTheorem, LimitsTheorem, TextLimitsTheorem};
ghost use Rattle.theory_limits.specs.Statements.{GrammarTheorem, FittingTheorem, TreeTheorem};

/// A text spells at most one advert.
pub fn texts_spell_one_advert()
    ensures { OneAdvertTheorem }
{}

/// The reader of contract text stops with the quantity that is exceeded first, at the token with which it is, or where the
/// grammar ends; it gives an advert exactly where neither is.
pub fn first_limits_are_answered()
    ensures { LimitsTheorem }
{}

/// What is awaited token by token, without any limit, is what the grammar of contract text lets come.
pub fn awaited_parts_are_the_grammar()
    ensures { GrammarTheorem }
{}

/// The same of texts: which answer comes, and at which byte.
pub fn texts_stop_at_bytes()
    ensures { TextLimitsTheorem }
{}

/// A text that spells an advert has no mark exactly where the advert's depths, counts and numbers are within the limits.
pub fn unmarked_adverts_fit()
    ensures { FittingTheorem }
{}

/// The marks of tokens that spell an advert have the quantities that the advert exceeds as a tree, in the order of the text.
pub fn marks_are_those_of_the_tree()
    ensures { TreeTheorem }
{}
