//! Laws of meaning, each the contract of a function with an empty body.

ghost use Rattle.ix_expr.specs.Laws.{CompleteWordsArePartial, PrefixesArePartial};
ghost use Rattle.ix_expr.specs.Laws.{TheEmptyWordIsPartial, PartialWordsStayInTheAlphabet};
ghost use Rattle.ix_expr.specs.Laws.{AgreeingEnvironmentsMeanTheSame, AgreeingAtomsMeanTheSame};
ghost use Rattle.ix_expr.specs.Laws.{UnmentionedNamesDoNotMatter, UnseenValuesAreOutside};
ghost use Rattle.ix_expr.specs.Laws.{OwnersAreValues, FreshValuesAreAlike, FreshValuesAreOutside};
ghost use Rattle.ix_expr.specs.Laws.{FittingAtomsNameTheirParameter, OwnersAmongTheValues};

/// A complete word is partial.
pub fn complete_words_are_partial()
    ensures { CompleteWordsArePartial }
{}

/// Each prefix of a partial word is partial.
pub fn prefixes_are_partial()
    ensures { PrefixesArePartial }
{}

/// The empty word is partial, whatever the expression and the environment.
pub fn the_empty_word_is_partial()
    ensures { TheEmptyWordIsPartial }
{}

/// Each action of a partial word is in the alphabet.
pub fn partial_words_stay_in_the_alphabet()
    ensures { PartialWordsStayInTheAlphabet }
{}

/// Environments that agree on a word give the same answer on whether it is complete and on whether
/// it is partial, and the same alphabet at each of its actions.
pub fn agreeing_environments_mean_the_same()
    ensures { AgreeingEnvironmentsMeanTheSame }
{}

/// Environments under which the atoms of an expression match the same of a word's actions give the
/// same answer on whether it is complete and on whether it is partial, and the same alphabet at
/// each of its actions.
pub fn agreeing_atoms_mean_the_same()
    ensures { AgreeingAtomsMeanTheSame }
{}

/// At an action whose value v no atom of the expression sees by the parameter p, each atom matches
/// with p given v as with p outside.
pub fn unseen_values_are_outside()
    ensures { UnseenValuesAreOutside }
{}

/// An action whose name no atom of the expression has is in the alphabet under no environment. So
/// no word that ends with it is partial, and behind a word it adds nothing to the projection to the
/// alphabet.
pub fn unmentioned_names_do_not_matter()
    ensures { UnmentionedNamesDoNotMatter }
{}

/// In `all $p y`, where every atom of y names `$p`, an owner whose part is partial is a value of
/// each action that it owns.
pub fn owners_are_values()
    ensures { OwnersAreValues }
{}

/// A value that no action of the word has counts as any other such value.
pub fn fresh_values_are_alike()
    ensures { FreshValuesAreAlike }
{}

/// A value that no action of the word has counts as outside.
pub fn fresh_values_are_outside()
    ensures { FreshValuesAreOutside }
{}

/// In an `all $p y` that fits its environment, every atom of y names `$p`.
pub fn fitting_atoms_name_their_parameter()
    ensures { FittingAtomsNameTheirParameter }
{}

/// In `all $p y`, where every atom of y names `$p`, owners among each action's own values suffice.
pub fn owners_among_the_values()
    ensures { OwnersAmongTheValues }
{}
