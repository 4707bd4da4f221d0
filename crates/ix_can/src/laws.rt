//! Laws of the tests and of trees, each the contract of a function with an empty body.

ghost use Rattle.ix_can.specs.Laws.{MatchTestsDecide, AlphabetTestsDecide, EmptyTestsDecide};
ghost use Rattle.ix_can.specs.Laws.{FittingExpressionsName, TreesTell};
ghost use Rattle.ix_can.specs.Laws.{AgreeingEnvironmentsGiveOneTree, EmptyWordsHaveOneTree};
ghost use Rattle.ix_can.specs.Laws.{TreesAreProper, SpentStatesAreCompleteAndStuck};
ghost use Rattle.ix_can.specs.Laws.{EmptyWordsAreNeverSpent};

/// The test of matching is true exactly where the atom matches the action.
pub fn match_tests_decide()
    ensures { MatchTestsDecide }
{}

/// The test of the alphabet is true exactly where the action is in the alphabet, whatever the
/// expression and the environment.
pub fn alphabet_tests_decide()
    ensures { AlphabetTestsDecide }
{}

/// The test of the empty word is true exactly where the empty word is complete.
pub fn empty_tests_decide()
    ensures { EmptyTestsDecide }
{}

/// In every `all` of an expression that fits its environment, each atom names the parameter.
pub fn fitting_expressions_name()
    ensures { FittingExpressionsName }
{}

/// Of an expression that fits its environment, the tree of every word is dead exactly where the
/// word isn't partial, and final exactly where the word is complete.
pub fn trees_tell()
    ensures { TreesTell }
{}

/// Environments that agree on a word give the same tree.
pub fn agreeing_environments_give_one_tree()
    ensures { AgreeingEnvironmentsGiveOneTree }
{}

/// The tree of the empty word doesn't depend on the environment.
pub fn empty_words_have_one_tree()
    ensures { EmptyWordsHaveOneTree }
{}

/// In the tree of a word all lists of alternatives ascend strictly, entries ascend
/// strictly by their values, bags rise, and no entry has the common tree or, in a map, the
/// tree of the empty word.
pub fn trees_are_proper()
    ensures { TreesAreProper }
{}

/// Where the tree of a word is done, the word is complete and with no action more is it partial.
pub fn spent_states_are_complete_and_stuck()
    ensures { SpentStatesAreCompleteAndStuck }
{}

/// The tree of the empty word is never done.
pub fn empty_words_are_never_spent()
    ensures { EmptyWordsAreNeverSpent }
{}
