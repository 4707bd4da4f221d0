//! Laws of rewriting, each the contract of a function with an empty body.

ghost use Rattle.ix_simplify.specs.Laws.{SidesMeanTheSame, EachUseLowersTheNodes};
ghost use Rattle.ix_simplify.specs.Laws.{ResultsMeanTheSame, ResultsHaveNoLeftSide};
ghost use Rattle.ix_simplify.specs.Laws.{ResultsAreOne, ResultsStay};

/// Both sides of a law have the same complete words, partial words and alphabet, in every
/// environment.
pub fn sides_mean_the_same()
    ensures { SidesMeanTheSame }
{}

/// Each use of a law lowers the number of nodes.
pub fn each_use_lowers_the_nodes()
    ensures { EachUseLowersTheNodes }
{}

/// An expression and what it becomes have the same complete words, partial words and alphabet, in
/// every environment.
pub fn results_mean_the_same()
    ensures { ResultsMeanTheSame }
{}

/// No left side of a law stands in what an expression becomes.
pub fn results_have_no_left_side()
    ensures { ResultsHaveNoLeftSide }
{}

/// An expression becomes one expression.
pub fn results_are_one()
    ensures { ResultsAreOne }
{}

/// What an expression becomes becomes itself: rewritten again it stays as it is.
pub fn results_stay()
    ensures { ResultsStay }
{}
