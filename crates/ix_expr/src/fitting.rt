//! Laws on fitting an environment, each the contract of a function with an empty body.

ghost use Rattle.ix_expr.specs.Fitting.{OperandsOfFittingFit, WellFormedFits};

/// The operands of an expression that fits an environment fit it: the body of a quantifier with its
/// parameter given any value or outside, the others as it is.
pub fn operands_of_fitting_fit()
    ensures { OperandsOfFittingFit }
{}

/// A well-formed expression fits the environment with no parameter in it.
pub fn well_formed_fits()
    ensures { WellFormedFits }
{}
