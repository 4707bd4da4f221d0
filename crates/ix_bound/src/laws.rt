//! Laws of the bound, each the contract of a function with an empty body.

ghost use Rattle.ix_bound.specs.Laws.{BoundsSuffice, SizesAreBounded};

/// The static bound holds: where no node of an expression is refused, the tree of each word with at
/// most k different values is at most as large as the expression's bound over k values, whatever
/// the environment that the expression fits.
pub fn sizes_are_bounded()
    ensures { SizesAreBounded }
{}

/// With a node limit of at least the number that `bound` told, no word with at most so many
/// different values has a larger tree. So no ask is refused as too large while the history with the
/// asked action has at most so many different values.
pub fn bounds_suffice()
    ensures { BoundsSuffice }
{}
