//! The bound of a whole expression.

ghost use Rattle.std.specs.Prelude.{◌≡◌};
ghost use Rattle.ix_bound.specs.Bounds.{IsBound};

use crate::answer::Bound;
use crate::number::capped_bound;
use crate::walk::{Walked, walk};
use ix_expr::Expression;

/// The bound on the Size of the tree of each word with at most so many different values.
///
/// `Refused` tells the first node in pre-order for which there is no bound, whatever the number of
/// values. Otherwise it is `Within` the bound where that is at most 1,000,000, and else `Above`. It
/// takes no memory.
#[tactic(auto, using(crate::proofs::Counts::few_codes))]
pub fn bound(expression: &Expression, values: u32) -> Bound
    ensures { IsBound expression.now values result }
{
    match walk(expression.expr(), 0) {
        Walked::Refused { code, node } => Bound::Refused { code, node },
        Walked::Passed(_) => match capped_bound(expression.expr(), values) {
            number if number <= 1_000_000 => Bound::Within(number),
            _ => Bound::Above,
        },
    }
}
