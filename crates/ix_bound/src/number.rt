//! The number that bounds Size.

ghost use Rattle.std.specs.Prelude.{◌≡◌, ◌<◌, ◌≤◌, ◌^◌, min};
ghost use Rattle.ix_expr.specs.inside.FormOf.{form_of};
ghost use Rattle.ix_bound.specs.Number.{bound_of, with_values};

use ix_expr::Expr;

/// One more than the greatest bound that is told: greater numbers count as this one.
const TOO_MANY: u64 = 1_000_001;

/// The bound of the expression over so many values, or 1,000,001 where it is above, so that no sum
/// and no product passes what a `u64` holds.
pub(crate) fn capped_bound(expr: &Expr, values: u32) -> u64
    ensures { result ≡ min 1000001 (bound_of (form_of expr.now) values) }
{
    match expr {
        Expr::Atom(_) | Expr::ParStar(_) | Expr::Times(_, _) => 1,
        Expr::Opt(y) | Expr::Star(y) => capped(1 + capped_bound(y, values)),
        Expr::Seq(y, z) | Expr::Or(y, z) | Expr::And(y, z) | Expr::Couple(y, z) => capped(
            1 + capped_bound(y, values) + capped_bound(z, values),
        ),
        Expr::Par(y, z) => capped(2 + capped_bound(y, values) + capped_bound(z, values)),
        Expr::Any(_, y) | Expr::Every(_, y) | Expr::Sync(_, y) => with_values(
            capped_bound(y, values),
            values,
        ),
        Expr::All(_, y) => capped(2 + values as u64 * (1 + capped_bound(y, values))),
    }
}

fn capped(number: u64) -> u64
    ensures { result ≡ min 1000001 number }
{
    if number < TOO_MANY { number } else { TOO_MANY }
}

/// A common tree, and an entry for each value.
fn with_values(bound: u64, values: u32) -> u64
    requires { bound ≤ 1000001 }
    ensures { result ≡ min 1000001 (with_values values bound) }
{
    capped(1 + bound + values as u64 * (1 + bound))
}
