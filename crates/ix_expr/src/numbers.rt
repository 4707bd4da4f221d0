//! The numbers behind `times`.

ghost use Rattle.std.specs.Prelude.{◌↔◌, IsTrue};
ghost use Rattle.ix_expr.specs.FormFaults.{HasNumbers, IsTimesNumber};
ghost use Rattle.ix_expr.specs.inside.FormOf.{form_of};

use crate::expr::Expr;

/// Whether the number of each `times` of the expression is 2 to 64, as `Expression::new` wants it.
pub fn has_numbers(expr: &Expr) -> bool
    ensures { IsTrue result ↔ HasNumbers (form_of expr.now) }
{
    match expr {
        Expr::Atom(_) => true,
        Expr::Opt(y)
        | Expr::Star(y)
        | Expr::ParStar(y)
        | Expr::Any(_, y)
        | Expr::Every(_, y)
        | Expr::Sync(_, y)
        | Expr::All(_, y) => has_numbers(y),
        Expr::Seq(y, z) | Expr::Par(y, z) | Expr::Or(y, z) | Expr::And(y, z) | Expr::Couple(y, z) =>
            { has_numbers(y) && has_numbers(z) }
        Expr::Times(number, y) => may_be_wanted(*number) && has_numbers(y),
    }
}

/// Whether so many may be wanted side by side.
fn may_be_wanted(number: u8) -> bool
    ensures { IsTrue result ↔ IsTimesNumber number }
{
    2 <= number && number <= 64
}
