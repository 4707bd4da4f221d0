//! Whether the empty word is complete.

ghost use Rattle.std.specs.Prelude.{◌≡◌, ◌↔◌, [], IsTrue};
ghost use Rattle.ix_expr.specs.Environment.{Environment};
ghost use Rattle.ix_expr.specs.inside.FormOf.{form_of};
ghost use Rattle.ix_expr.specs.Meaning.{IsComplete};
ghost use Rattle.ix_expr.specs.Tests.{accepts_empty};

use crate::expr::Expr;

/// Whether the empty word is complete in the expression. The answer is the same
/// in every environment.
#[tactic(auto, using(crate::proofs::Testing::tells_complete))]
pub fn accepts_empty(expr: &Expr) -> bool
    ensures test { result ≡ accepts_empty (form_of expr.now) }
    ensures complete { (e : Environment) → IsTrue result ↔ IsComplete (form_of expr.now) e [] }
{
    match expr {
        Expr::Atom(_) => false,
        Expr::Opt(_) | Expr::Star(_) | Expr::ParStar(_) => true,
        Expr::Seq(y, z) | Expr::Par(y, z) | Expr::And(y, z) | Expr::Couple(y, z) => accepts_empty(y)
            && accepts_empty(z),
        Expr::Or(y, z) => accepts_empty(y) || accepts_empty(z),
        Expr::Any(_, y) | Expr::Every(_, y) | Expr::Sync(_, y) | Expr::All(_, y) => accepts_empty(
            y,
        ),
        Expr::Times(number, y) => *number == 0 || accepts_empty(y),
    }
}
