//! The first node, in pre-order, for which no bound is given.

ghost use Rattle.std.specs.Prelude.{◌≡◌, ◌+◌, ◌<◌, ◌^◌, length};
ghost use Rattle.ix_expr.specs.inside.FormOf.{form_of};
ghost use Rattle.ix_bound.specs.Refusals.{refusal_code, codes_of};
ghost use Rattle.ix_bound.specs.inside.Walked.{WalksTo};

use crate::heads::is_headed;
use crate::keys::is_keyed;
use crate::names::share_a_name;
use ix_expr::Expr;

/// Where a walk over the nodes of an expression came to.
pub(crate) enum Walked {
    /// Behind all of them, none refused: the number of the next node.
    Passed(usize),
    /// To the first refused one.
    Refused { code: u8, node: usize },
}

/// Why the node itself is refused, if it is.
pub(crate) fn refusal_code(expr: &Expr) -> Option<u8>
    ensures { result ≡ refusal_code (form_of expr.now) }
{
    match expr {
        Expr::Seq(y, z) | Expr::Par(y, z) => if share_a_name(y, z) { Some(51) } else { None },
        Expr::Star(y) => if is_headed(y) { None } else { Some(52) },
        Expr::All(parameter, y) => if is_keyed(parameter, y) {
            None
        } else {
            Some(53)
        },
        Expr::ParStar(_) | Expr::Times(_, _) => Some(54),
        _ => None,
    }
}

/// The first refused node of the expression, whose nodes are numbered from `node`.
#[tactic(auto, using(crate::proofs::Walks::refused_here, crate::proofs::Walks::walked_one, crate::proofs::Walks::walked_two, crate::proofs::Walks::refused_before,))]
pub(crate) fn walk(expr: &Expr, node: usize) -> Walked
    requires { node + length (codes_of (form_of expr.now)) < 2 ^ 64 }
    ensures { WalksTo (codes_of (form_of expr.now)) node result }
{
    if let Some(code) = refusal_code(expr) {
        return Walked::Refused { code, node };
    }
    match expr {
        Expr::Atom(_) => Walked::Passed(node + 1),
        Expr::Opt(y)
        | Expr::Star(y)
        | Expr::ParStar(y)
        | Expr::Any(_, y)
        | Expr::Every(_, y)
        | Expr::Sync(_, y)
        | Expr::All(_, y)
        | Expr::Times(_, y) => walk(y, node + 1),
        Expr::Seq(y, z) | Expr::Par(y, z) | Expr::Or(y, z) | Expr::And(y, z) | Expr::Couple(y, z) =>
            match walk(y, node + 1) {
                Walked::Passed(next) => walk(z, next),
                Walked::Refused { code, node } => Walked::Refused { code, node },
            },
    }
}
