//! Whether two expressions are the same.

ghost use Rattle.std.specs.Prelude.{◌≡◌};
ghost use Rattle.std.specs.List.{list_all, zip};
ghost use Rattle.ix_expr.specs.inside.FormOf.{form_of};
ghost use Rattle.ix_simplify.specs.inside.Alike as spec;

use ix_expr::{Arg, Atom, Expr};

/// Whether the expressions have the same atoms, operators and parameters in the same places. It
/// ends at the first difference.
pub(crate) fn same(x: &Expr, y: &Expr) -> bool
    ensures { result ≡ spec.same_form (form_of x.now) (form_of y.now) }
{
    match (x, y) {
        (Expr::Atom(x), Expr::Atom(y)) => same_atom(x, y),
        (Expr::Opt(x), Expr::Opt(y)) => same(x, y),
        (Expr::Star(x), Expr::Star(y)) => same(x, y),
        (Expr::ParStar(x), Expr::ParStar(y)) => same(x, y),
        (Expr::Seq(x, u), Expr::Seq(y, v)) => same(x, y) && same(u, v),
        (Expr::Par(x, u), Expr::Par(y, v)) => same(x, y) && same(u, v),
        (Expr::Or(x, u), Expr::Or(y, v)) => same(x, y) && same(u, v),
        (Expr::And(x, u), Expr::And(y, v)) => same(x, y) && same(u, v),
        (Expr::Couple(x, u), Expr::Couple(y, v)) => same(x, y) && same(u, v),
        (Expr::Any(p, x), Expr::Any(q, y)) => p == q && same(x, y),
        (Expr::Every(p, x), Expr::Every(q, y)) => p == q && same(x, y),
        (Expr::Sync(p, x), Expr::Sync(q, y)) => p == q && same(x, y),
        (Expr::All(p, x), Expr::All(q, y)) => p == q && same(x, y),
        (Expr::Times(m, x), Expr::Times(n, y)) => m == n && same(x, y),
        _ => false,
    }
}

fn same_atom(x: &Atom, y: &Atom) -> bool
    ensures { result ≡ spec.same_atom x.now y.now }
{
    x.name() == y.name() && same_args(x.args(), y.args())
}

fn same_args(xs: &[Arg], ys: &[Arg]) -> bool
    ensures { result ≡ spec.same_arguments xs.now ys.now }
{
    xs.len() == ys.len() && same_pairs(xs, ys)
}

/// Whether the arguments are the same, place by place, as far as both lists go.
fn same_pairs(xs: &[Arg], ys: &[Arg]) -> bool
    ensures { result ≡ list_all spec.is_twice (zip xs.now ys.now) }
{
    xs.iter().zip(ys).all(|(x, y)| same_arg(x, y))
}

fn same_arg(x: &Arg, y: &Arg) -> bool
    ensures { result ≡ spec.same_argument x.now y.now }
{
    match (x, y) {
        (Arg::Fixed(x), Arg::Fixed(y)) => x == y,
        (Arg::Param(x), Arg::Param(y)) => x == y,
        _ => false,
    }
}
