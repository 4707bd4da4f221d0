//! The nodes above a node.

ghost use Rattle.std.specs.Prelude.{◌≡◌};
ghost use Rattle.std.specs.List.{list_any};
ghost use Rattle.ix_expr.specs.inside.FormOf.{form_of};
ghost use Rattle.ix_lint.specs.Never.{is_never};
ghost use Rattle.ix_lint.specs.Nodes.{binds, is_iteration};
ghost use Rattle.ix_lint.specs.inside.Above.{forms_of};

use crate::never::is_never;
use ix_expr::Expr;

/// The nodes above a node, the inmost first.
#[derive(Clone, Copy)]
pub(crate) enum Above<'a> {
    /// None: it is the whole expression.
    Top,
    /// One more than above `node`, which is the next above.
    Under {
        node: &'a Expr,
        above: &'a Above<'a>,
    },
}

impl Above<'_> {
    /// Whether one of them is a quantifier that binds the parameter of this name.
    pub(crate) fn binds(&self, parameter: &[u8]) -> bool
        ensures { result ≡ list_any (binds parameter.now) (forms_of self.now) }
    {
        match self {
            Above::Top => false,
            Above::Under { node, above } => binds(parameter, node) || above.binds(parameter),
        }
    }

    /// Whether no word is complete in one of them.
    pub(crate) fn has_never(&self) -> bool
        ensures { result ≡ list_any is_never (forms_of self.now) }
    {
        match self {
            Above::Top => false,
            Above::Under { node, above } => is_never(node) || above.has_never(),
        }
    }

    /// Whether one of them is a `*` or a `#`.
    pub(crate) fn has_iteration(&self) -> bool
        ensures { result ≡ list_any is_iteration (forms_of self.now) }
    {
        match self {
            Above::Top => false,
            Above::Under { node, above } => is_iteration(node) || above.has_iteration(),
        }
    }
}

/// Whether the expression is a quantifier that binds the parameter of this name.
fn binds(parameter: &[u8], expr: &Expr) -> bool
    ensures { result ≡ binds parameter.now (form_of expr.now) }
{
    match expr {
        Expr::Any(bound, _) | Expr::Every(bound, _) | Expr::Sync(bound, _) | Expr::All(bound, _) =>
            bound.bytes() == parameter,
        _ => false,
    }
}

/// Whether the expression is a `*` or a `#`.
pub(crate) fn is_iteration(expr: &Expr) -> bool
    ensures { result ≡ is_iteration (form_of expr.now) }
{
    matches!(expr, Expr::Star(_) | Expr::ParStar(_))
}
