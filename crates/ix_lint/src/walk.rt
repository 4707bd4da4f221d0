//! The walk over the nodes of an expression, in pre-order, that tells what each rule finds.

ghost use Rattle.std.specs.Prelude.{◌≡◌, ◌+◌, ◌<◌, ◌^◌, ◌++◌, IfOk, OnOk, length};
ghost use Rattle.std.specs.List.{flat_map};
ghost use Rattle.ix_expr.specs.inside.FormOf.{form_of};
ghost use Rattle.ix_lint.specs.Findings.{findings_among, findings_at, told};
ghost use Rattle.ix_lint.specs.Nodes.{spots, numbered};
ghost use Rattle.ix_lint.specs.inside.Above.{forms_of};

use crate::above::Above;
use crate::apart::apart;
use crate::counts::counts;
use crate::finding::{Finding, FindingKind};
use crate::keeps::keeps;
use crate::names::unused;
use crate::never::never;
use crate::owners::owners;
use crate::places::Place;
use crate::values::value;
use ix_expr::Expr;
use std::alloc::AllocError;

/// Puts the findings of these kinds at this node behind those that are there.
fn tell(
    found: &mut Vec<Finding>,
    node: usize,
    kinds: &[Option<FindingKind>],
) -> Result<(), AllocError>
    ensures { OnOk result (found.new.items ≡ found.old.items ++ flat_map (told node) kinds.now) }
{
    for kind in kinds {
        if let Some(kind) = kind {
            found.push(Finding { node, kind: *kind })?;
        }
    }
    Ok(())
}

/// Puts what each rule finds at the node behind what was found before.
#[tactic(auto, using(crate::proofs::Lengths::as_long))]
fn look(
    found: &mut Vec<Finding>,
    places: &[Place],
    expr: &Expr,
    above: &Above,
    node: usize,
) -> Result<(), AllocError>
    requires { node + length (spots (forms_of above.now) (form_of expr.now)) < 2 ^ 64 }
    ensures { OnOk result
        (found.new.items
        ≡ found.old.items ++ findings_at places.now node (forms_of above.now) (form_of expr.now)) }
{
    let kinds = [
        counts(places, node, expr),
        never(above, expr),
        owners(expr, node),
        unused(expr),
        value(above, expr, 0),
        value(above, expr, 1),
        value(above, expr, 2),
        value(above, expr, 3),
        apart(expr),
        keeps(above, expr),
    ];
    tell(found, node, &kinds)
}

/// Puts the findings of the expression, whose nodes are numbered from `node`, behind what was found
/// before, and tells the number behind its last node.
pub(crate) fn walk(
    found: &mut Vec<Finding>,
    places: &[Place],
    expr: &Expr,
    above: &Above,
    node: usize,
) -> Result<usize, AllocError>
    requires { node + length (spots (forms_of above.now) (form_of expr.now)) < 2 ^ 64 }
    ensures next { IfOk result
        (λ next. next ≡ node + length (spots (forms_of above.now) (form_of expr.now))) }
    ensures all { OnOk result
        (found.new.items
        ≡ found.old.items
        ++ findings_among places.now
        (numbered node (spots (forms_of above.now) (form_of expr.now)))) }
{
    look(found, places, expr, above, node)?;
    let inside = Above::Under {
        node: &*expr,
        above: &*above,
    };
    match expr {
        Expr::Atom(_) => Ok(node + 1),
        Expr::Opt(y)
        | Expr::Star(y)
        | Expr::ParStar(y)
        | Expr::Any(_, y)
        | Expr::Every(_, y)
        | Expr::Sync(_, y)
        | Expr::All(_, y)
        | Expr::Times(_, y) => Ok(walk(found, places, y, &inside, node + 1)?),
        Expr::Seq(y, z) | Expr::Par(y, z) | Expr::Or(y, z) | Expr::And(y, z) | Expr::Couple(y, z) =>
            {
                let next = walk(found, places, y, &inside, node + 1)?;
                Ok(walk(found, places, z, &inside, next)?)
            }
    }
}
