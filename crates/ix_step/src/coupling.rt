//! The moved tree of `@`.

ghost use Rattle.std.specs.Prelude.{◌≡◌, ◌&&◌, ◌||◌, not, true, false, MatchResult};
ghost use Rattle.ix_expr.specs.inside.FormOf.{form_of};
ghost use Rattle.ix_expr.specs.Form.{couple};
ghost use Rattle.ix_expr.specs.FormFaults.{Fits};
ghost use Rattle.ix_tree.specs.Plain.{couple as couple_of, is_dead};
ghost use Rattle.ix_expr.specs.Tests.{in_alphabet};
ghost use Rattle.ix_can.specs.May.{may, moves_within};
ghost use Rattle.ix_can.specs.inside.Moved.{moved, moved_inside};
ghost use Rattle.ix_step.specs.declared.fault.Unbuilt.TheVariants.{Memory};
ghost use Rattle.ix_step.specs.inside.Makes.{Makes};
ghost use Rattle.ix_step.specs.inside.Sides.{MakesSide};
ghost use Rattle.ix_step.specs.inside.Ready.{Ready};

use crate::advance::{advance, advance_asked};
use crate::fault::Unbuilt;
use crate::nodes::{bounded, dead_knot, settled_within};
use crate::one_step::Step;
use ix_can::{Met, meets};
use ix_expr::{Expr, contains};
use ix_tree::{Knot, Node};

/// A side of `@` after an action.
#[derive(Drop)]
pub(crate) struct Side {
    /// Whether the action is in its alphabet.
    pub(crate) inside: bool,
    /// The moved tree where it is, else the tree as it was.
    pub(crate) tree: Knot,
}

impl Side {
    /// Whether the action is in its alphabet and may not come.
    fn refuses(&self) -> bool
        ensures { result ≡ (self.now.inside && is_dead self.now.tree) }
    {
        self.inside && self.tree.is_dead()
    }
}

/// The moved tree of `@`, dead where the action may not come next. The right side is asked before
/// the left one is moved, so a left side that is above the limit is one of a live tree.
#[cycle(advance)]
#[inline(never)]
pub(crate) fn advance_couple(
    step: Step,
    y: &Expr,
    z: &Expr,
    left: &Knot,
    right: &Knot,
) -> Result<Knot, Unbuilt>
    requires first { Ready (form_of y.now) step.env.now left.now }
    requires second { Ready (form_of z.now) step.env.now right.now }
    ensures { Makes step.entry.limit (moved (couple (form_of y.now) (form_of z.now))
        step.entry.env.now (couple_of left.now right.now) step.entry.action.now) result }
{
    let met = meets(z, step.env, right, step.action);
    if met.refuses() {
        return dead_knot(step);
    }
    let left = advance_side(step, y, left)?;
    if left.refuses() {
        return dead_knot(step);
    }
    if is_foreign(&left, met) {
        return dead_knot(step);
    }
    let right = advance_met(step, z, right, met.inside)?;
    settled_within(step, Node::Couple(left.tree, right))
}

/// Whether neither side has the action in its alphabet.
fn is_foreign(left: &Side, right: Met) -> bool
    ensures { result ≡ not (left.now.inside || right.inside) }
{
    !(left.inside || right.inside)
}

/// A side that was asked: the moved tree where the action is in its alphabet, else the tree as it
/// was.
#[cycle(advance)]
fn advance_met(step: Step, expr: &Expr, tree: &Knot, inside: bool) -> Result<Knot, Unbuilt>
    requires ready { Ready (form_of expr.now) step.env.now tree.now }
    requires may { moves_within inside (may (form_of expr.now) step.env.now tree.now
        step.action.now) ≡ true }
    ensures { Makes step.entry.limit (moved_inside inside (moved (form_of expr.now)
        step.entry.env.now tree.now step.entry.action.now) tree.now) result }
{
    if inside {
        return advance_asked(step, expr, tree);
    }
    bounded(tree.share()?, step.limit)
}

/// The left side after the action, whatever its Size was before. Of `all`, which moves no other
/// value's state than the action's own, it is asked only where it doesn't move whether the action
/// is in its alphabet.
#[cycle(advance)]
pub(crate) fn advance_side(step: Step, expr: &Expr, tree: &Knot) -> Result<Side, Unbuilt>
    requires { Ready (form_of expr.now) step.env.now tree.now }
    ensures { MakesSide step.entry.limit
        (in_alphabet (form_of expr.now) step.entry.env.now step.entry.action.now)
        (moved (form_of expr.now) step.entry.env.now tree.now step.entry.action.now) tree.now
        result }
{
    if !matches!(expr, Expr::All(_, _)) && !contains(expr, step.env, step.action) {
        return unmoved(tree);
    }
    let moved = advance(step, expr, tree)?;
    if is_outside(step, expr, &moved) {
        return unmoved(tree);
    }
    Ok(Side {
        inside: true,
        tree: moved,
    })
}

/// Whether the action isn't in the alphabet. That is asked only of a tree that is dead.
fn is_outside(step: Step, expr: &Expr, moved: &Knot) -> bool
    requires { Fits (form_of expr.now) step.env.now }
    ensures { result ≡ (is_dead moved.now && not (in_alphabet (form_of expr.now) step.entry.env.now
        step.entry.action.now)) }
{
    moved.is_dead() && !contains(expr, step.env, step.action)
}

/// A side whose alphabet doesn't have the action.
fn unmoved(tree: &Knot) -> Result<Side, Unbuilt>
    ensures { MatchResult result
        (λ side. (side.inside ≡ false) × (side.tree ≡ tree.now))
        (λ fault. fault ≡ Memory) }
{
    Ok(Side {
        inside: false,
        tree: tree.share()?,
    })
}
