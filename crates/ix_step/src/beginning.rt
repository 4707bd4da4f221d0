//! The tree of one action, from that of the empty word.

ghost use Rattle.std.specs.Prelude.{◌≡◌, false, IsTrue};
ghost use Rattle.ix_expr.specs.FormFaults.{Fits};
ghost use Rattle.ix_expr.specs.Form.{any, atom as atom_of};
ghost use Rattle.ix_expr.specs.inside.FormOf.{form_of};
ghost use Rattle.ix_tree.specs.Plain.{or as or_of};
ghost use Rattle.ix_can.specs.May.{may_first};
ghost use Rattle.ix_step.specs.inside.Initial.{initial_tree};
ghost use Rattle.ix_step.specs.inside.Makes.{Makes};
ghost use Rattle.ix_step.specs.inside.Moves.{begun, begun_again};
ghost use Rattle.ix_step.specs.inside.BegunSequence.{begun_seq};
ghost use Rattle.ix_step.specs.inside.Pruned.{pruned};
ghost use Rattle.ix_step.specs.inside.Ready.{Ready};

use crate::advance::advance;
use crate::bodies::Body;
use crate::fault::Unbuilt;
use crate::first::first_tree;
use crate::nodes::{dead_knot, done_knot, or_within};
use crate::one_step::Step;
use crate::quantifiers::advance_any;
use crate::sequences::sequence_of;
use crate::sets::put_open;
use ix_alts::AltSet;
use ix_can::can_first;
use ix_expr::{Atom, Expr, accepts_empty, matches};
use ix_tree::{Entries, Knot};

/// The tree of a run that begins with the action, dead where no further run may begin.
#[cycle(advance)]
pub(crate) fn advance_again(step: Step, expr: &Expr, again: bool) -> Result<Knot, Unbuilt>
    requires { Ready (form_of expr.now) step.env.now (initial_tree (form_of expr.now)) }
    ensures { Makes step.entry.limit (begun_again again (form_of expr.now) step.entry.env.now
        step.entry.action.now) result }
{
    if !again {
        return dead_knot(step);
    }
    advance_first(step, expr)
}

/// The tree of the one action, dead where it may not come first. Of a choice no more of the tree of
/// the empty word is built than the sides with which the action may begin, and of a sequence its
/// second part alone.
#[cycle(advance)]
fn advance_first(step: Step, expr: &Expr) -> Result<Knot, Unbuilt>
    requires { Ready (form_of expr.now) step.env.now (initial_tree (form_of expr.now)) }
    ensures { Makes step.entry.limit (begun (form_of expr.now) step.entry.env.now
        step.entry.action.now) result }
{
    match expr {
        Expr::Atom(atom) => advance_atom(step, atom),
        Expr::Or(y, z) => advance_either(step, y, z),
        _ => advance_whole(step, expr),
    }
}

/// An atom is done with its action.
fn advance_atom(step: Step, atom: &Atom) -> Result<Knot, Unbuilt>
    ensures { Makes step.entry.limit (begun (atom_of atom.now) step.entry.env.now
        step.entry.action.now) result }
{
    if !matches(atom, step.env, step.action) {
        return dead_knot(step);
    }
    done_knot(step)
}

#[cycle(advance)]
fn advance_either(step: Step, y: &Expr, z: &Expr) -> Result<Knot, Unbuilt>
    requires first { Ready (form_of y.now) step.env.now (initial_tree (form_of y.now)) }
    requires second { Ready (form_of z.now) step.env.now (initial_tree (form_of z.now)) }
    ensures { Makes step.entry.limit (pruned (or_of (begun (form_of y.now) step.entry.env.now
        step.entry.action.now) (begun (form_of z.now) step.entry.env.now step.entry.action.now)))
        result }
{
    let left = advance_first(step, y)?;
    let right = advance_first(step, z)?;
    or_within(step, left, right)
}

/// The second part may begin with the action where the first one may be empty.
#[cycle(advance)]
fn advance_first_seq(step: Step, y: &Expr, z: &Expr) -> Result<Knot, Unbuilt>
    requires first { Ready (form_of y.now) step.env.now (initial_tree (form_of y.now)) }
    requires second { Ready (form_of z.now) step.env.now (initial_tree (form_of z.now)) }
    ensures { Makes step.entry.limit (begun_seq (form_of y.now) (form_of z.now) step.entry.env.now
        step.entry.action.now) result }
{
    let first = advance_first(step, y)?;
    let second = advance_again(step, z, accepts_empty(y))?;
    let ended = second.is_done();
    let mut rest = AltSet::new(step.alloc, step.limit);
    put_open(&mut rest, second)?;
    sequence_of(step, y, z, first, rest, ended)
}

/// The body's tree of the empty word is moved under outside and under each of the action's values,
/// and no node is made before that.
#[cycle(advance)]
fn advance_first_any(step: Step, body: Body) -> Result<Knot, Unbuilt>
    requires { Ready (any body.parameter.now (form_of body.expr.now)) step.env.now
        (initial_tree (any body.parameter.now (form_of body.expr.now))) }
    ensures { Makes step.entry.limit
        (begun (any body.entry.parameter.now (form_of body.entry.expr.now)) step.entry.env.now
        step.entry.action.now) result }
{
    let common = first_tree(step.leaves, body.expr)?;
    let entries = Entries::new(step.alloc);
    advance_any(step, body, &common, &entries)
}

/// The tree of the one action of another form, unless the action is refused.
#[cycle(advance)]
fn advance_whole(step: Step, expr: &Expr) -> Result<Knot, Unbuilt>
    requires { Ready (form_of expr.now) step.env.now (initial_tree (form_of expr.now)) }
    ensures { Makes step.entry.limit (begun (form_of expr.now) step.entry.env.now
        step.entry.action.now) result }
{
    if is_refused(step, expr) {
        return dead_knot(step);
    }
    match expr {
        Expr::Seq(y, z) => advance_first_seq(step, y, z),
        Expr::Any(parameter, expr) => advance_first_any(step, Body { parameter, expr }),
        _ => advance_built(step, expr),
    }
}

/// The tree of the empty word, built whole and moved.
#[cycle(advance)]
fn advance_built(step: Step, expr: &Expr) -> Result<Knot, Unbuilt>
    requires { Ready (form_of expr.now) step.env.now (initial_tree (form_of expr.now)) }
    ensures { Makes step.entry.limit (begun (form_of expr.now) step.entry.env.now
        step.entry.action.now) result }
{
    let tree = first_tree(step.leaves, expr)?;
    advance(step, expr, &tree)
}

/// Whether the action may not come first, as far as it is asked: of a quantifier the answer costs
/// about what its tree costs, and `&` and `@` are asked when they are moved.
fn is_refused(step: Step, expr: &Expr) -> bool
    requires { Fits (form_of expr.now) step.env.now }
    ensures { IsTrue result → may_first (form_of expr.now) step.entry.env.now
        step.entry.action.now ≡ false }
{
    match expr {
        Expr::And(_, _)
        | Expr::Couple(_, _)
        | Expr::Any(_, _)
        | Expr::Every(_, _)
        | Expr::Sync(_, _)
        | Expr::All(_, _) => false,
        _ => !can_first(expr, step.env, step.action),
    }
}
