//! The tree of a word moved by one action.

ghost use Rattle.std.specs.Prelude.{◌≡◌, ◌≤◌, ◌||◌, true, false, IsTrue, if◌then◌else◌};
ghost use Rattle.std.specs.List.{list_any};
ghost use Rattle.ix_words.specs.Each.{Each};
ghost use Rattle.ix_expr.specs.inside.FormOf.{form_of};
ghost use Rattle.ix_expr.specs.Form.{opt, seq, star, or, and};
ghost use Rattle.ix_tree.specs.Plain.{is_dead, is_done, listed, opt as opt_of, seq as seq_of};
ghost use Rattle.ix_tree.specs.Plain.{star as star_of, or as or_of, and as and_of};
ghost use Rattle.ix_expr.specs.Tests.{in_alphabet};
ghost use Rattle.ix_can.specs.TreeOf.{is_final as is_final_by};
ghost use Rattle.ix_can.specs.May.{may, moves_within};
ghost use Rattle.ix_can.specs.inside.Moved.{moved, moved_inside};
ghost use Rattle.ix_tree.specs.Size.{size_of};
ghost use Rattle.ix_step.specs.inside.Initial.{initial_tree};
ghost use Rattle.ix_step.specs.inside.Limits.{most_size};
ghost use Rattle.ix_step.specs.inside.Makes.{Makes, CollectsOpen};
ghost use Rattle.ix_step.specs.inside.MovedNode.{moved_node};
ghost use Rattle.ix_step.specs.inside.Moves.{open_moves, some_ends};
ghost use Rattle.ix_step.specs.inside.Pruned.{passes, pruned};
ghost use Rattle.ix_step.specs.inside.Ready.{Ready};

use crate::beginning::advance_again;
use crate::bodies::Body;
use crate::coupling::advance_couple;
use crate::fault::Unbuilt;
use crate::maps::advance_all;
use crate::nodes::{
    dead_knot, done_knot, is_ended, or_within, settled_within, sized_if_live, within_if_live,
};
use crate::one_step::Step;
use crate::parallel::{advance_par, advance_par_star, advance_times};
use crate::quantifiers::{advance_any, advance_every, advance_sync};
use crate::sequences::sequence_of;
use crate::sets::put_open;
use ix_alts::AltSet;
use ix_can::{completes, goes_on};
use ix_expr::Expr;
use ix_tree::{Knot, Node};

/// The moved tree, dead where the action may not come next.
///
/// That is asked before the parts are moved only of an atom and of the forms of which each part
/// must move: there a part may be above the limit while another is dead. Of `@` it is enough to ask
/// one side. A node of any other form is dead exactly where none of its moved parts is live.
#[cycle(advance)]
pub(crate) fn advance(step: Step, expr: &Expr, tree: &Knot) -> Result<Knot, Unbuilt>
    requires { Ready (form_of expr.now) step.env.now tree.now }
    ensures { Makes step.entry.limit (moved (form_of expr.now) step.entry.env.now tree.now
        step.entry.action.now) result }
{
    if is_ended(tree) {
        return dead_knot(step);
    }
    if let (Expr::Couple(y, z), Node::Couple(left, right)) = (expr, tree.node()) {
        return advance_couple(step, y, z, left, right);
    }
    if !passes(step, expr, tree) {
        return dead_knot(step);
    }
    advance_asked(step, expr, tree)
}

/// Whether the action may come next, as far as it is asked.
fn passes(step: Step, expr: &Expr, tree: &Knot) -> bool
    requires { Ready (form_of expr.now) step.env.now tree.now }
    ensures { result ≡ passes (form_of expr.now) step.entry.env.now tree.now step.entry.action.now }
{
    match expr {
        Expr::Atom(_)
        | Expr::And(_, _)
        | Expr::Couple(_, _)
        | Expr::Every(_, _)
        | Expr::Sync(_, _) => goes_on(expr, step.env, tree, step.action),
        _ => true,
    }
}

/// The moved tree, where the action is known to pass: nothing is asked again.
#[cycle(advance)]
pub(crate) fn advance_asked(step: Step, expr: &Expr, tree: &Knot) -> Result<Knot, Unbuilt>
    requires ready { Ready (form_of expr.now) step.env.now tree.now }
    requires passes { passes (form_of expr.now) step.env.now tree.now step.action.now ≡ true }
    ensures { Makes step.entry.limit (moved (form_of expr.now) step.entry.env.now tree.now
        step.entry.action.now) result }
{
    advance_node(step, expr, tree)
}

/// The node of what the parts become, form by form.
#[cycle(advance)]
fn advance_node(step: Step, expr: &Expr, tree: &Knot) -> Result<Knot, Unbuilt>
    requires ready { Ready (form_of expr.now) step.env.now tree.now }
    requires passes { passes (form_of expr.now) step.env.now tree.now step.action.now ≡ true }
    ensures { Makes step.entry.limit (pruned (moved_node (form_of expr.now) step.entry.env.now
        tree.now step.entry.action.now)) result }
{
    match (expr, tree.node()) {
        (Expr::Atom(_), Node::Start) => done_knot(step),
        (Expr::Opt(y), Node::Opt(_, x)) => advance_opt(step, y, x),
        (Expr::Seq(y, z), Node::Seq(first, _, rest)) => advance_seq(step, y, z, first, rest),
        (Expr::Star(y), Node::Star(again, rest)) => advance_star(step, y, *again, rest),
        (Expr::Par(y, z), Node::Par(pairs)) => advance_par(step, y, z, pairs),
        (Expr::ParStar(y), Node::ParStar(bags)) => advance_par_star(step, y, bags),
        (Expr::Or(y, z), Node::Or(left, right)) => advance_or(step, y, z, left, right),
        (Expr::And(y, z), Node::And(left, right)) => advance_and(step, y, z, left, right),
        (Expr::Couple(y, z), Node::Couple(left, right)) => {
            advance_couple(step, y, z, left, right)
        }
        (Expr::Any(parameter, expr), Node::Any(common, entries)) => {
            advance_any(step, Body { parameter, expr }, common, entries)
        }
        (Expr::Every(parameter, expr), Node::Every(common, entries)) => {
            advance_every(step, Body { parameter, expr }, common, entries)
        }
        (Expr::Sync(parameter, expr), Node::Sync(common, entries)) => {
            advance_sync(step, Body { parameter, expr }, common, entries)
        }
        (Expr::All(parameter, expr), Node::All(maps)) => {
            advance_all(step, Body { parameter, expr }, maps)
        }
        (Expr::Times(number, y), Node::Times(bags)) => advance_times(step, *number, y, bags),
        _ => dead_knot(step),
    }
}

/// The flag is false: after an action the word isn't empty.
#[cycle(advance)]
#[inline(never)]
fn advance_opt(step: Step, y: &Expr, x: &Knot) -> Result<Knot, Unbuilt>
    requires { Ready (form_of y.now) step.env.now x.now }
    ensures { Makes step.entry.limit (pruned (moved_node (opt (form_of y.now)) step.entry.env.now
        (opt_of false x.now) step.entry.action.now)) result }
{
    let x = advance(step, y, x)?;
    within_if_live(step, Node::Opt(false, x))
}

#[cycle(advance)]
#[inline(never)]
fn advance_or(step: Step, y: &Expr, z: &Expr, left: &Knot, right: &Knot) -> Result<Knot, Unbuilt>
    requires first { Ready (form_of y.now) step.env.now left.now }
    requires second { Ready (form_of z.now) step.env.now right.now }
    ensures { Makes step.entry.limit (pruned (moved_node (or (form_of y.now) (form_of z.now))
        step.entry.env.now (or_of left.now right.now) step.entry.action.now)) result }
{
    let left = advance(step, y, left)?;
    let right = advance(step, z, right)?;
    or_within(step, left, right)
}

/// Both sides are known to pass.
#[cycle(advance)]
#[inline(never)]
fn advance_and(step: Step, y: &Expr, z: &Expr, left: &Knot, right: &Knot) -> Result<Knot, Unbuilt>
    requires first { Ready (form_of y.now) step.env.now left.now }
    requires second { Ready (form_of z.now) step.env.now right.now }
    requires left { passes (form_of y.now) step.env.now left.now step.action.now ≡ true }
    requires right { passes (form_of z.now) step.env.now right.now step.action.now ≡ true }
    ensures { Makes step.entry.limit (pruned (moved_node (and (form_of y.now) (form_of z.now))
        step.entry.env.now (and_of left.now right.now) step.entry.action.now)) result }
{
    let left = advance_asked(step, y, left)?;
    let right = advance_asked(step, z, right)?;
    settled_within(step, Node::And(left, right))
}

/// Beside the moved alternatives for z stands one more where the first part is final: z may begin.
/// The flag says whether a moved alternative is done, whatever it was before: one that is done
/// doesn't move.
#[cycle(advance)]
#[inline(never)]
fn advance_seq(step: Step, y: &Expr, z: &Expr, first: &Knot, rest: &[Knot]) -> Result<Knot, Unbuilt>
    requires first { Ready (form_of y.now) step.env.now first.now }
    requires rest { Each (Ready (form_of z.now) step.env.now) rest.now }
    requires second { size_of (initial_tree (form_of z.now)) ≤ most_size }
    ensures { Makes step.entry.limit (pruned (moved_node (seq (form_of y.now) (form_of z.now))
        step.entry.env.now (seq_of first.now false (listed rest.now)) step.entry.action.now))
        result }
{
    let first = advance(step, y, first)?;
    let (rest, ended) = advance_each(step, z, rest)?;
    sequence_of(step, y, z, first, rest, ended)
}

/// Beside the moved alternatives stands one more: the run that begins with the action. The flag
/// says whether the word is a concatenation of complete words, so that another run may begin. That
/// is so where an alternative for the last run is done or final.
#[cycle(advance)]
#[inline(never)]
fn advance_star(step: Step, y: &Expr, again: bool, rest: &[Knot]) -> Result<Knot, Unbuilt>
    requires { Ready (star (form_of y.now)) step.env.now (star_of again (listed rest.now)) }
    ensures { Makes step.entry.limit (pruned (moved_node (star (form_of y.now)) step.entry.env.now
        (star_of again (listed rest.now)) step.entry.action.now)) result }
{
    let begun = advance_again(step, y, again)?;
    let (mut set, ended) = advance_each(step, y, rest)?;
    let ended = or_done(ended, &begun);
    put_open(&mut set, begun)?;
    let size = 1 + set.total();
    let items = set.into_items();
    let again = runs_end(ended, y, &items);
    sized_if_live(step, Node::Star(again, items), size)
}

fn some_completes(y: &Expr, trees: &[Knot]) -> bool
    ensures { result ≡ list_any (is_final_by (form_of y.now)) trees.now }
{
    for tree in trees {
        if completes(y, tree) {
            return true;
        }
    }
    false
}

/// Whether an alternative is done, or one that isn't is final.
fn runs_end(ended: bool, y: &Expr, trees: &[Knot]) -> bool
    ensures { result ≡ (ended || list_any (is_final_by (form_of y.now)) trees.now) }
{
    ended || some_completes(y, trees)
}

/// Whether some tree so far was done, or this one is.
fn or_done(ended: bool, tree: &Knot) -> bool
    ensures { result ≡ (ended || is_done tree.now) }
{
    ended || tree.is_done()
}

/// The open alternatives among the moved ones, and whether one of them is done.
#[cycle(advance)]
fn advance_each(step: Step, expr: &Expr, trees: &[Knot]) -> Result<(AltSet<Knot>, bool), Unbuilt>
    requires { Each (Ready (form_of expr.now) step.env.now) trees.now }
    ensures { CollectsOpen step.entry.limit
        (open_moves (form_of expr.now) step.entry.env.now step.entry.action.now trees.now)
        (some_ends (form_of expr.now) step.entry.env.now step.entry.action.now trees.now)
        result }
{
    let mut set = AltSet::new(step.alloc, step.limit);
    let mut ended = false;
    for tree in trees {
        let tree = advance(step, expr, tree)?;
        ended = or_done(ended, &tree);
        put_open(&mut set, tree)?;
    }
    Ok((set, ended))
}
