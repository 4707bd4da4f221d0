//! Values of an `all` that can own one action.

ghost use Rattle.std.specs.Prelude.{◌≡◌, ◌+◌, ◌<◌, ◌^◌, [], length};
ghost use Rattle.ix_expr.specs.inside.FormOf.{form_of};
ghost use Rattle.ix_lint.specs.Nodes.{spots, numbered};
ghost use Rattle.ix_lint.specs.Owners as spec;
ghost use Rattle.ix_lint.specs.inside.Above.{forms_of};
ghost use Rattle.ix_lint.specs.inside.Search.{IsPair, IsPartner};

use crate::above::Above;
use crate::finding::FindingKind;
use crate::terms::{Replaced, can_differ};
use ix_expr::{Atom, Expr};
use ix_values::Name;

/// An atom, and the nodes above it.
#[derive(Clone, Copy)]
pub(crate) struct Held<'a> {
    atom: &'a Atom,
    above: &'a Above<'a>,
}

/// The body of an `all`: its expression, the nodes above it and the number of its first node.
#[derive(Clone, Copy)]
pub(crate) struct Body<'a> {
    expr: &'a Expr,
    above: &'a Above<'a>,
    node: usize,
}

/// What a search for an atom came to.
pub(crate) enum Partner {
    /// The number of its node.
    Found(usize),
    /// There is none: the number behind the last node.
    Behind(usize),
}

/// What a search for a pair of atoms came to.
pub(crate) enum Pair {
    /// The numbers of their nodes.
    Found(usize, usize),
    /// There is none: the number behind the last node.
    Behind(usize),
}

/// Whether one action is matched by the first atom with the parameter given one value and by the
/// second with it given another.
fn can_share(parameter: &Name, first: &Held, second: &Held) -> bool
    ensures { result
        ≡ spec.can_share parameter.now
        (record { above = forms_of first.now.above.now; atom = first.now.atom.now })
        (record { above = forms_of second.now.above.now; atom = second.now.atom.now }) }
{
    first.atom.name() == second.atom.name()
        && first.atom.args().len() == second.atom.args().len()
        && can_differ(
            parameter,
            first.atom.args(),
            first.above,
            second.atom.args(),
            second.above,
            &Replaced::Nothing,
        )
}

/// The first atom of the part that can share an action with this one. The nodes of the part are
/// numbered from `node`, and these are above it.
#[tactic(auto, using(crate::proofs::Numbers::found_left, crate::proofs::Numbers::found_right,))]
fn find_partner(parameter: &Name, first: &Held, part: &Expr, above: &Above, node: usize) -> Partner
    requires { node + length (spots (forms_of above.now) (form_of part.now)) < 2 ^ 64 }
    ensures { IsPartner
        (spec.partners parameter.now
        (record { above = forms_of first.now.above.now; atom = first.now.atom.now })
        (numbered node (spots (forms_of above.now) (form_of part.now))))
        node (length (spots (forms_of above.now) (form_of part.now))) result }
{
    let inside = Above::Under {
        node: &*part,
        above: &*above,
    };
    match part {
        Expr::Atom(atom) => {
            let second = Held {
                atom: &*atom,
                above: &*above,
            };
            if can_share(parameter, first, &second) {
                Partner::Found(node)
            } else {
                Partner::Behind(node + 1)
            }
        }
        Expr::Opt(y)
        | Expr::Star(y)
        | Expr::ParStar(y)
        | Expr::Any(_, y)
        | Expr::Every(_, y)
        | Expr::Sync(_, y)
        | Expr::All(_, y)
        | Expr::Times(_, y) => find_partner(parameter, first, y, &inside, node + 1),
        Expr::Seq(y, z) | Expr::Par(y, z) | Expr::Or(y, z) | Expr::And(y, z) | Expr::Couple(y, z) =>
            match find_partner(parameter, first, y, &inside, node + 1) {
                Partner::Found(found) => Partner::Found(found),
                Partner::Behind(next) => find_partner(parameter, first, z, &inside, next),
            },
    }
}

/// The first atom of the part and the first of the body with which it can share an action. The
/// nodes of the part are numbered from `node`, and these are above it.
#[tactic(auto, using(crate::proofs::Numbers::pair_left, crate::proofs::Numbers::pair_right,))]
fn find_pair(parameter: &Name, body: &Body, part: &Expr, above: &Above, node: usize) -> Pair
    requires body { body.now.node
        + length (spots (forms_of body.now.above.now) (form_of body.now.expr.now)) < 2 ^ 64 }
    requires part { node + length (spots (forms_of above.now) (form_of part.now)) < 2 ^ 64 }
    ensures { IsPair
        (spec.pairs parameter.now
        (numbered body.now.node (spots (forms_of body.now.above.now) (form_of body.now.expr.now)))
        (numbered node (spots (forms_of above.now) (form_of part.now))))
        node (length (spots (forms_of above.now) (form_of part.now))) result }
{
    let inside = Above::Under {
        node: &*part,
        above: &*above,
    };
    match part {
        Expr::Atom(atom) => {
            let first = Held {
                atom: &*atom,
                above: &*above,
            };
            match find_partner(parameter, &first, body.expr, body.above, body.node) {
                Partner::Found(other) => Pair::Found(node, other),
                Partner::Behind(_) => Pair::Behind(node + 1),
            }
        }
        Expr::Opt(y)
        | Expr::Star(y)
        | Expr::ParStar(y)
        | Expr::Any(_, y)
        | Expr::Every(_, y)
        | Expr::Sync(_, y)
        | Expr::All(_, y)
        | Expr::Times(_, y) => find_pair(parameter, body, y, &inside, node + 1),
        Expr::Seq(y, z) | Expr::Par(y, z) | Expr::Or(y, z) | Expr::And(y, z) | Expr::Couple(y, z) =>
            match find_pair(parameter, body, y, &inside, node + 1) {
                Pair::Found(one, other) => Pair::Found(one, other),
                Pair::Behind(next) => find_pair(parameter, body, z, &inside, next),
            },
    }
}

/// `owners` at a node: an `all` of which two values can own one action, by the first pair of atoms
/// in the order of the first and then of the second.
pub(crate) fn owners(expr: &Expr, node: usize) -> Option<FindingKind>
    requires { node + length (spots [] (form_of expr.now)) < 2 ^ 64 }
    ensures { result ≡ spec.owners node (form_of expr.now) }
{
    let above = Above::Under {
        node: &*expr,
        above: &Above::Top,
    };
    match expr {
        Expr::All(parameter, y) => {
            let body = Body {
                expr: &**y,
                above: &above,
                node: node + 1,
            };
            match find_pair(parameter, &body, y, &above, node + 1) {
                Pair::Found(first, second) => Some(FindingKind::Owners { first, second }),
                Pair::Behind(_) => None,
            }
        }
        _ => None,
    }
}
