//! The walk down to the parts that refuse an action.

ghost use Rattle.std.specs.Prelude.{◌≡◌, ◌+◌, ◌<◌, ◌^◌, ◌++◌, OnOk, Some};
ghost use Rattle.ix_words.specs.Each.{Each};
ghost use Rattle.ix_expr.specs.Fitting.{FitsInside};
ghost use Rattle.ix_expr.specs.inside.FormOf.{form_of};
ghost use Rattle.ix_tree.specs.Order.{first_part};
ghost use Rattle.ix_tree.specs.Plain.{items_of};
ghost use Rattle.ix_can.specs.inside.CanAsk.{CanAsk};
ghost use Rattle.ix_why.specs.Blames.{nodes, here, blames};
ghost use Rattle.ix_why.specs.inside.Held.{kept_tree, tree_held, left_held, right_held};
ghost use Rattle.ix_why.specs.inside.Held.{side_blames};
ghost use Rattle.ix_why.specs.inside.Held.{both_blame, body_blames, owner_blames};
ghost use Rattle.ix_why.specs.inside.Held.{BodiesProper, MapsProper};

use crate::ask::{Operand, refuses};
use crate::count::count;
use crate::owners::owner;
use crate::part::Part;
use crate::scope::Scope;
use crate::state::State;
use crate::values::{Body, first_refusing};
use ix_expr::{Expr, contains};
use ix_values::Action;
use std::alloc::AllocError;

/// The operands of `&` and `@`, and whether each is asked only where the action is in its alphabet.
#[derive(Clone, Copy)]
struct Sides<'a> {
    left: &'a Expr,
    right: &'a Expr,
    own: bool,
}

/// Puts the parts of the expression that refuse the action behind those that are there. Its nodes
/// are numbered from `node`, and `state` is that of its word.
#[cycle(walk)]
pub(crate) fn walk(
    parts: &mut Vec<Part>,
    node: usize,
    expr: &Expr,
    scope: &Scope,
    state: State,
    action: &Action,
) -> Result<(), AllocError>
    requires few { node + nodes (form_of expr.now) < 2 ^ 64 }
    requires ask { CanAsk (form_of expr.now) scope.now
        (tree_held (form_of expr.now) (kept_tree state)) }
    ensures { OnOk result
        (parts.new.items
        ≡ parts.old.items
        ++ blames node (form_of expr.now) scope.now
        (tree_held (form_of expr.now) (kept_tree state.entry)) action.now) }
{
    let env = scope.env();
    match expr {
        Expr::Opt(y) => walk(parts, node + 1, y, scope, state.left(), action),
        Expr::And(left, right) => {
            let own = false;
            let sides = Sides { left, right, own };
            walk_both(parts, node, sides, scope, state, action)
        }
        Expr::Couple(left, right) if contains(expr, env, action) => {
            let own = true;
            let sides = Sides { left, right, own };
            walk_both(parts, node, sides, scope, state, action)
        }
        Expr::Every(parameter, y) => {
            let body = Body {
                parameter,
                expr: y,
                own: false,
            };
            walk_body(parts, node, body, scope, state, action)
        }
        Expr::Sync(parameter, y) if contains(expr, env, action) => {
            let body = Body {
                parameter,
                expr: y,
                own: true,
            };
            walk_body(parts, node, body, scope, state, action)
        }
        Expr::All(parameter, y) => {
            let body = Body {
                parameter,
                expr: y,
                own: true,
            };
            walk_owner(parts, node, body, scope, state, action)
        }
        _ => tell(parts, node, scope),
    }
}

/// Puts the node behind the parts that are there.
fn tell(parts: &mut Vec<Part>, node: usize, scope: &Scope) -> Result<(), AllocError>
    ensures { OnOk result (parts.new.items ≡ parts.old.items ++ here node scope.now) }
{
    parts.push(Part {
        node,
        bound: scope.bound(),
    })?;
    Ok(())
}

#[cycle(walk)]
fn walk_side(
    parts: &mut Vec<Part>,
    node: usize,
    operand: Operand,
    scope: &Scope,
    state: State,
    action: &Action,
) -> Result<(), AllocError>
    requires few { node + nodes (form_of operand.expr.now) < 2 ^ 64 }
    requires ask { CanAsk (form_of operand.expr.now) scope.now
        (tree_held (form_of operand.expr.now) (kept_tree state)) }
    ensures { OnOk result
        (parts.new.items
        ≡ parts.old.items
        ++ side_blames operand.entry.own node (form_of operand.entry.expr.now) scope.now
        (tree_held (form_of operand.entry.expr.now) (kept_tree state.entry)) action.now) }
{
    if refuses(operand, scope, state, action) {
        walk(parts, node, operand.expr, scope, state, action)
    } else {
        Ok(())
    }
}

#[cycle(walk)]
fn walk_both(
    parts: &mut Vec<Part>,
    node: usize,
    sides: Sides,
    scope: &Scope,
    state: State,
    action: &Action,
) -> Result<(), AllocError>
    requires few { node + 1 + (nodes (form_of sides.left.now) + nodes (form_of sides.right.now))
        < 2 ^ 64 }
    requires left { CanAsk (form_of sides.left.now) scope.now
        (left_held (form_of sides.left.now) (kept_tree state)) }
    requires right { CanAsk (form_of sides.right.now) scope.now
        (right_held (form_of sides.right.now) (kept_tree state)) }
    ensures { OnOk result
        (parts.new.items
        ≡ parts.old.items
        ++ both_blame sides.entry.own node (form_of sides.entry.left.now)
        (form_of sides.entry.right.now) scope.now (kept_tree state.entry) action.now) }
{
    let own = sides.own;
    let left = Operand {
        expr: sides.left,
        own,
    };
    let right = Operand {
        expr: sides.right,
        own,
    };
    walk_side(parts, node + 1, left, scope, state.left(), action)?;
    let behind = node + 1 + count(sides.left);
    walk_side(parts, behind, right, scope, state.right(), action)
}

#[cycle(walk)]
fn walk_body(
    parts: &mut Vec<Part>,
    node: usize,
    body: Body,
    scope: &Scope,
    state: State,
    action: &Action,
) -> Result<(), AllocError>
    requires few { node + 1 + nodes (form_of body.expr.now) < 2 ^ 64 }
    requires fits { FitsInside body.parameter.now (form_of body.expr.now) scope.now }
    requires proper { BodiesProper (form_of body.expr.now) (kept_tree state) }
    ensures { OnOk result
        (parts.new.items
        ≡ parts.old.items
        ++ body_blames body.entry.own node body.entry.parameter.now
        (form_of body.entry.expr.now) scope.now (kept_tree state.entry) action.now) }
{
    match first_refusing(body, scope, state, action) {
        Some(value) => {
            let state = state.at(&value);
            let inside = scope.with(body.parameter, value);
            walk(parts, node + 1, body.expr, &inside, state, action)
        }
        None => Ok(()),
    }
}

#[cycle(walk)]
fn walk_owner(
    parts: &mut Vec<Part>,
    node: usize,
    body: Body,
    scope: &Scope,
    state: State,
    action: &Action,
) -> Result<(), AllocError>
    requires few { node + 1 + nodes (form_of body.expr.now) < 2 ^ 64 }
    requires fits { FitsInside body.parameter.now (form_of body.expr.now) scope.now }
    requires proper { MapsProper (form_of body.expr.now) (kept_tree state) }
    ensures { OnOk result
        (parts.new.items
        ≡ parts.old.items
        ++ owner_blames node body.entry.parameter.now (form_of body.entry.expr.now)
        scope.now (kept_tree state.entry) action.now) }
{
    let Some(value) = owner(body, scope, action) else {
        return tell(parts, node, scope);
    };
    let Some(state) = state.owned(&value) else {
        return tell(parts, node, scope);
    };
    let inside = scope.with(body.parameter, Some(value));
    walk(parts, node + 1, body.expr, &inside, state, action)
}
