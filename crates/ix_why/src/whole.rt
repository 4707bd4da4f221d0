//! Which parts of a whole expression refuse an action.

ghost use Rattle.std.specs.Prelude.{◌≡◌, ◌≢◌, ◌↔◌, [], ◌∷◌, ◌++◌, IfOk};
ghost use Rattle.ix_values.specs.PlainAction.{Word};
ghost use Rattle.ix_expr.specs.FormFaults.{IsWellFormed};
ghost use Rattle.ix_expr.specs.inside.FormOf.{form_of};
ghost use Rattle.ix_expr.specs.Meaning.{IsPartial};
ghost use Rattle.ix_can.specs.Laws.{IsProper};
ghost use Rattle.ix_can.specs.TreeOf.{tree_of};
ghost use Rattle.ix_why.specs.Blames.{refusals};

use crate::ask::takes;
use crate::part::Part;
use crate::scope::Scope;
use crate::state::State;
use crate::walk::walk;
use ix_expr::{Expr, Expression};
use ix_tree::Tree;
use ix_values::Action;
use std::alloc::{AllocError, Global};

/// The parts of the expression that refuse the action, `tree` being that of a partial word. There
/// is one exactly where the word may not go on with the action. Want of memory is the one error.
pub fn why(
    alloc: Global,
    expression: &Expression,
    tree: &Tree,
    action: &Action,
) -> Result<Vec<Part>, AllocError>
    requires { IsProper expression.now tree.now }
    ensures by_tree { IfOk result
        (λ parts. parts.items ≡ refusals expression.now tree.now action.now) }
    ensures some { IfOk result (λ parts. (w : Word) → tree.now ≡ tree_of expression.now [] w
        → (parts.items ≢ []) ↔ ¬ IsPartial expression.now [] (w ++ action.now ∷ [])) }
{
    let parts = refusing(alloc, expression.expr(), tree, action)?;
    Ok(parts)
}

/// The same of the expression itself.
fn refusing(
    alloc: Global,
    expr: &Expr,
    tree: &Tree,
    action: &Action,
) -> Result<Vec<Part>, AllocError>
    requires formed { IsWellFormed (form_of expr.now) }
    requires proper { IsProper (form_of expr.now) tree.now }
    ensures { IfOk result
        (λ parts. parts.items ≡ refusals (form_of expr.now) tree.now action.now) }
{
    let mut parts = Vec::new(alloc);
    let scope = Scope::new();
    let state = State::At(tree.knot());
    if !takes(expr, &scope, state, action) {
        walk(&mut parts, 0, expr, &scope, state, action)?;
    }
    Ok(parts)
}
