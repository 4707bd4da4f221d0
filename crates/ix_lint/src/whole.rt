//! What looks wrong in a whole expression.

ghost use Rattle.std.specs.Prelude.{◌≡◌, IfOk};
ghost use Rattle.ix_lint.specs.Findings.{findings};

use crate::above::Above;
use crate::finding::Finding;
use crate::places::collect;
use crate::walk::walk;
use ix_expr::Expression;
use std::alloc::{AllocError, Global};

/// All that looks wrong in the expression's form: node by node in pre-order, and at a node in the
/// order of the kinds, as `FindingKind` has them. Of the kind `Value` there is one for each
/// different value, in the order of the arguments; of each other kind there is at most one at a
/// node. No order of actions is looked at, and nothing is decided of words but what the kinds say.
/// Want of memory is the one error.
pub fn lint(alloc: Global, expression: &Expression) -> Result<Vec<Finding>, AllocError>
    ensures { IfOk result (λ found. found.items ≡ findings expression.now) }
{
    let mut places = Vec::new(alloc);
    collect(&mut places, expression.expr(), 0)?;
    let mut found = Vec::new(alloc);
    walk(&mut found, &places, expression.expr(), &Above::Top, 0)?;
    Ok(found)
}
