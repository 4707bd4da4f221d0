//! A step by itself, with Sizes worked out by hand, and what the other tests read.
ghost use Rattle.std.specs.Prelude.{◌≤◌};

use ix_expr::{Env, Expression};
use ix_parse::read;
use ix_step::{BuildFault, initial, step};
use ix_values::Action;
use std::alloc::Global;
use std::test::Fail;

mod follows;
mod names;

fn expression(alloc: Global, text: &str) -> Result<Expression, Fail> {
    match read(alloc, text.as_bytes()) {
        Ok(expression) => Ok(expression),
        Err(_) => Err("not an expression".into()),
    }
}

fn action(text: &str) -> Result<Action, Fail> {
    match Action::read(text.as_bytes()) {
        Ok(action) => Ok(action),
        Err(_) => Err("not an action".into()),
    }
}

// How large the tree of the one action is that `step` makes with nothing kept, or none where it is
// above the limit.
#[tactic(auto, using(ix_engine::proofs::Trees::tree_proper))]
fn step_size(
    alloc: Global,
    expression: &Expression,
    action: &Action,
    limit: usize,
) -> Result<Option<usize>, Fail>
    requires { limit ≤ 1000000 }
{
    let expr = expression.expr();
    let Ok(first) = initial(alloc, expr, limit) else {
        return Ok(None);
    };
    match step(alloc, &first, expr, &Env::new(), action, limit) {
        Ok(tree) => Ok(Some(tree.size())),
        Err(BuildFault::Over { .. }) => Ok(None),
        Err(BuildFault::Memory) => Err("no memory".into()),
    }
}

// The same of `*(a - b)` and the action of a text.
fn size_behind(alloc: Global, text: &str, limit: usize) -> Result<Option<usize>, Fail>
    requires { limit ≤ 1000000 }
{
    let repeated = expression(alloc, "*(a - b)")?;
    step_size(alloc, &repeated, &action(text)?, limit)
}

#[test]
fn a_step_by_itself_gives_the_same_tree(rt: HostRuntime) -> Result<(), Fail> {
    for (text, limit, size) in [("a", 4, Some(4)), ("a", 3, None), ("b", 4, Some(1))] {
        let stepped = size_behind(rt.alloc(), text, limit)?;
        assert!(rt; stepped == size, "{text} within {limit}");
    }
    Ok(())
}
