//! What each part of a step needs.

ghost use Rattle.std.specs.Prelude.{ℕ, ◌≤◌};
ghost use Rattle.ix_step.specs.inside.Limits.{most_limit};

use crate::leaves::LeafTrees;
use ix_expr::Env;
use ix_values::Action;
use std::alloc::Global;

/// The action that comes, the values of the parameters, the largest Size of what is built, and the
/// trees without parts, which all that is built shares.
#[derive(Clone, Copy)]
pub(crate) struct Step<'a> {
    pub(crate) action: &'a Action,
    pub(crate) env: &'a Env,
    pub(crate) alloc: Global,
    pub(crate) limit: usize,
    pub(crate) leaves: &'a LeafTrees,
    ghost positive: { 1 ≤ limit },
    ghost bounded: { limit ≤ most_limit },
}

/// The larger of two numbers.
pub(crate) fn larger(a: usize, b: usize) -> usize
    ensures first { a ≤ result }
    ensures second { b ≤ result }
    ensures bound { (n : ℕ) → a ≤ n → b ≤ n → result ≤ n }
{
    if a < b { b } else { a }
}
