//! The tree of the empty word.

ghost use Rattle.std.specs.Prelude.{◌≡◌, ◌≤◌, ◌∷◌, [], true, false, IfOk, map as each};
ghost use Rattle.ix_expr.specs.inside.FormOf.{form_of};
ghost use Rattle.ix_tree.specs.Plain.{seq, par, all, pair, bag, map, none, listed};
ghost use Rattle.ix_tree.specs.PlainOf.{plain_bag};
ghost use Rattle.ix_tree.specs.Size.{size_of};
ghost use Rattle.ix_words.specs.Canon.{when};
ghost use Rattle.ix_expr.specs.Tests.{accepts_empty as accepts};
ghost use Rattle.ix_step.specs.inside.Initial.{initial_tree};
ghost use Rattle.ix_step.specs.inside.Limits.{most_size};

use crate::leaves::LeafTrees;
use ix_expr::{Expr, accepts_empty};
use ix_tree::{Bag, Entries, Knot, Map, Node, Pair};
use std::alloc::{AllocError, Global};

/// The tree of the empty word, whatever its Size. One without parts is shared.
#[cycle(first)]
pub(crate) fn first_tree(leaves: &LeafTrees, expr: &Expr) -> Result<Knot, AllocError>
    requires { size_of (initial_tree (form_of expr.now)) ≤ most_size }
    ensures { IfOk result (λ t. t ≡ initial_tree (form_of expr.now)) }
{
    match expr {
        Expr::Atom(_) => leaves.start.share(),
        Expr::Star(_) => leaves.iteration.share(),
        Expr::Seq(y, z) => first_seq(leaves, y, z),
        _ => built_tree(leaves, expr),
    }
}

/// The tree of the empty word, whose node is made. The flag of `?y` says that nothing has happened,
/// and that of `*y` that a run may begin.
#[cycle(first)]
#[inline(never)]
fn built_tree(leaves: &LeafTrees, expr: &Expr) -> Result<Knot, AllocError>
    requires { size_of (initial_tree (form_of expr.now)) ≤ most_size }
    ensures { IfOk result (λ t. t ≡ initial_tree (form_of expr.now)) }
{
    let alloc = leaves.alloc();
    match expr {
        Expr::Atom(_) => Knot::new(alloc, Node::Start),
        Expr::Opt(y) => Knot::new(alloc, Node::Opt(true, first_tree(leaves, y)?)),
        Expr::Seq(y, z) => first_seq(leaves, y, z),
        Expr::Star(_) => Knot::new(alloc, Node::Star(true, Vec::new(alloc))),
        Expr::Par(y, z) => one_pair(alloc, first_tree(leaves, y)?, first_tree(leaves, z)?),
        Expr::ParStar(_) => Knot::new(alloc, Node::ParStar(no_runs(alloc)?)),
        Expr::Or(y, z) => {
            let left = first_tree(leaves, y)?;
            Knot::new(alloc, Node::Or(left, first_tree(leaves, z)?))
        }
        Expr::And(y, z) => {
            let left = first_tree(leaves, y)?;
            Knot::new(alloc, Node::And(left, first_tree(leaves, z)?))
        }
        Expr::Couple(y, z) => {
            let left = first_tree(leaves, y)?;
            Knot::new(alloc, Node::Couple(left, first_tree(leaves, z)?))
        }
        Expr::Any(_, y) => {
            let common = first_tree(leaves, y)?;
            Knot::new(alloc, Node::Any(common, Entries::new(alloc)))
        }
        Expr::Every(_, y) => {
            let common = first_tree(leaves, y)?;
            Knot::new(alloc, Node::Every(common, Entries::new(alloc)))
        }
        Expr::Sync(_, y) => {
            let common = first_tree(leaves, y)?;
            Knot::new(alloc, Node::Sync(common, Entries::new(alloc)))
        }
        Expr::All(_, _) => empty_map(alloc),
        Expr::Times(_, _) => Knot::new(alloc, Node::Times(no_runs(alloc)?)),
    }
}

/// Where the empty word is complete in y, z may begin.
#[cycle(first)]
#[inline(never)]
fn first_seq(leaves: &LeafTrees, y: &Expr, z: &Expr) -> Result<Knot, AllocError>
    requires first { size_of (initial_tree (form_of y.now)) ≤ most_size }
    requires second { accepts (form_of y.now) ≡ true → size_of (initial_tree (form_of z.now)) ≤
        most_size }
    ensures { IfOk result
        (λ t. t
        ≡ seq (initial_tree (form_of y.now)) false
        (listed (when (accepts (form_of y.now)) (initial_tree (form_of z.now) ∷ [])))) }
{
    let first = first_tree(leaves, y)?;
    let mut rest = Vec::new(leaves.alloc());
    if accepts_empty(y) {
        rest.push(first_tree(leaves, z)?)?;
    }
    Knot::new(leaves.alloc(), Node::Seq(first, false, rest))
}

/// The one split of the empty word.
fn one_pair(alloc: Global, first: Knot, second: Knot) -> Result<Knot, AllocError>
    requires first { size_of first ≤ most_size }
    requires second { size_of second ≤ most_size }
    ensures { IfOk result (λ t. t ≡ par (listed (pair first second ∷ []))) }
{
    let mut pairs = Vec::new(alloc);
    pairs.push(Pair { first, second })?;
    Knot::new(alloc, Node::Par(pairs))
}

/// The one alternative of the empty word: no run has begun.
fn no_runs(alloc: Global) -> Result<Vec<Bag>, AllocError>
    ensures { IfOk result (λ bags. each plain_bag bags.items ≡ bag none ∷ []) }
{
    let mut bags = Vec::new(alloc);
    bags.push(Bag {
        items: Vec::new(alloc),
    })?;
    Ok(bags)
}

/// The one alternative of the empty word: no value has begun.
fn empty_map(alloc: Global) -> Result<Knot, AllocError>
    ensures { IfOk result (λ t. t ≡ all (listed (map none ∷ []))) }
{
    let mut maps = Vec::new(alloc);
    maps.push(Map {
        entries: Entries::new(alloc),
    })?;
    Knot::new(alloc, Node::All(maps))
}
