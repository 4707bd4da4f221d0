//! Whether the word is complete, read off its tree.

ghost use Rattle.std.specs.Prelude.{◌≡◌, ◌↔◌, ◌&&◌, ◌||◌, ◌==◌, map, length, IsTrue};
ghost use Rattle.std.specs.List.{list_all, list_any};
ghost use Rattle.ix_values.specs.PlainAction.{Word};
ghost use Rattle.ix_expr.specs.Environment.{Environment};
ghost use Rattle.ix_expr.specs.FormFaults.{Fits};
ghost use Rattle.ix_expr.specs.inside.FormOf.{form_of};
ghost use Rattle.ix_expr.specs.Meaning.{IsComplete};
ghost use Rattle.ix_tree.specs.Order.{first_part, second_part};
ghost use Rattle.ix_tree.specs.Plain.{listed, items_of};
ghost use Rattle.ix_tree.specs.PlainOf.{plain_pair, plain_bag, plain_map, plain_entries};
ghost use Rattle.ix_expr.specs.Tests.{accepts_empty};
ghost use Rattle.ix_can.specs.TreeOf.{is_final, tree_of};

use ix_expr::{Expr, accepts_empty};
use ix_tree::{Bag, Entries, Knot, Map, Node, Pair, Tree};

/// Whether the word is complete in the expression, where `tree` is the tree of the word.
pub fn is_final(tree: &Tree, expr: &Expr) -> bool
    ensures by_tree { result ≡ is_final (form_of expr.now) tree.now }
    ensures tells { (e : Environment) (w : Word) → Fits (form_of expr.now) e
        → tree.now ≡ tree_of (form_of expr.now) e w
        → IsTrue result ↔ IsComplete (form_of expr.now) e w }
{
    completes(expr, tree.knot())
}

/// Whether the word is complete in the expression, where `state` is the tree of the word.
#[cycle(completes)]
pub fn completes(expr: &Expr, state: &Knot) -> bool
    ensures { result ≡ is_final (form_of expr.now) state.now }
{
    match (expr, state.node()) {
        (_, Node::Done) => true,
        (Expr::Opt(y), Node::Opt(empty, x)) => *empty || completes(y, x),
        (Expr::Seq(_, z), Node::Seq(_, ended, rest)) => *ended || some_completes(z, rest),
        (Expr::Star(_), Node::Star(again, _)) => *again,
        (Expr::Par(y, z), Node::Par(pairs)) => some_pair_completes(y, z, pairs),
        (Expr::ParStar(y), Node::ParStar(bags)) => some_bag_completes(y, bags),
        (Expr::Or(y, z), Node::Or(left, right)) => completes(y, left) || completes(z, right),
        (Expr::And(y, z), Node::And(left, right)) => completes(y, left) && completes(z, right),
        (Expr::Couple(y, z), Node::Couple(left, right)) => {
            completes(y, left) && completes(z, right)
        }
        (Expr::Any(_, y), Node::Any(common, entries)) => {
            completes(y, common) || some_entry_completes(y, entries)
        }
        (Expr::Every(_, y), Node::Every(common, entries)) => {
            completes(y, common) && each_entry_completes(y, entries)
        }
        (Expr::Sync(_, y), Node::Sync(common, entries)) => {
            completes(y, common) && each_entry_completes(y, entries)
        }
        (Expr::All(_, y), Node::All(maps)) => accepts_empty(y) && some_map_completes(y, maps),
        (Expr::Times(number, y), Node::Times(bags)) => some_limited_bag_completes(*number, y, bags),
        _ => false,
    }
}

#[cycle(completes)]
fn some_completes(y: &Expr, items: &[Knot]) -> bool
    ensures { result ≡ list_any (is_final (form_of y.now)) (items_of (listed items.now)) }
{
    for item in items {
        if completes(y, item) {
            return true;
        }
    }
    false
}

#[cycle(completes)]
fn each_completes(y: &Expr, items: &[Knot]) -> bool
    ensures { result ≡ list_all (is_final (form_of y.now)) (items_of (listed items.now)) }
{
    for item in items {
        if !completes(y, item) {
            return false;
        }
    }
    true
}

#[cycle(completes)]
fn pair_completes(y: &Expr, z: &Expr, pair: &Pair) -> bool
    ensures { result ≡ (is_final (form_of y.now) pair.now.first && is_final (form_of z.now)
        pair.now.second) }
{
    completes(y, &pair.first) && completes(z, &pair.second)
}

#[cycle(completes)]
fn some_pair_completes(y: &Expr, z: &Expr, pairs: &[Pair]) -> bool
    ensures { result
        ≡ list_any
        (λ p. is_final (form_of y.now) (first_part p) && is_final (form_of z.now) (second_part p))
        (items_of (listed (map plain_pair pairs.now))) }
{
    for pair in pairs {
        if pair_completes(y, z, pair) {
            return true;
        }
    }
    false
}

#[cycle(completes)]
fn some_bag_completes(y: &Expr, bags: &[Bag]) -> bool
    ensures { result ≡ list_any (λ b. list_all (is_final (form_of y.now)) (items_of (first_part b)))
        (items_of (listed (map plain_bag bags.now))) }
{
    for bag in bags {
        if each_completes(y, &bag.items) {
            return true;
        }
    }
    false
}

/// Each run completes, and so does one that hasn't begun, unless there are as many as are wanted.
#[cycle(completes)]
fn limited_bag_completes(number: u8, y: &Expr, bag: &Bag) -> bool
    ensures { result
        ≡ (list_all (is_final (form_of y.now)) (items_of (listed bag.now.items.items))
        && ((length (items_of (listed bag.now.items.items)) == number)
        || accepts_empty (form_of y.now))) }
{
    each_completes(y, &bag.items) && (bag.items.len() == usize::from(number) || accepts_empty(y))
}

#[cycle(completes)]
fn some_limited_bag_completes(number: u8, y: &Expr, bags: &[Bag]) -> bool
    ensures { result
        ≡ list_any
        (λ b. list_all (is_final (form_of y.now)) (items_of (first_part b))
        && ((length (items_of (first_part b)) == number) || accepts_empty (form_of y.now)))
        (items_of (listed (map plain_bag bags.now))) }
{
    for bag in bags {
        if limited_bag_completes(number, y, bag) {
            return true;
        }
    }
    false
}

#[cycle(completes)]
fn some_entry_completes(y: &Expr, entries: &Entries) -> bool
    ensures { result
        ≡ list_any (λ x. is_final (form_of y.now) (first_part x))
        (items_of (plain_entries entries.now)) }
{
    for entry in entries.iter() {
        if completes(y, &entry.1) {
            return true;
        }
    }
    false
}

#[cycle(completes)]
fn each_entry_completes(y: &Expr, entries: &Entries) -> bool
    ensures { result
        ≡ list_all (λ x. is_final (form_of y.now) (first_part x))
        (items_of (plain_entries entries.now)) }
{
    for entry in entries.iter() {
        if !completes(y, &entry.1) {
            return false;
        }
    }
    true
}

#[cycle(completes)]
fn some_map_completes(y: &Expr, maps: &[Map]) -> bool
    ensures { result ≡ list_any (λ m. list_all (λ x. is_final (form_of y.now) (first_part x))
        (items_of (first_part m))) (items_of (listed (map plain_map maps.now))) }
{
    for map in maps {
        if each_entry_completes(y, &map.entries) {
            return true;
        }
    }
    false
}
