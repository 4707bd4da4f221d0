//! The order of nodes and of their parts.

ghost use Rattle.std.specs.Prelude.{◌≡◌, map};
ghost use Rattle.ix_tree.specs.Plain.{listed, or, and, couple, any, every, sync};
ghost use Rattle.ix_tree.specs.PlainOf.{plain_pair, plain_bag, plain_map, plain_entry};
ghost use Rattle.ix_tree.specs.PlainOf.{plain_entries};
ghost use Rattle.ix_tree.specs.inside.PlainNode.{plain_node};
ghost use Rattle.ix_tree.specs.Order.{tree_cmp, place};
ghost use Rattle.std.specs.Ordering.{eq_by_cmp, as_partial_cmp, on};
ghost use Rattle.std.specs.Cmp.{eq_by_cmp_equiv, partial_equiv_from_equiv};
ghost use Rattle.std.specs.Cmp.{partial_order_from_total, on_total};
ghost use Rattle.ix_tree.specs.lemmas.TreeOrder.{tree_cmp-total};
ghost use Rattle.std.proofs.Common.{refl};

use crate::entries::Entries;
use crate::node::{Bag, Knot, Map, Node, Pair};
use crate::tree::Tree;
use ix_values::Value;
use std::cmp::Ordering;

impl PartialEq for Knot {
    ghost eq = { eq_by_cmp tree_cmp };

    ghost laws = { partial_equiv_from_equiv (eq_by_cmp_equiv tree_cmp-total) };

    fn eq(&self, other: &Knot) -> bool {
        self.size() == other.size() && compare(self, other) == Ordering::Equal
    }
}

impl Eq for Knot {
    ghost laws = { eq_by_cmp_equiv tree_cmp-total };
}

impl PartialOrd for Knot {
    ghost partial_cmp = { as_partial_cmp tree_cmp };

    ghost laws = { partial_order_from_total tree_cmp-total };

    fn partial_cmp(&self, other: &Knot) -> Option<Ordering> {
        Some(compare(self, other))
    }
}

impl Ord for Knot {
    ghost cmp = { tree_cmp };

    ghost total = { tree_cmp-total };

    ghost matches_partial_cmp = { λ x y. refl };

    ghost matches_eq = { λ x y. refl };

    fn cmp(&self, other: &Knot) -> Ordering {
        compare(self, other)
    }
}

impl PartialEq for Tree {
    ghost eq = { eq_by_cmp tree_cmp };

    ghost laws = { partial_equiv_from_equiv (eq_by_cmp_equiv tree_cmp-total) };

    fn eq(&self, other: &Tree) -> bool {
        compare(self.knot(), other.knot()) == Ordering::Equal
    }
}

impl Eq for Tree {
    ghost laws = { eq_by_cmp_equiv tree_cmp-total };
}

impl PartialOrd for Tree {
    ghost partial_cmp = { as_partial_cmp tree_cmp };

    ghost laws = { partial_order_from_total tree_cmp-total };

    fn partial_cmp(&self, other: &Tree) -> Option<Ordering> {
        Some(compare(self.knot(), other.knot()))
    }
}

impl Ord for Tree {
    ghost cmp = { tree_cmp };

    ghost total = { tree_cmp-total };

    ghost matches_partial_cmp = { λ x y. refl };

    ghost matches_eq = { λ x y. refl };

    fn cmp(&self, other: &Tree) -> Ordering {
        compare(self.knot(), other.knot())
    }
}

impl PartialEq for Pair {
    ghost eq = { eq_by_cmp (on plain_pair tree_cmp) };

    ghost laws = { partial_equiv_from_equiv
        (eq_by_cmp_equiv (on_total plain_pair tree_cmp-total)) };

    fn eq(&self, other: &Pair) -> bool {
        compare_pair(self, other) == Ordering::Equal
    }
}

impl Eq for Pair {
    ghost laws = { eq_by_cmp_equiv (on_total plain_pair tree_cmp-total) };
}

impl PartialOrd for Pair {
    ghost partial_cmp = { as_partial_cmp (on plain_pair tree_cmp) };

    ghost laws = { partial_order_from_total (on_total plain_pair tree_cmp-total) };

    fn partial_cmp(&self, other: &Pair) -> Option<Ordering> {
        Some(compare_pair(self, other))
    }
}

impl Ord for Pair {
    ghost cmp = { on plain_pair tree_cmp };

    ghost total = { on_total plain_pair tree_cmp-total };

    ghost matches_partial_cmp = { λ x y. refl };

    ghost matches_eq = { λ x y. refl };

    fn cmp(&self, other: &Pair) -> Ordering {
        compare_pair(self, other)
    }
}

impl PartialEq for Bag {
    ghost eq = { eq_by_cmp (on plain_bag tree_cmp) };

    ghost laws = { partial_equiv_from_equiv (eq_by_cmp_equiv (on_total plain_bag tree_cmp-total)) };

    fn eq(&self, other: &Bag) -> bool {
        compare_bag(self, other) == Ordering::Equal
    }
}

impl Eq for Bag {
    ghost laws = { eq_by_cmp_equiv (on_total plain_bag tree_cmp-total) };
}

impl PartialOrd for Bag {
    ghost partial_cmp = { as_partial_cmp (on plain_bag tree_cmp) };

    ghost laws = { partial_order_from_total (on_total plain_bag tree_cmp-total) };

    fn partial_cmp(&self, other: &Bag) -> Option<Ordering> {
        Some(compare_bag(self, other))
    }
}

impl Ord for Bag {
    ghost cmp = { on plain_bag tree_cmp };

    ghost total = { on_total plain_bag tree_cmp-total };

    ghost matches_partial_cmp = { λ x y. refl };

    ghost matches_eq = { λ x y. refl };

    fn cmp(&self, other: &Bag) -> Ordering {
        compare_bag(self, other)
    }
}

impl PartialEq for Map {
    ghost eq = { eq_by_cmp (on plain_map tree_cmp) };

    ghost laws = { partial_equiv_from_equiv (eq_by_cmp_equiv (on_total plain_map tree_cmp-total)) };

    fn eq(&self, other: &Map) -> bool {
        compare_map(self, other) == Ordering::Equal
    }
}

impl Eq for Map {
    ghost laws = { eq_by_cmp_equiv (on_total plain_map tree_cmp-total) };
}

impl PartialOrd for Map {
    ghost partial_cmp = { as_partial_cmp (on plain_map tree_cmp) };

    ghost laws = { partial_order_from_total (on_total plain_map tree_cmp-total) };

    fn partial_cmp(&self, other: &Map) -> Option<Ordering> {
        Some(compare_map(self, other))
    }
}

impl Ord for Map {
    ghost cmp = { on plain_map tree_cmp };

    ghost total = { on_total plain_map tree_cmp-total };

    ghost matches_partial_cmp = { λ x y. refl };

    ghost matches_eq = { λ x y. refl };

    fn cmp(&self, other: &Map) -> Ordering {
        compare_map(self, other)
    }
}

/// The place of the node's form among the forms.
fn place(node: &Node) -> u8
    ensures { result ≡ place (plain_node node.now) }
{
    match node {
        Node::Dead => 0,
        Node::Start => 1,
        Node::Done => 2,
        Node::Opt(_, _) => 3,
        Node::Seq(_, _, _) => 4,
        Node::Star(_, _) => 5,
        Node::Par(_) => 6,
        Node::ParStar(_) => 7,
        Node::Or(_, _) => 8,
        Node::And(_, _) => 9,
        Node::Couple(_, _) => 10,
        Node::Any(_, _) => 11,
        Node::Every(_, _) => 12,
        Node::Sync(_, _) => 13,
        Node::All(_) => 14,
        Node::Times(_) => 15,
    }
}

/// By form, then part by part.
#[cycle(compare)]
fn compare(left: &Knot, right: &Knot) -> Ordering
    ensures { result ≡ tree_cmp left.now right.now }
{
    let places = place(left.node()).cmp(&place(right.node()));
    match left.node() {
        Node::Dead | Node::Start | Node::Done => places,
        Node::Opt(a, x) => match right.node() {
            Node::Opt(b, y) => a.cmp(b).then(compare(x, y)),
            _ => places,
        },
        Node::Seq(x, a, xs) => match right.node() {
            Node::Seq(y, b, ys) => compare(x, y).then(a.cmp(b)).then(compare_knots(xs, ys)),
            _ => places,
        },
        Node::Star(a, xs) => match right.node() {
            Node::Star(b, ys) => a.cmp(b).then(compare_knots(xs, ys)),
            _ => places,
        },
        Node::Par(xs) => match right.node() {
            Node::Par(ys) => compare_pairs(xs, ys),
            _ => places,
        },
        Node::ParStar(xs) => match right.node() {
            Node::ParStar(ys) => compare_bags(xs, ys),
            _ => places,
        },
        Node::All(xs) => match right.node() {
            Node::All(ys) => compare_maps(xs, ys),
            _ => places,
        },
        Node::Times(xs) => match right.node() {
            Node::Times(ys) => compare_bags(xs, ys),
            _ => places,
        },
        Node::Or(x, z) => compare_or(x, z, right.node()),
        Node::And(x, z) => compare_and(x, z, right.node()),
        Node::Couple(x, z) => compare_couple(x, z, right.node()),
        Node::Any(x, xs) => compare_any(x, xs, right.node()),
        Node::Every(x, xs) => compare_every(x, xs, right.node()),
        Node::Sync(x, xs) => compare_sync(x, xs, right.node()),
    }
}

#[cycle(compare)]
fn compare_or(x: &Knot, z: &Knot, right: &Node) -> Ordering
    ensures { result ≡ tree_cmp (or x.now z.now) (plain_node right.now) }
{
    match right {
        Node::Or(y, w) => compare(x, y).then(compare(z, w)),
        _ => 8_u8.cmp(&place(right)),
    }
}

#[cycle(compare)]
fn compare_and(x: &Knot, z: &Knot, right: &Node) -> Ordering
    ensures { result ≡ tree_cmp (and x.now z.now) (plain_node right.now) }
{
    match right {
        Node::And(y, w) => compare(x, y).then(compare(z, w)),
        _ => 9_u8.cmp(&place(right)),
    }
}

#[cycle(compare)]
fn compare_couple(x: &Knot, z: &Knot, right: &Node) -> Ordering
    ensures { result ≡ tree_cmp (couple x.now z.now) (plain_node right.now) }
{
    match right {
        Node::Couple(y, w) => compare(x, y).then(compare(z, w)),
        _ => 10_u8.cmp(&place(right)),
    }
}

#[cycle(compare)]
fn compare_any(x: &Knot, xs: &Entries, right: &Node) -> Ordering
    ensures { result ≡ tree_cmp (any x.now (plain_entries xs.now)) (plain_node right.now) }
{
    match right {
        Node::Any(y, ys) => compare(x, y).then(compare_entries(xs, ys)),
        _ => 11_u8.cmp(&place(right)),
    }
}

#[cycle(compare)]
fn compare_every(x: &Knot, xs: &Entries, right: &Node) -> Ordering
    ensures { result ≡ tree_cmp (every x.now (plain_entries xs.now)) (plain_node right.now) }
{
    match right {
        Node::Every(y, ys) => compare(x, y).then(compare_entries(xs, ys)),
        _ => 12_u8.cmp(&place(right)),
    }
}

#[cycle(compare)]
fn compare_sync(x: &Knot, xs: &Entries, right: &Node) -> Ordering
    ensures { result ≡ tree_cmp (sync x.now (plain_entries xs.now)) (plain_node right.now) }
{
    match right {
        Node::Sync(y, ys) => compare(x, y).then(compare_entries(xs, ys)),
        _ => 13_u8.cmp(&place(right)),
    }
}

/// By the first side, then by the second.
#[cycle(compare)]
fn compare_pair(left: &Pair, right: &Pair) -> Ordering
    ensures { result ≡ tree_cmp (plain_pair left.now) (plain_pair right.now) }
{
    compare(&left.first, &right.first).then(compare(&left.second, &right.second))
}

#[cycle(compare)]
fn compare_bag(left: &Bag, right: &Bag) -> Ordering
    ensures { result ≡ tree_cmp (plain_bag left.now) (plain_bag right.now) }
{
    compare_knots(&left.items, &right.items)
}

#[cycle(compare)]
fn compare_map(left: &Map, right: &Map) -> Ordering
    ensures { result ≡ tree_cmp (plain_map left.now) (plain_map right.now) }
{
    compare_entries(&left.entries, &right.entries)
}

/// By the value, then by its state.
#[cycle(compare)]
fn compare_entry(left: &(Value, Knot), right: &(Value, Knot)) -> Ordering
    ensures { result ≡ tree_cmp (plain_entry left.now) (plain_entry right.now) }
{
    left.0.cmp(&right.0).then(compare(&left.1, &right.1))
}

#[cycle(compare)]
fn compare_knots(left: &[Knot], right: &[Knot]) -> Ordering
    ensures { result ≡ tree_cmp (listed left.now) (listed right.now) }
{
    for i in 0..left.len().min(right.len()) {
        let order = compare(&left[i], &right[i]);
        if order != Ordering::Equal {
            return order;
        }
    }
    left.len().cmp(&right.len())
}

#[cycle(compare)]
fn compare_pairs(left: &[Pair], right: &[Pair]) -> Ordering
    ensures { result
        ≡ tree_cmp (listed (map plain_pair left.now)) (listed (map plain_pair right.now)) }
{
    for i in 0..left.len().min(right.len()) {
        let order = compare_pair(&left[i], &right[i]);
        if order != Ordering::Equal {
            return order;
        }
    }
    left.len().cmp(&right.len())
}

#[cycle(compare)]
fn compare_bags(left: &[Bag], right: &[Bag]) -> Ordering
    ensures { result
        ≡ tree_cmp (listed (map plain_bag left.now)) (listed (map plain_bag right.now)) }
{
    for i in 0..left.len().min(right.len()) {
        let order = compare_bag(&left[i], &right[i]);
        if order != Ordering::Equal {
            return order;
        }
    }
    left.len().cmp(&right.len())
}

#[cycle(compare)]
fn compare_maps(left: &[Map], right: &[Map]) -> Ordering
    ensures { result
        ≡ tree_cmp (listed (map plain_map left.now)) (listed (map plain_map right.now)) }
{
    for i in 0..left.len().min(right.len()) {
        let order = compare_map(&left[i], &right[i]);
        if order != Ordering::Equal {
            return order;
        }
    }
    left.len().cmp(&right.len())
}

/// By their first entries that differ; a list stands before a longer one that begins alike.
#[cycle(compare)]
fn compare_entries(left: &Entries, right: &Entries) -> Ordering
    ensures { result ≡ tree_cmp (plain_entries left.now) (plain_entries right.now) }
{
    let mut others = right.iter();
    for entry in left.iter() {
        let Some(other) = others.next() else {
            return Ordering::Greater;
        };
        let order = compare_entry(entry, other);
        if order != Ordering::Equal {
            return order;
        }
    }
    match others.next() {
        Some(_) => Ordering::Less,
        None => Ordering::Equal,
    }
}
