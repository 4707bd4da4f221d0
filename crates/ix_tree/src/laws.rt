//! The laws of the order, each the contract of a function with an empty body.

ghost use Rattle.std.specs.Prelude.{◌≡◌, ◌↔◌, IsTrue};
ghost use Rattle.ix_tree.specs.Laws.{TreesAreOrdered};
ghost use Rattle.ix_tree.specs.Order.{tree_cmp};
ghost use Rattle.ix_tree.specs.PlainOf.{plain_pair, plain_bag, plain_map};
ghost use Rattle.ix_tree.specs.declared.tree.Tree.{Tree};
ghost use Rattle.ix_tree.specs.declared.node.Knot.{Knot};
ghost use Rattle.ix_tree.specs.declared.node.Pair.{Pair};
ghost use Rattle.ix_tree.specs.declared.node.Bag.{Bag};
ghost use Rattle.ix_tree.specs.declared.node.Map.{Map};

use crate::node::{Bag, Knot, Map, Pair};
use crate::tree::Tree;

/// The order of plain trees is total, and only a tree itself is equal to it.
pub fn trees_are_ordered()
    ensures { TreesAreOrdered }
{}

/// Trees and their parts compare as their plain trees and parts do.
pub fn trees_compare_as_plain_trees()
    ensures trees { (x y : Tree) → ⟦<Tree as Ord>⟧.cmp x y ≡ tree_cmp x y }
    ensures knots { (x y : Knot) → ⟦<Knot as Ord>⟧.cmp x y ≡ tree_cmp x y }
    ensures pairs { (p q : Pair)
        → ⟦<Pair as Ord>⟧.cmp p q ≡ tree_cmp (plain_pair p) (plain_pair q) }
    ensures bags { (b c : Bag) → ⟦<Bag as Ord>⟧.cmp b c ≡ tree_cmp (plain_bag b) (plain_bag c) }
    ensures maps { (m k : Map) → ⟦<Map as Ord>⟧.cmp m k ≡ tree_cmp (plain_map m) (plain_map k) }
{}

/// Trees and their parts are equal exactly where their plain trees and parts are the same.
pub fn equal_trees_are_the_same_plain_tree()
    ensures trees { (x y : Tree) → IsTrue (⟦<Tree as PartialEq>⟧.eq x y) ↔ (x ≡ y) }
    ensures knots { (x y : Knot) → IsTrue (⟦<Knot as PartialEq>⟧.eq x y) ↔ (x ≡ y) }
    ensures pairs { (p q : Pair)
        → IsTrue (⟦<Pair as PartialEq>⟧.eq p q) ↔ (plain_pair p ≡ plain_pair q) }
    ensures bags { (b c : Bag)
        → IsTrue (⟦<Bag as PartialEq>⟧.eq b c) ↔ (plain_bag b ≡ plain_bag c) }
    ensures maps { (m k : Map)
        → IsTrue (⟦<Map as PartialEq>⟧.eq m k) ↔ (plain_map m ≡ plain_map k) }
{}
