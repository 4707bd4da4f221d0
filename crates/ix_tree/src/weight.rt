//! What trees and their parts weigh among alternatives.

use crate::node::{Bag, Knot, Map, Pair};
use crate::tree::Tree;
use ix_alts::Weight;

impl Weight for Knot {
    ghost use Rattle.ix_tree.specs.Size.{size_of};
    ghost use Rattle.ix_tree.specs.lemmas.Weights.{equal_trees_weigh_alike};

    ghost weight = { size_of };

    ghost equal_items_weigh_alike = { equal_trees_weigh_alike };

    fn weight(&self) -> usize {
        self.size()
    }
}

impl Weight for Tree {
    ghost use Rattle.ix_tree.specs.Size.{size_of};
    ghost use Rattle.ix_tree.specs.lemmas.Weights.{equal_trees_weigh_alike};

    ghost weight = { size_of };

    ghost equal_items_weigh_alike = { equal_trees_weigh_alike };

    fn weight(&self) -> usize {
        self.size()
    }
}

impl Weight for Pair {
    ghost use Rattle.ix_tree.specs.Size.{size_of};
    ghost use Rattle.ix_tree.specs.PlainOf.{plain_pair};
    ghost use Rattle.ix_tree.specs.lemmas.Weights.{equal_trees_weigh_alike};

    ghost weight = { λ p. size_of (plain_pair p) };

    ghost equal_items_weigh_alike = { λ p q.
        equal_trees_weigh_alike (plain_pair p) (plain_pair q) };

    fn weight(&self) -> usize {
        self.size()
    }
}

impl Weight for Bag {
    ghost use Rattle.ix_tree.specs.Size.{size_of};
    ghost use Rattle.ix_tree.specs.PlainOf.{plain_bag};
    ghost use Rattle.ix_tree.specs.lemmas.Weights.{equal_trees_weigh_alike};

    ghost weight = { λ b. size_of (plain_bag b) };

    ghost equal_items_weigh_alike = { λ b c. equal_trees_weigh_alike (plain_bag b) (plain_bag c) };

    fn weight(&self) -> usize {
        self.size()
    }
}

impl Weight for Map {
    ghost use Rattle.ix_tree.specs.Size.{size_of};
    ghost use Rattle.ix_tree.specs.PlainOf.{plain_map};
    ghost use Rattle.ix_tree.specs.lemmas.Weights.{equal_trees_weigh_alike};

    ghost weight = { λ m. size_of (plain_map m) };

    ghost equal_items_weigh_alike = { λ m k. equal_trees_weigh_alike (plain_map m) (plain_map k) };

    fn weight(&self) -> usize {
        self.size()
    }
}
