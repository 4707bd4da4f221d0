//! The Size of nodes and of their parts, from the kept Sizes of their knots.

ghost use Rattle.std.specs.Prelude.{◌≡◌, ◌≤◌, ◌^◌, map};
ghost use Rattle.ix_tree.specs.Plain.{listed};
ghost use Rattle.ix_tree.specs.PlainOf.{plain_pair, plain_bag, plain_map, plain_entries};
ghost use Rattle.ix_tree.specs.inside.PlainNode.{plain_node};
ghost use Rattle.ix_tree.specs.Size.{size_of};

use crate::node::{Bag, Knot, Map, Node, Pair};

impl Node {
    /// The Size of the node, which is at most 2^32.
    pub fn size(&self) -> usize
        requires { size_of (plain_node self.now) ≤ 2 ^ 32 }
        ensures { result ≡ size_of (plain_node self.now) }
    {
        match self {
            Node::Dead | Node::Start | Node::Done => 1,
            Node::Opt(_, x) => 1 + x.size(),
            Node::Seq(x, _, xs) => 1 + x.size() + knots_size(xs),
            Node::Star(_, xs) => 1 + knots_size(xs),
            Node::Par(pairs) => 1 + pairs_size(pairs),
            Node::ParStar(bags) | Node::Times(bags) => 1 + bags_size(bags),
            Node::Or(x, y) | Node::And(x, y) | Node::Couple(x, y) => 1 + x.size() + y.size(),
            Node::Any(x, entries) | Node::Every(x, entries) | Node::Sync(x, entries) => {
                1 + x.size() + entries.size()
            }
            Node::All(maps) => 1 + maps_size(maps),
        }
    }
}

impl Pair {
    /// The Size of the pair: 1 and the Sizes of its trees.
    pub fn size(&self) -> usize
        requires { size_of (plain_pair self.now) ≤ 2 ^ 32 }
        ensures { result ≡ size_of (plain_pair self.now) }
    {
        1 + self.first.size() + self.second.size()
    }
}

impl Bag {
    /// The Size of the bag: 1 and the Sizes of its trees.
    pub fn size(&self) -> usize
        requires { size_of (plain_bag self.now) ≤ 2 ^ 32 }
        ensures { result ≡ size_of (plain_bag self.now) }
    {
        1 + knots_size(&self.items)
    }
}

impl Map {
    /// The Size of the map: 1, and 1 and the Size of its tree for each entry.
    pub fn size(&self) -> usize
        requires { size_of (plain_map self.now) ≤ 2 ^ 32 }
        ensures { result ≡ size_of (plain_map self.now) }
    {
        1 + self.entries.size()
    }
}

fn knots_size(knots: &[Knot]) -> usize
    requires { size_of (listed knots.now) ≤ 2 ^ 32 }
    ensures { result ≡ size_of (listed knots.now) }
{
    let mut sum = 0;
    for knot in knots {
        sum += knot.size();
    }
    sum
}

fn pairs_size(pairs: &[Pair]) -> usize
    requires { size_of (listed (map plain_pair pairs.now)) ≤ 2 ^ 32 }
    ensures { result ≡ size_of (listed (map plain_pair pairs.now)) }
{
    let mut sum = 0;
    for pair in pairs {
        sum += pair.size();
    }
    sum
}

fn bags_size(bags: &[Bag]) -> usize
    requires { size_of (listed (map plain_bag bags.now)) ≤ 2 ^ 32 }
    ensures { result ≡ size_of (listed (map plain_bag bags.now)) }
{
    let mut sum = 0;
    for bag in bags {
        sum += bag.size();
    }
    sum
}

fn maps_size(maps: &[Map]) -> usize
    requires { size_of (listed (map plain_map maps.now)) ≤ 2 ^ 32 }
    ensures { result ≡ size_of (listed (map plain_map maps.now)) }
{
    let mut sum = 0;
    for map in maps {
        sum += map.size();
    }
    sum
}
