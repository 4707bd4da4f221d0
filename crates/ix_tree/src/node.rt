//! State trees in memory: nodes, the knots that share them, and their parts.

ghost use Rattle.std.specs.Prelude.{◌≡◌, ◌≤◌, ◌^◌, IfOk};
ghost use Rattle.ix_tree.specs.Plain.{is_dead, is_done};
ghost use Rattle.ix_tree.specs.inside.PlainNode.{plain_node};
ghost use Rattle.ix_tree.specs.Size.{size_of};

use crate::entries::Entries;
use std::alloc::{AllocError, Global};
use std::marker::Model;
use std::rc::Rc;

/// The state of an expression after a word, one node of it.
#[cycle(tree)]
#[derive(Drop)]
pub enum Node {
    /// The word is not partial.
    Dead,
    /// An atom before its action.
    Start,
    /// The word is complete and no action may come: an atom after its action, or another state
    /// that is spent.
    Done,
    /// `?y`: whether the word is empty, and the state of y.
    Opt(bool, Knot),
    /// `y - z`: the state of y, with Dead in place of Done; whether an alternative for z is Done;
    /// and the other alternatives for z.
    Seq(Knot, bool, Vec<Knot>),
    /// `*y`: whether the word is a concatenation of complete words, and the
    /// alternatives for the last part.
    Star(bool, Vec<Knot>),
    /// `y + z`: the alternatives, one for each split.
    Par(Vec<Pair>),
    /// `#y`: the alternatives, each a bag of states of y.
    ParStar(Vec<Bag>),
    /// `y | z`: both states.
    Or(Knot, Knot),
    /// `y & z`: both states.
    And(Knot, Knot),
    /// `y @ z`: both states, each after its own actions.
    Couple(Knot, Knot),
    /// `any $p y`: the common state, and the state of each value that differs from it.
    Any(Knot, Entries),
    /// `every $p y`: the common state, and the state of each value that differs from it.
    Every(Knot, Entries),
    /// `sync $p y`: the common state, and the state of each value that differs from it.
    Sync(Knot, Entries),
    /// `all $p y`: the alternatives, each a map from values to states of y.
    All(Vec<Map>),
    /// `times N y`: the alternatives, each a bag of states of y, one for each run that has begun.
    Times(Vec<Bag>),
}

/// The states of the two sides of one split.
#[cycle(tree)]
#[derive(Drop)]
pub struct Pair {
    /// The state of the left side.
    pub first: Knot,
    /// The state of the right side.
    pub second: Knot,
}

/// The states of the runs that go on side by side, in ascending order.
#[cycle(tree)]
#[derive(Drop)]
pub struct Bag {
    /// The states, repeats kept.
    pub items: Vec<Knot>,
}

/// The states of the values that have begun, by value.
#[cycle(tree)]
#[derive(Drop)]
pub struct Map {
    /// The states, each beside its value.
    pub entries: Entries,
}

/// A node that may be shared, with its Size. Contracts see the plain tree of the node.
#[cycle(tree)]
#[derive(Drop)]
pub struct Knot {
    size: usize,
    node: Rc<Node>,
}

impl Model for Knot {
    ghost use Rattle.std.specs.Prelude.{◌≡◌, ◌*◌, ◌≤◌, ◌^◌};
    ghost use Rattle.ix_tree.specs.Plain.{Plain};
    ghost use Rattle.ix_tree.specs.lemmas.PlainCode.{plain_code};

    ghost Value = { Plain };

    ghost coded = { plain_code };

    ghost use Rattle.ix_tree.specs.inside.PlainNode.{plain_node};
    ghost use Rattle.ix_tree.specs.Size.{size_of};

    ghost view = { λ k. plain_node k.node.value };

    // The kept number is the Size of the node.
    ghost invariant = { λ k. (k.size ≡ size_of (plain_node k.node.value)) × (k.size ≤ 2 ^ 32) };

    ghost size = { λ x. 2 * size_of x };

    ghost use Rattle.ix_tree.specs.lemmas.Falls.{depth_le-size};

    ghost size_decreases = { λ k h. depth_le-size k.node.value };
}

impl Knot {
    /// The knot of a node whose Size is at most 2^32.
    pub fn new(alloc: Global, node: Node) -> Result<Knot, AllocError>
        requires { size_of (plain_node node) ≤ 2 ^ 32 }
        ensures { IfOk result (λ k. k ≡ plain_node node) }
    {
        let size = node.size();
        Knot::sized(alloc, node, size)
    }

    /// The knot of a node whose Size, at most 2^32, is known.
    pub fn sized(alloc: Global, node: Node, size: usize) -> Result<Knot, AllocError>
        requires size { size ≡ size_of (plain_node node) }
        requires most { size ≤ 2 ^ 32 }
        ensures { IfOk result (λ k. k ≡ plain_node node) }
    {
        match Rc::new(alloc, node) {
            Ok(node) => Ok(Knot { size, node }),
            Err(_) => Err(AllocError),
        }
    }

    /// The node. Takes no memory.
    pub fn node(&self) -> &Node
        ensures { plain_node result.now ≡ self.now }
    {
        &self.node
    }

    /// An equal knot of the same node.
    pub fn share(&self) -> Result<Knot, AllocError>
        ensures { IfOk result (λ k. k ≡ self.now) }
    {
        Ok(Knot {
            size: self.size,
            node: self.node.clone()?,
        })
    }

    /// The Size, which is kept.
    pub fn size(&self) -> usize
        ensures value { result ≡ size_of self.now }
        ensures most { result ≤ 2 ^ 32 }
    {
        self.size
    }

    /// Whether the word is not partial.
    pub fn is_dead(&self) -> bool
        ensures { result ≡ is_dead self.now }
    {
        matches!(self.node(), Node::Dead)
    }

    /// Whether the word is complete and no action may come, as the state tells it.
    pub fn is_done(&self) -> bool
        ensures { result ≡ is_done self.now }
    {
        matches!(self.node(), Node::Done)
    }
}
