//! State trees.

ghost use Rattle.std.specs.Prelude.{◌≡◌, ◌≤◌, ◌^◌, IfOk};
ghost use Rattle.ix_tree.specs.Plain.{is_dead};
ghost use Rattle.ix_tree.specs.Size.{size_of};

use crate::node::Knot;
use std::alloc::{AllocError, Global};
use std::marker::Model;

/// The state of an expression after a word. Contracts see it as a plain tree.
#[derive(Drop)]
pub struct Tree {
    knot: Knot,
}

impl Model for Tree {
    ghost use Rattle.ix_tree.specs.Plain.{Plain};
    ghost use Rattle.ix_tree.specs.lemmas.PlainCode.{plain_code};

    ghost Value = { Plain };

    ghost coded = { plain_code };

    ghost view = { λ t. t.knot };
}

impl Tree {
    /// The tree of a knot.
    pub fn of(knot: Knot) -> Tree
        ensures { result ≡ knot }
    {
        Tree { knot }
    }

    /// The knot of the tree.
    pub fn knot(&self) -> &Knot
        ensures { result.now ≡ self.now }
    {
        &self.knot
    }

    /// The Size of the tree, which is at most 2^32. Takes no memory.
    pub fn size(&self) -> usize
        requires { size_of self.now ≤ 2 ^ 32 }
        ensures { result ≡ size_of self.now }
    {
        self.knot.size()
    }

    /// Whether the word is not partial.
    pub fn is_dead(&self) -> bool
        ensures { result ≡ is_dead self.now }
    {
        self.knot.is_dead()
    }

    /// An equal tree.
    pub fn copy(&self, _alloc: Global) -> Result<Tree, AllocError>
        ensures { IfOk result (λ t. t ≡ self.now) }
    {
        Ok(Tree {
            knot: self.knot.share()?,
        })
    }
}
