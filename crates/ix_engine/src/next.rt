//! A prepared action.

use ix_tree::Tree;
use ix_values::Action;

/// A prepared action, with the tree of the history extended by it.
#[derive(Drop)]
pub struct Next {
    /// The action that was asked for.
    pub action: Action,
    /// The tree of the history extended by the action.
    pub tree: Tree,
}
