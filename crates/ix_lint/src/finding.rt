//! What can be found.

use ix_values::{Name, Value};

/// Something that looks wrong at a node.
#[derive(Clone, Copy, Debug)]
pub struct Finding {
    /// The number of the node, in pre-order from 0: a node, then its left operand, then its right.
    pub node: usize,
    pub kind: FindingKind,
}

/// What looks wrong.
#[derive(Clone, Copy, Debug)]
pub enum FindingKind {
    /// The node is the first atom with this name and this number of arguments, and most atoms of
    /// this name have another number (of equally many numbers the one that comes first), at first
    /// the atom at the node `first`.
    Counts {
        name: Name,
        number: usize,
        most: usize,
        first: usize,
    },
    /// No word is complete in the node, by its form, and no node above it is such a one.
    Never,
    /// The node is an `all`, and two of its values can own one action: by the atom at the node
    /// `first` and by that at the node `second`, which can be the same.
    Owners {
        first: usize,
        second: usize,
    },
    /// No atom below the quantifier names its parameter.
    Unused {
        parameter: Name,
    },
    /// The atom has this fixed value, and a parameter in scope has it as its name.
    Value {
        value: Value,
    },
    /// One side of the `&` has an atom with this name and this number of arguments, and the other
    /// has none. It is the first such atom.
    Apart {
        name: Name,
        number: usize,
    },
    /// Each value that was touched stays in the state of the `all` or the `sync`, because what is
    /// finished can't begin again.
    Keeps,
}
