//! What is told.

use crate::bindings::Bindings;

/// A part of an expression that refuses an action.
#[derive(Clone, Copy)]
pub struct Part {
    /// The number of its node, in pre-order from 0: a node, then its left operand, then its right.
    pub node: usize,
    /// What the parameters of the quantifiers around it stand for, the outermost first. A parameter
    /// without a value is outside: it stands for each value that neither the history nor the action
    /// has.
    pub bound: Bindings,
}
