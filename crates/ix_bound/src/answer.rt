//! The answer of a bound.

/// How large the tree of any word of an expression gets, where the word has so many different
/// values.
#[derive(Clone, Copy, Debug, PartialEq, Eq)]
pub enum Bound {
    /// At most this Size, which is at most 1,000,000.
    Within(u64),
    /// The bound is above 1,000,000.
    Above,
    /// No bound is given, because of the node with this number, counted from 0 in pre-order: 51
    /// where the operands of a `-` or a `+` share a name, 52 where the operand of a `*` isn't
    /// headed, 53 where an `all` isn't keyed, 54 at a `#` or a `times`.
    Refused { code: u8, node: usize },
}
