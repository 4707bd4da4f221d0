//! The syntax faults of a text.

/// A syntax fault that is met at a token or at the end of the text.
#[derive(Clone, Copy, Debug, PartialEq, Eq)]
pub(crate) enum Fault {
    /// A byte that begins no token.
    NoToken,
    /// Where an operand is wanted: `times` with no word behind it, or a quantifier's word with no
    /// parameter behind it.
    Reserved,
    /// The word behind `times`, where it is no number from 2 to 64 in decimal.
    NoNumber,
    /// The comma after a fourth argument.
    FifthArgument,
    /// A token with which no text could go on.
    Unexpected,
    /// A word, or a parameter without its `$`, of more than 32 bytes.
    LongName,
    /// A parenthesis, a prefix or a quantifier's word that opens the 65th level.
    TooDeep,
    /// The token of the 513th node.
    TooManyNodes,
    /// The end of a text that isn't whole.
    Ended,
}
