//! Operators, prefixes and the words of quantifiers.

/// A binary operator.
#[derive(Clone, Copy, Debug, PartialEq, Eq)]
pub(crate) enum Operator {
    Or,
    And,
    Couple,
    Par,
    Seq,
}

/// A prefix of one byte.
#[derive(Clone, Copy, Debug, PartialEq, Eq)]
pub(crate) enum Prefix {
    Opt,
    Star,
    ParStar,
}

#[derive(Clone, Copy, Debug, PartialEq, Eq)]
pub(crate) enum Quantifier {
    Any,
    Every,
    Sync,
    All,
}

/// What a word is in the place of an operand.
#[derive(Clone, Copy, Debug, PartialEq, Eq)]
pub(crate) enum WordClass {
    /// The word of a quantifier.
    Quantifies(Quantifier),
    /// The word `times`, whose number and operand follow.
    Counts,
    /// A word that begins with a letter and isn't reserved.
    Names,
    /// A word that begins with a digit or `_`.
    Other,
}

/// What follows a word: whether the next token is a word, a parameter, or neither.
#[derive(Clone, Copy, Debug, PartialEq, Eq)]
pub(crate) enum Follower {
    Word,
    Param,
    Neither,
}
