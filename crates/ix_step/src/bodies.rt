//! The body of a quantifier, and how far an action reaches in it; the runs of an operand side by
//! side.

use ix_expr::Expr;
use ix_values::Name;

/// The parameter and the body of a quantifier.
#[derive(Clone, Copy)]
pub(crate) struct Body<'a> {
    pub(crate) parameter: &'a Name,
    pub(crate) expr: &'a Expr,
}

/// The operand of `#` or of `times`, and how many runs of it are wanted: of `#` any number.
#[derive(Clone, Copy)]
pub(crate) struct Runs<'a> {
    pub(crate) expr: &'a Expr,
    pub(crate) wanted: Option<u8>,
}

/// Which values' states an action moves, and whether each of them must move.
#[derive(Clone, Copy)]
pub(crate) enum Reach {
    /// All, and it is enough that one does.
    All,
    /// All, and each must.
    Must,
    /// Those under whose value the body has the action in its alphabet, and each must.
    OwnAlphabet,
}
