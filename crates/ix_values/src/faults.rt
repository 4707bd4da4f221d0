//! Why a text isn't an action's.

ghost use Rattle.std.specs.Prelude.{◌≡◌};
ghost use Rattle.ix_values.specs.inside.Causes.{action_code};

/// A fault of a text that isn't an action's.
///
/// `at` is the greatest number of first bytes of the text that are a prefix of some action's text.
/// `code` is the first that applies of: 4 (too long) where these bytes end in a name or value of 32
/// bytes and a word byte stands behind them; 3 (too many arguments) where they end in a fourth
/// value and `,` stands behind them; 1 (name) where `at` is 0; 5 (trailing) where they are an
/// action's text; 2 (argument) otherwise.
#[derive(Clone, Copy, Debug, PartialEq, Eq)]
pub struct ActionFault {
    pub code: u8,
    pub at: usize,
}

/// Why a text isn't an action's.
#[derive(Clone, Copy)]
pub(crate) enum Cause {
    /// No name stands at the beginning.
    Name,
    /// No value stands behind `(` or `,`, or neither `,` nor `)` behind a value.
    Argument,
    /// A `,` stands behind a fourth value.
    TooManyArguments,
    /// A word byte stands behind a name or value of 32 bytes.
    TooLong,
    /// Bytes stand behind an action's text.
    Trailing,
}

impl Cause {
    fn code(self) -> u8
        ensures { result ≡ action_code self }
    {
        match self {
            Cause::Name => 1,
            Cause::Argument => 2,
            Cause::TooManyArguments => 3,
            Cause::TooLong => 4,
            Cause::Trailing => 5,
        }
    }
}

/// The fault of this cause, with this place.
pub(crate) fn fault(cause: Cause, at: usize) -> ActionFault
    ensures { result ≡ record { code = action_code cause; at = at } }
{
    ActionFault {
        code: cause.code(),
        at,
    }
}
