//! What holds of the rounds of a wire, and of what comes on it.
ghost use Rattle.ix_many.specs.Pieces.{PiecesFit};
ghost use Rattle.ix_many.specs.Rounds.{NobodyIsPassedOver};

/// While a place wants a turn, at most 63 turns are had by others.
pub fn nobody_is_passed_over()
    ensures { NobodyIsPassedOver }
{}

/// What is received on a connection, at least one byte that fits the buffer or the end, is an event
/// that a site may give.
pub fn pieces_fit()
    ensures { PiecesFit }
{}
