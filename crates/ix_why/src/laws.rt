//! What the parts that are told claim of words, the contract of a function with an empty body.

ghost use Rattle.ix_why.specs.Laws.{PartsRefuseByThemselves};

/// Each part that is told refuses the action by itself: its subexpression, under what the part
/// binds, is consulted about a word taken from the history, which is partial in it, and with the
/// action isn't. A parameter that is outside stands for each value that neither the history nor the
/// action has.
pub fn parts_refuse_by_themselves()
    ensures { PartsRefuseByThemselves }
{}
