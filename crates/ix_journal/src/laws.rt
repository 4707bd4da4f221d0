//! Laws of journals.

ghost use Rattle.ix_journal.specs.Laws.{OneKind, OneJournal, OneList, OneHistory, OneNumber};
ghost use Rattle.ix_journal.specs.Laws.{OneOutcome};
ghost use Rattle.ix_journal.specs.Laws.{HoldsNone, HoldsMore, LendsTheHistory};
ghost use Rattle.ix_journal.specs.Laws.{OpenedIsEmpty, Begun, GateIsNear, IgnoresTheRest, Appended};
ghost use Rattle.ix_journal.specs.Laws.{EnoughBytes, PassesTheHistory, PiecesDoNotMatter};
ghost use Rattle.ix_journal.specs.Laws.{RenewedIsAJournal};

/// A file has one kind at most, with one text and one first gate.
pub fn one_kind()
    ensures { OneKind }
{}

/// A journal has one text, one list of records and one first closed gate.
pub fn one_journal()
    ensures { OneJournal }
{}

/// A file keeps one list of records at most.
pub fn one_list()
    ensures { OneList }
{}

/// A file recovers one history at most.
pub fn one_history()
    ensures { OneHistory }
{}

/// A file holds one number of boots at most, and stands for one thing besides its own records.
pub fn one_number()
    ensures { OneNumber }
{}

/// A file that recovers a history is neither damaged nor of too many records, and one that is
/// damaged is so at one place, and isn't of too many records.
pub fn one_outcome()
    ensures { OneOutcome }
{}

/// No records stand in front of the first gate.
pub fn holds_none()
    ensures { HoldsNone }
{}

/// An open gate and the whole record behind it, where it may stand there, make one record more.
pub fn holds_more()
    ensures { HoldsMore }
{}

/// The texts that are lent from the first gate of a ready file on are those of records, which it
/// keeps unless they are too many.
pub fn lends_the_history()
    ensures { LendsTheHistory }
{}

/// A header and a closed gate are a journal without records once the head gate is open.
pub fn opened()
    ensures { OpenedIsEmpty }
{}

/// Whatever its head gate holds, a header and one closed gate are an unfinished or unopened
/// journal, or one without records.
pub fn begun()
    ensures { Begun }
{}

/// The first closed gate stands at most 65,592 bytes from the begin, and 209 for each record of an
/// action and 27 for each of a boot.
pub fn gate_is_near()
    ensures { GateIsNear }
{}

/// What stands behind the first closed gate means nothing.
pub fn ignores_the_rest()
    ensures { IgnoresTheRest }
{}

/// A record that may stand there and one closed gate are the next record once the gate in front of
/// them is open.
pub fn appended()
    ensures { Appended }
{}

/// A renewed journal has the carried actions as its history, and stands for what it says.
pub fn renewed_is_a_journal()
    ensures { RenewedIsAJournal }
{}

/// The first 237,065,593 bytes of a file tell what it is.
pub fn enough_bytes()
    ensures { EnoughBytes }
{}

/// The texts that are given one after another from a gate up to another are those of the records
/// that stand between them, and leave the marks told.
pub fn passes_the_history()
    ensures { PassesTheHistory }
{}

/// The pieces in which a Slide takes bytes don't matter: the records that it lent, and its answer,
/// are those of the records over the whole file from the first gate on, up to the gate at which it
/// stands, with places counted in the file. So they are whatever follows the bytes taken, unless
/// the end was told.
pub fn pieces_do_not_matter()
    ensures { PiecesDoNotMatter }
{}
