//! Words over any item: cuts, splits, owners, parts, projections, and lists compared by their
//! members. Each function here is a law: its contract is the statement, and its body is empty.
#![tactic(auto)]

ghost use Rattle.ix_words.specs.Laws.{PartsAppend, PartsGrow, PartsCover, ProjectionsByTest};
ghost use Rattle.ix_words.specs.Laws.{ProjectionsGrow, JoinedGrow, SplitsClosed, NumberedClosed};
ghost use Rattle.ix_words.specs.Laws.{SharedClosed, OwnedClosed, ProjectedClosed, JoinedFronts};
ghost use Rattle.ix_words.specs.Laws.{CutsAll, CutsGrow, SplitsAll, SplitsGrow, CanonStands};
ghost use Rattle.ix_words.specs.Laws.{AscendingOnce, CanonByMembers, CanonAppend, CanonGrow};
ghost use Rattle.ix_words.specs.Laws.{CanonEach, NumbersBelowTheLength, OwnersOfTheirItems};
ghost use Rattle.ix_words.specs.Laws.{PiecesAreFilled};

/// The part of an appended word is the part of the first with that of the second behind it.
pub fn parts_append<Owner, Item>()
    ensures { PartsAppend Owner Item }
{}

/// One more item lengthens exactly the parts of its owner.
pub fn parts_grow<Owner, Item>()
    ensures { PartsGrow Owner Item }
{}

/// Each item of a split word is in its left or in its right part.
pub fn parts_cover<Item>()
    ensures { PartsCover Item }
{}

/// Where a test says what is in, the projection is the list of the items that pass.
pub fn projections_by_test<Item>()
    ensures { ProjectionsByTest Item }
{}

/// One more item lengthens a projection exactly where it is in.
pub fn projections_grow<Item>()
    ensures { ProjectionsGrow Item }
{}

/// One more piece stands behind the others.
pub fn joined_grow<Item>()
    ensures { JoinedGrow Item }
{}

/// A front of a split word is split, where fronts of what the parts pass pass.
pub fn splits_closed<Item>()
    ensures { SplitsClosed Item }
{}

/// A front of a word with owner numbers has owner numbers, in the same way.
pub fn numbered_closed<Item>()
    ensures { NumberedClosed Item }
{}

/// A front of a word with owner numbers below n has such owners, in the same way.
pub fn shared_closed<Item>()
    ensures { SharedClosed Item }
{}

/// A front of a word with owner values has owner values, in the same way.
pub fn owned_closed<Value, Item>()
    ensures { OwnedClosed Value Item }
{}

/// A front of a word whose projection passes has such a projection.
pub fn projected_closed<Item>()
    ensures { ProjectedClosed Item }
{}

/// A front of a joined word is a front of its front, or its front and a front of its back.
pub fn joined_fronts<Item>()
    ensures { JoinedFronts Item }
{}

/// Each way to cut a word is listed, and no other.
pub fn cuts_all<Item>()
    ensures { CutsAll Item }
{}

/// The cuts of a word with one more item.
pub fn cuts_grow<Item>()
    ensures { CutsGrow Item }
{}

/// Each way to split a word is listed, and no other.
pub fn splits_all<Item>()
    ensures { SplitsAll Item }
{}

/// The splits of a word with one more item.
pub fn splits_grow<Item>()
    ensures { SplitsGrow Item }
{}

/// A canonical list ascends and has the members of its list.
pub fn canon_stands<Item>()
    ensures { CanonStands Item }
{}

/// Two ascending lists with the same members are one list.
pub fn ascending_once<Item>()
    ensures { AscendingOnce Item }
{}

/// Lists have one canonical list exactly where they have the same members.
pub fn canon_by_members<Item>()
    ensures { CanonByMembers Item }
{}

/// The canonical list of an appended list is that of the two canonical lists.
pub fn canon_append<Item>()
    ensures { CanonAppend Item }
{}

/// One more item is put in its place in a canonical list, unless it is there.
pub fn canon_grow<Item>()
    ensures { CanonGrow Item }
{}

/// What is made from each item of a canonical list is what is made from each item of its list.
pub fn canon_each<Item, Made>()
    ensures { CanonEach Item Made }
{}

/// Owner numbers below the length of the word suffice.
pub fn numbers_below_the_length<Item>()
    ensures { NumbersBelowTheLength Item }
{}

/// Where the items of a part have to do with its owner, each owner has to do with its item.
pub fn owners_of_their_items<Value, Item>()
    ensures { OwnersOfTheirItems Value Item }
{}

/// Pieces that aren't empty suffice for a repeated word.
pub fn pieces_are_filled<Item>()
    ensures { PiecesAreFilled Item }
{}
