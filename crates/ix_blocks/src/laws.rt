//! What is claimed of several owners of one file, each the contract of a function with an empty
//! body.

ghost use Rattle.ix_blocks.specs.FileLaws.{EachMomentHasOneOfTwo, HeldFilesAreImages};
ghost use Rattle.ix_blocks.specs.FileLaws.{SyncsAreWhole, SyncsMakeTheFile};
ghost use Rattle.ix_blocks.specs.Laws.{AnsweredWritesStand, AttachesKeepTheFile, LooksTellWhoOwns};
ghost use Rattle.ix_blocks.specs.Laws.{EachWritesOnceInOrder, EarlierOwnersWriteNothing};
ghost use Rattle.ix_blocks.specs.Laws.{SettledFilesStay, SyncsAreOfTheLastOwner};
ghost use Rattle.ix_blocks.specs.Protocol.{OwnedFilesStay};

/// Whatever many owners of a file do that keep to attach and sync, and whenever what they sent
/// comes to the store, however often, in any order, or never: once another owner has attached, no
/// transaction of an earlier owner changes anything; each transaction changes the keys once at
/// most, and those of one owner in the order in which they were sent; an attach leaves the file as
/// it is; and a sync that changes something is of the owner that attached last.
pub fn only_the_last_owner_writes()
    ensures earlier { EarlierOwnersWriteNothing }
    ensures syncs { SyncsAreOfTheLastOwner }
    ensures once { EachWritesOnceInOrder }
    ensures file { AttachesKeepTheFile }
{}

/// Of an owner that waits for no answer, the last transaction that it sent has changed the keys;
/// and as long as no other owner attaches, the file is what that transaction made it, whatever
/// comes of all that was ever sent.
pub fn what_was_answered_is_written()
    ensures written { AnsweredWritesStand }
    ensures file { SettledFilesStay }
{}

/// An owner that waits for no answer and looks at the head finds it at the revision that it knows
/// exactly where no other owner has attached since.
pub fn looks_tell_who_owns()
    ensures { LooksTellWhoOwns }
{}

/// The image of a store that has a file is that file.
pub fn held_files_are_images()
    ensures { HeldFilesAreImages }
{}

/// A sync whose guard fits makes of the file that was synced the one in memory; whenever it comes,
/// the file is one of the two.
pub fn syncs_are_whole()
    ensures made { SyncsMakeTheFile }
    ensures whole { SyncsAreWhole }
{}

/// While the owner that attached last syncs, and until anybody sends another sync: at every moment,
/// whatever comes of all that was ever sent, and whoever attaches, the store has the file as it
/// was synced, and from the moment on at which the sync changes it, the one in memory.
pub fn each_moment_has_one_of_two()
    ensures { EachMomentHasOneOfTwo }
{}

/// Over a store that tells, the file of the owner that attached last is the one that it synced,
/// until it syncs again, whatever comes of all that was ever sent, and whoever attaches.
pub fn owned_files_stay()
    ensures { OwnedFilesStay }
{}
