//! Laws of the protocol machine's table and of its runs.
ghost use Rattle.ix_manager.specs.ImageLaws.{KeptImagesAreStartable, RunsStayWithin};
ghost use Rattle.ix_manager.specs.LaterLaws.{LaterStatesAreThese, OverTicketsStayOver};
ghost use Rattle.ix_manager.specs.LaterLaws.{ToldEntriesStay};
ghost use Rattle.ix_manager.specs.MachineLaws.{OnlySomeWantMemory, OpenTicketsAreConfirmed};
ghost use Rattle.ix_manager.specs.MachineLaws.{PollsTellWhatChanged};
ghost use Rattle.ix_manager.specs.RunLaws.{AnyCuttingGivesTheSameRun, CallsMakeARun};
ghost use Rattle.ix_manager.specs.RunLaws.{SentRepliesAreTheWire, UnmarkedRepliesAreTheText};
ghost use Rattle.ix_manager.specs.ToldLaws.{AcknowledgedEntriesAreKept};
ghost use Rattle.ix_manager.specs.ToldLaws.{AcknowledgedOutcomesAreKept};
ghost use Rattle.ix_manager.specs.ToldLaws.{TicketsAreOfTheirBoot, ToldEntriesAreKept};
ghost use Rattle.ix_manager.specs.ToldLaws.{ToldOutcomesStay, ToldTicketsStayOver};

use ix_values::texts_tell_tickets_apart;

/// A confirm with the ticket of the open reservation is confirmed: ticket and action join the
/// history, and the slot is free.
pub fn open_tickets_are_confirmed()
    ensures { OpenTicketsAreConfirmed }
{}

/// Only an ask, a watch or a poll is refused for want of memory.
pub fn only_some_want_memory()
    ensures { OnlySomeWantMemory }
{}

/// Unless memory runs out, a poll tells exactly the watches of its name for which whether the
/// action is allowed isn't what was told, in order, behind their number.
pub fn polls_tell_what_changed()
    ensures { PollsTellWhatChanged }
{}

/// A manager that was just started follows the run without events. Where a manager follows a
/// run, each event that it takes goes on that run, and the manager follows the longer run as
/// long as it goes on.
pub fn calls_make_a_run()
    ensures { CallsMakeARun }
{}

/// A piece of bytes and the same piece cut in two, of one connection and at one moment, have
/// the same runs, whatever events come before and behind: no reply, no state and no ending
/// depends on the cutting.
pub fn any_cutting_gives_the_same_run()
    ensures { AnyCuttingGivesTheSameRun }
{}

/// Over a site that tells its sends, sending the replies to each event of a run makes exactly the
/// wire of that run: each reply one send in order, a front of one where the site answers Gone, and
/// none on a connection that is marked. The wire tells which replies its sends carry.
pub fn sent_replies_are_the_wire()
    ensures { SentRepliesAreTheWire }
{}

/// What is sent of the replies to an event, on a connection that isn't marked as gone, is their
/// text; a front of it where the connection is marked afterwards. On a marked connection nothing is
/// sent. The text of a run grows by that of each event's replies.
pub fn unmarked_replies_are_the_text()
    ensures { UnmarkedRepliesAreTheText }
{}

/// From an opening of whose history each prefix is partial and of a Size within the limit, so is
/// each prefix of every run's last history, also with the action of a confirm that failed behind
/// it: an action is granted only where it may come next, and nothing changes the history while it
/// is reserved.
pub fn runs_stay_within_the_limit()
    ensures { RunsStayWithin }
{}

/// Every image that keeps the first actions of such a history, and no others, as each does that a
/// crash may leave, can be started from, and gives the actions that it keeps with their tickets,
/// unless it holds a million boots.
pub fn kept_images_can_be_started_from()
    ensures { KeptImagesAreStartable }
{}

/// Once a reply told that a ticket is over, no later state has it in its history: none of this run,
/// and none of a run from a journal that this one or a crash of it left. The replies that tell so
/// are that its outcome is never, that it was cancelled, and 31, that it came behind its deadline.
pub fn over_tickets_stay_over()
    ensures { OverTicketsStayOver }
{}

/// An entry that was told of the history is the same in each later state.
pub fn told_entries_stay()
    ensures { ToldEntriesStay }
{}

/// What comes later: the last state of a run; of each event, a state of which a crash may leave
/// what the images meanwhile keep; and the start from an image that holds the boots of a state and
/// keeps what a crash in it may leave.
pub fn later_states_are_these()
    ensures { LaterStatesAreThese }
{}

/// A ticket that a run granted is of its boot, so runs of two boots grant no ticket both.
pub fn tickets_are_of_their_boot()
    ensures { TicketsAreOfTheirBoot }
{}

/// A ticket of which a run told that it is over isn't in its history, nor in what a confirm that
/// failed may leave: whatever line asked, and wherever in the run.
pub fn told_tickets_stay_over()
    ensures { ToldTicketsStayOver }
{
    texts_tell_tickets_apart();
}

/// Where a run told the number that a ticket was confirmed with, it is the ticket's in its history.
pub fn told_outcomes_stay()
    ensures { ToldOutcomesStay }
{
    texts_tell_tickets_apart();
}

/// An entry that a run told is in its history.
pub fn told_entries_are_kept()
    ensures { ToldEntriesAreKept }
{}

/// An entry that a run told is in each image that a crash left behind the first byte of the reply:
/// also where the confirm of its action came in the same piece.
pub fn acknowledged_entries_are_kept()
    ensures { AcknowledgedEntriesAreKept }
{}

/// So is the ticket of which a run told the number that it was confirmed with, at that number.
pub fn acknowledged_outcomes_are_kept()
    ensures { AcknowledgedOutcomesAreKept }
{
    texts_tell_tickets_apart();
}
