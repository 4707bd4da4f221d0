//! Laws of renewal, each the contract of a function with an empty body.

ghost use Rattle.ix_renew.specs.LaterRenewals.{ConfirmedTicketsStayConfirmed, CountsGoOn};
ghost use Rattle.ix_renew.specs.LaterRenewals.{OverTicketsStayOverRenewals};
ghost use Rattle.ix_renew.specs.LaterRenewals.{RenewedJournalsGoOn, ToldNumbersStay};
ghost use Rattle.ix_renew.specs.Laws.{RenewalChangesNoAnswer};
ghost use Rattle.ix_renew.specs.RunsAlike.{RenewedRunsAnswerAlike};

/// Behind a carried word every later word is partial and complete exactly where it is behind the
/// history, and leads to the same tree. So an action is allowed there exactly where it is allowed
/// behind the history, while that has room.
pub fn renewal_changes_no_answer()
    ensures { RenewalChangesNoAnswer }
{}

/// Once a reply told that a ticket is over, no later state has it in its history, also over
/// renewals.
pub fn over_tickets_stay_over_renewals()
    ensures { OverTicketsStayOverRenewals }
{}

/// Once the action of a number was told, every later answer to its number, also over renewals, is
/// this action, or that it is left out.
pub fn told_numbers_stay()
    ensures { ToldNumbersStay }
{}

/// The count doesn't fall, also over renewals, and a renewal leaves it as it was.
pub fn counts_go_on()
    ensures { CountsGoOn }
{}

/// Once a reply told that a ticket was confirmed, no later reply tells that it is over, also over
/// renewals.
pub fn confirmed_tickets_stay_confirmed()
    ensures { ConfirmedTicketsStayConfirmed }
{}

/// A renewed journal of the one that an end or a crash left of a state can be started from, in the
/// next boot, and whatever starts from it comes later than that state. A renewal of a renewed
/// journal from which nothing started is one of the journal before it.
pub fn renewed_journals_go_on()
    ensures { RenewedJournalsGoOn }
{}

/// A run from a journal and a run from the one that a renewal made of it are answered alike, over
/// the same events, while the old history has fewer than a million actions. For each run of the
/// one there is one of the other with the same replies one by one, except that the new one refuses
/// to tell what was left out: `log` of a number up to those that were counted then, and `outcome`
/// of a ticket of one of the boots before.
pub fn renewed_runs_answer_alike()
    ensures { RenewedRunsAnswerAlike }
{}
