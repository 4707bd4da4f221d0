//! The laws of runs, the contracts of functions that do nothing.
ghost use Rattle.ix_manage.specs.Laws.{UnhinderedRunsEndWhole};
ghost use Rattle.ix_manage.specs.Managed.{HistoriesAreManaged, SentLinesTell};
ghost use Rattle.ix_manage.specs.TwoRuns.{OverTicketsStayOut, TicketsAreGrantedOnce};

use ix_outside::Site;
use ix_proto::laws::texts_tell_replies_apart;
use ix_values::texts_tell_tickets_apart;

/// What `manage` says of a run is complete: where the words name a job, what it reads is there and
/// valid, no call fails, and its events come to an end within its turns, it ends with status 0 and
/// its whole text, each reply in it; or there is no memory for it, with status 9 before any reply.
pub fn unhindered_runs_end_whole<S: Site>()
    ensures { UnhinderedRunsEndWhole S.crashes }
{}

/// Of two runs on one journal, the second from what a crash left of the first, behind it or since
/// its boot was kept, no ticket is granted in both.
pub fn tickets_are_granted_once<S: Site>()
    ensures { TicketsAreGrantedOnce S.crashes }
{}

/// Of such runs, a ticket of which the first told that it is over, with `outcome never`,
/// `cancelled` or 31, isn't in the second's history.
pub fn over_tickets_stay_out<S: Site>()
    ensures { OverTicketsStayOut S.crashes }
{
    texts_tell_tickets_apart();
}

/// The history of a run from a file that can be started from is one for which followers are
/// promised to keep up: each action of it is allowed behind those before it.
pub fn histories_are_managed()
    ensures { HistoriesAreManaged }
{}

/// Each line that such a run sent is one that followers are promised to take: where it is an entry,
/// it tells the action that the history has at its number, and so has each later history.
pub fn sent_lines_tell()
    ensures { SentLinesTell }
{
    texts_tell_replies_apart();
}
