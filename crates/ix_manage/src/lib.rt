//! The top call of the program: from the words of the command line to the bytes put.
#![tactic(auto)]

ghost use Rattle.std.specs.Prelude.{◌≡◌, ◌⊎◌, false, map, string_bytes};
ghost use Rattle.ix_outside.specs.Counts.{Rose};
ghost use Rattle.ix_outside.specs.FilesState.{OnlyFaults};
ghost use Rattle.ix_outside.specs.SinkState.{OnlyPuts};
ghost use Rattle.ix_outside.specs.SiteState.{OnlyDisk};
ghost use Rattle.ix_manage.specs.Around.{around_of};
ghost use Rattle.ix_manage.specs.Command.{NamesNoJournal, NamesNoSocket};
ghost use Rattle.ix_manage.specs.Ends.{Ended, EndsOver};
ghost use Rattle.ix_manage.specs.Renewals.{NamesLongJournal};
ghost use Rattle.ix_manage.specs.Site.{OnlyCalls};

mod actions;
mod bound;
mod early_end;
mod event_outcome;
mod fit;
mod follow;
mod history;
mod job;
mod last_line;
pub mod laws;
mod lint;
mod load;
mod next;
mod open;
mod past;
mod refusal;
mod renew;
mod replay;
mod run;
mod serve;
mod simplify;
mod start;
mod stuck;
mod trace;
mod values;
mod why;
mod work;

use ix_outside::{Files, Sink, Site};
use last_line::finish;
use run::run;
use std::alloc::Global;

/// Runs the program on the words after its name, and gives its status.
///
/// `EndsOver` says what is put, with which status a run ends, and what becomes of the journal and
/// of the connections. The first word names a command, and the words behind it are read by `clap`:
///
/// - `trace EXPR ACTIONS` puts one line for each action of the file ACTIONS by the expression
///   of the file EXPR, which is `no`, `full`, `large` or `yes`, and then `complete` or
///   `partial`, with status 0.
/// - `replay EXPR JOURNAL SCRIPT` attaches the file JOURNAL, which is made where it is absent, puts
///   `history N`, the number of the actions that it recovers, and then the replies of a run of the
///   protocol machine over the events of the file SCRIPT, each behind its connection's number: to
///   the script's end or `stop` with status 0, or to the number of turns with status 7 and a line
///   that says so. Each confirmed action is in the journal before it is answered. Where the disk
///   fails then, the run ends behind the reply that says so, with status 5.
/// - `serve EXPR JOURNAL SOCKET` does the same over the site's own connections: it listens on
///   SOCKET, puts `history N`, and then sends the replies to the events that the site gives. Where
///   the wire fails the run ends with status 6; a client that is gone doesn't end it.
/// - `work N SEED` asks an engine for N actions, from 0 to 1,000,000, that are generated from the
///   number SEED, one after the other, each of which joins the history where it is allowed. It puts
///   `asked N granted G refused R nodes S`, S being the Size of the tree at the end. The expression
///   is that of the workload, `EXAMINATIONS` of `ix_generate`.
/// - `simplify EXPR` puts the canonical text of what the expression of the file EXPR becomes by the
///   laws of `ix_simplify`, with status 0. It makes no tree.
/// - `bound EXPR K` puts how large the tree of a history with at most K different values can get, K
///   from 0 to 1,000,000, as `bound_lines` of `ix_desk` writes it of the expression of the file
///   EXPR: `bound B`, `above 1000000`, or `unbounded C node N` and behind it a line for each node
///   for which there is no bound, with status 0. It makes no tree.
/// - `follow EXPR LINES` feeds the lines of the file LINES to a follower of the expression of the
///   file EXPR, and puts one line for each: `other`, `early N`, `old N` or `taken N`, N being the
///   number of the entry; and then `complete` or `partial`, with status 0. The first entry that the
///   follower refuses ends it with `refused follow C at N` and status 11, C being 61 where the
///   history has another action of this number, 62 where the action may not come next, 63 where the
///   history has 1,000,000 actions, and 64 where the tree would be above the limit.
/// - `lint EXPR` puts a line for each thing that looks wrong in the expression of the file EXPR, as
///   `lint_lines` of `ix_desk` writes it, with status 0. It makes no tree.
///
/// - `why EXPR ACTIONS ACTION` takes the actions of the file ACTIONS as a history, and puts a line
///   for each part of the expression that refuses ACTION behind it, as `why_lines` of `ix_desk`
///   writes it, or `permitted`, with status 0. Whether the history is full or the tree would be
///   above the limit doesn't count for ACTION.
/// - `next EXPR ACTIONS [VALUE..]` takes the actions of the file ACTIONS as a history, and puts a
///   line for each action that may come behind it, as `menu_lines` of `ix_desk` writes it, and then
///   `complete` or `partial`, with status 0. The values are those of VALUE, at most 16, each `V` or
///   `P=V`, those that are fixed in the expression, and new ones.
/// - `renew EXPR JOURNAL NEW` loads the file JOURNAL, in which a journal of the expression rests,
///   and makes of the file NEW, which has no byte, one that goes on from it with a short word in
///   place of its history. It puts `renewed N B carried C`, with status 0: the N actions and B
///   boots of the journals before, and how many actions are carried in their place.
/// - `stuck EXPR VALUES` searches what the actions over the given values of the file VALUES can
///   lead to, and puts what `stuck_lines` of `ix_desk` writes of it, with status 0.
///
/// In a `why` and a `next` the first action of the file that isn't allowed ends the run with
/// `refused history C at N` and status 11, N being its number, C 62 where it may not come next, 63
/// where the history has 1,000,000 actions, and 64 where the tree would be above the limit. A word
/// ACTION or VALUE that isn't what it must be is refused with `refused words` and status 2 before a
/// file is read.
///
/// `--nodes N` is the limit of Size, from 1 to 1,000,000, which is 100,000 otherwise, and in a
/// replay and a serve `--turns N` the most events that are taken, from 1 to 1,000,000,000.
///
/// Otherwise a run ends with a refusal as its last line. Words that `clap` refuses end it with
/// status 2 and a text for people. A text that stands for no expression is refused with its first
/// fault, one whose initial tree is above the limit with 14, an actions file or a script with the
/// first line that isn't in its grammar, and a file of lines of more than 67,108,864 bytes with 7.
/// A journal from which no run starts is refused with status
/// 8 and left as it is, and one whose disk fails with 5. A put that fails ends the run with status
/// 10, a replay after the event in which it failed; what went out by then is a front of such a
/// text. A file that `files` doesn't tell may hold any text.
pub fn manage<F: Files, S: Site, K: Sink>(
    alloc: Global,
    words: &[String],
    files: &mut F,
    site: &mut S,
    out: &mut K,
) -> u8
    requires { (S.state site.old).attached ≡ false }

    // With this status, a session and what went out, whole and in part, the run may end so; what it
    // leaves of its journal is that session's history, and what it sent the session's replies. All
    // that is said below of the status and of the site is said by this already.
    ensures ends { Ended (EndsOver (map string_bytes words.now)
        (around_of (F.state files.old) (F.state files.new) (S.state site.old) (S.state site.new))
        (S.crashes site.new))
        result (K.state out.old) (K.state out.new) }

    // A file is lost, the disk and the wire fail, and a put fails, only where the count rose.
    // The file of a renew's journal may be too long, too.
    ensures file_fault { result ≡ 4 → Rose (F.state files.old).faults (F.state files.new).faults
        ⊎ NamesLongJournal (map string_bytes words.now) (F.state files.old).contents }
    ensures disk_fault { result ≡ 5
        → Rose (S.state site.old).counts.disk (S.state site.new).counts.disk }
    ensures wire_fault { result ≡ 6
        → Rose (S.state site.old).counts.wire (S.state site.new).counts.wire }
    ensures output_fault { result ≡ 10 → Rose (K.state out.old).faults (K.state out.new).faults }

    // What stays: all of the files but their count of faults; of the site what it holds, without a
    // socket all but its disk, and without a journal all; and of the output what it holds.
    ensures files { OnlyFaults (F.state files.old) (F.state files.new) }
    ensures site { OnlyCalls (S.state site.old) (S.state site.new) }
    ensures no_socket { NamesNoSocket (map string_bytes words.now)
        → OnlyDisk (S.state site.old) (S.state site.new) }
    ensures no_journal { NamesNoJournal (map string_bytes words.now)
        → S.state site.new ≡ S.state site.old }
    ensures puts { OnlyPuts (K.state out.old) (K.state out.new) }
{
    let how = run(alloc, words, files, site, out);
    finish(how, out)
}
