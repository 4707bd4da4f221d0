//! The program.
ghost use Rattle.std.specs.Prelude.{◌≡◌, ◌≢◌, ◌⊎◌, ℕ, map, string_bytes, decimal, MatchOption};
ghost use Rattle.ix_values.specs.PlainAction.{PlainAction, text_of};
ghost use Rattle.ix_values.specs.Texts.{IsAction};
ghost use Rattle.ix_outside.specs.Counts.{Rose};
ghost use Rattle.ix_outside.specs.SinkState.{OnlyPuts};
ghost use Rattle.ix_proto.specs.Requests.{IsLease};
ghost use Rattle.ix_client.specs.Client.{ClientEnds, NamesAsk, Runs, Serves, ends_with};
ghost use Rattle.ix_client.specs.ClientLaws.{TellsDone, TellsRefused};
ghost use Rattle.ix_client.specs.Endings.{PutsLine};
ghost use Rattle.ix_client.specs.Rising.{CallsAtMost, EitherRose, RoseBy};

use crate::calls::{ask, confirm};
use crate::ended::Ended;
use crate::grants::AskFault;
use crate::link::Link;
use crate::turns::{after_confirm, go_on};
use arrayvec::ArrayVec;
use ix_lines::read_number;
use ix_outside::Sink;
use ix_values::Action;

/// The longest lease, in milliseconds.
const LONGEST_LEASE: u64 = 86_400_000;

/// Runs the program on the words after its name, SOCKET ACTION MILLIS, over the link to that
/// socket, and gives its status. Takes no memory of its own.
///
/// The action is asked for and confirmed. Where the confirm is unsure the grant is settled, at most
/// 8 times, each followed by a confirm where the reservation is still open: at most 18 calls. One
/// line is put:
///
/// - `done N`, status 0: the action is the one of the number N of the history.
/// - `ixc SOCKET ACTION MILLIS`, status 0: there are no words. The link isn't called.
/// - `refused words`, status 2: there are other words than these three. The link isn't called.
/// - `refused C`, status 3: the manager refused the ask with this code, 20 to 23.
/// - `never`, status 4: the action isn't in the history, and never will be by its ticket.
/// - `left out T`, status 5: whether the action happened by the ticket T is left out since the
///   journal was renewed, and no later run tells it.
/// - `refused link`, status 6: the call of the ask failed; it was taken or not.
/// - `refused reply`, status 7: the reply to the ask was none that an ask has.
/// - `unsure T`, status 8: what became of the ticket T isn't known after the last turn.
/// - `refused memory`, status 9: the manager has no memory for the ask.
///
/// Where the put fails, the status is 10.
pub fn client<L: Link, K: Sink>(words: &[String], link: &mut L, out: &mut K) -> u8
    ensures ends { ClientEnds (map string_bytes words.now) result
        (L.state link.old) (L.state link.new) (K.state out.old) (K.state out.new) }
    ensures puts { OnlyPuts (K.state out.old) (K.state out.new) }
    ensures calls { CallsAtMost 18 (L.state link.old) (L.state link.new) }

    // What a status tells of the counts of the link.
    ensures never { (result ≡ 4) ⊎ (result ≡ 5)
        → EitherRose (L.state link.old) (L.state link.new) }
    ensures failed { result ≡ 6 → Rose (L.state link.old).faults (L.state link.new).faults }
    ensures balked { (result ≡ 7) ⊎ (result ≡ 9)
        → Rose (L.state link.old).balks (L.state link.new).balks }
    ensures unsure { result ≡ 8 → RoseBy 9 (L.state link.old) (L.state link.new) }
    ensures plain { (a : PlainAction) (lease : ℕ) → NamesAsk (map string_bytes words.now) a lease
        → ¬ EitherRose (L.state link.old) (L.state link.new)
        → ¬ Rose (K.state out.old).faults (K.state out.new).faults
        → (result ≡ 0) ⊎ (result ≡ 3) }

    // What the line of an ask tells, over a link that tells its manager.
    ensures done { (a : PlainAction) (lease : ℕ) → NamesAsk (map string_bytes words.now) a lease
        → result ≡ 0 → TellsDone a (L.state link.old) (L.state link.new)
        (K.state out.old) (K.state out.new) }
    ensures refused { (a : PlainAction) (lease : ℕ) → NamesAsk (map string_bytes words.now) a lease
        → result ≡ 3 → TellsRefused a (L.state link.old) (L.state link.new)
        (K.state out.old) (K.state out.new) }
{
    let ended = run(words, link);
    finish(ended, out)
}

/// Puts the line of the ending, and gives the status.
fn finish<K: Sink>(ended: Ended, out: &mut K) -> u8
    ensures line { PutsLine ended result (K.state out.old) (K.state out.new) }
    ensures puts { OnlyPuts (K.state out.old) (K.state out.new) }
{
    let mut line = ArrayVec::<u8, 64>::new();
    ended.write(&mut line);
    match out.put(line.as_slice()) {
        Ok(()) => ended.status(),
        Err(_) => 10,
    }
}

fn run<L: Link>(words: &[String], link: &mut L) -> Ended
    ensures { Runs (map string_bytes words.now) result (L.state link.old) (L.state link.new) }
{
    if words.is_empty() {
        return Ended::Usage;
    }
    match read_words(words) {
        Some(wanted) => ask_and_confirm(link, &wanted.action, wanted.lease),
        None => Ended::BadWords,
    }
}

/// What the words name.
#[derive(Clone, Copy)]
struct Wanted {
    action: Action,
    lease: u32,
}

/// The ask that the words name, which are a socket, an action and a lease.
fn read_words(words: &[String]) -> Option<Wanted>
    ensures { MatchOption result
        ((a : PlainAction) (lease : ℕ) → ¬ NamesAsk (map string_bytes words.now) a lease)
        (λ wanted. NamesAsk (map string_bytes words.now) wanted.action wanted.lease) }
{
    if words.len() != 3 {
        return None;
    }
    let Some(action) = read_action(words[1].as_bytes()) else {
        return None;
    };
    let Some(lease) = read_lease(words[2].as_bytes()) else {
        return None;
    };
    Some(Wanted { action, lease })
}

/// The action of this text, if it is one's.
fn read_action(text: &[u8]) -> Option<Action>
    ensures { MatchOption result
        ((a : PlainAction) → IsAction a → text_of a ≢ text.now)
        (λ action. IsAction action × (text_of action ≡ text.now)) }
{
    match Action::read(text) {
        Ok(action) => Some(action),
        Err(_) => None,
    }
}

/// The lease of this text, if it is one's.
fn read_lease(text: &[u8]) -> Option<u32>
    ensures { MatchOption result
        ((lease : ℕ) → IsLease lease → text.now ≢ decimal lease)
        (λ lease. IsLease lease × (text.now ≡ decimal lease)) }
{
    let Some(number) = read_number(text, LONGEST_LEASE) else {
        return None;
    };
    if number == 0 {
        return None;
    }
    Some(number as u32)
}

/// Asks for the action, and takes a grant to its end.
fn ask_and_confirm<L: Link>(link: &mut L, action: &Action, lease: u32) -> Ended
    requires { IsLease lease }
    ensures { Serves action.now lease result (L.state link.old) (L.state link.new) }
{
    match ask(link, action, lease) {
        Ok(granted) => {
            let first = after_confirm(confirm(link, granted));
            go_on(link, first)
        }
        Err(why) => ended_by(why),
    }
}

/// How a run ends whose ask wasn't granted.
fn ended_by(why: AskFault) -> Ended
    ensures { result ≡ ends_with why }
{
    match why {
        AskFault::Refused { code } => Ended::Refused(code),
        AskFault::Memory => Ended::NoMemory,
        AskFault::Odd => Ended::OddReply,
        AskFault::Link => Ended::NoLink,
    }
}
