//! Sends replies.

ghost use Rattle.std.specs.Prelude.{◌≡◌, ◌≤◌, [], ◌∷◌, length};
ghost use Rattle.ix_watch.specs.inside.Watches.{changes_of};
ghost use Rattle.ix_proto.specs.inside.ReplyTexts.{CanBeTold};
ghost use Rattle.ix_manager.specs.inside.Core.{change_replies};
ghost use Rattle.ix_manager.specs.inside.Saving.{OnlySends};
ghost use Rattle.ix_manager.specs.inside.WireState.{wired, SendsAll, poll_replies};
ghost use Rattle.ix_outside.specs.Crashes.{stretch_of};

use crate::machine::Machine;
use arrayvec::ArrayVec;
use ix_outside::Site;
use ix_proto::Reply;
use ix_values::Name;
use ix_watch::Changes;

/// Sends a reply on a connection, unless it is marked as gone. A send that answers Gone marks it.
pub(crate) fn send_reply<S: Site>(site: &mut S, conn: u8, gone: &mut bool, reply: &Reply)
    requires { CanBeTold reply.now }
    ensures sends { SendsAll conn (reply.now ∷ [])
        (wired gone.old (S.state site.old)) (wired gone.new (S.state site.new)) }
    ensures only { OnlySends (stretch_of S.state S.crashes site.old site.new) }
{
    if *gone {
        return;
    }
    let mut line = ArrayVec::<u8, 256>::new();
    reply.write(&mut line);
    if site.send(conn, line.as_slice()).is_err() {
        *gone = true;
    }
}

/// Sends the number of the changes of a name, and then each of them.
pub(crate) fn send_changes<S: Site>(
    site: &mut S,
    conn: u8,
    gone: &mut bool,
    machine: &Machine,
    name: &Name,
)
    ensures sends { SendsAll conn (poll_replies (changes_of name.now machine.now.noted))
        (wired gone.old (S.state site.old)) (wired gone.new (S.state site.new)) }
    ensures only { OnlySends (stretch_of S.state S.crashes site.old site.new) }
{
    let count = count_changes(machine, name);
    send_reply(site, conn, gone, &Reply::Changes(count));
    send_each(site, conn, gone, machine.changes(name));
}

fn count_changes(machine: &Machine, name: &Name) -> u32
    ensures { result ≡ length (change_replies (changes_of name.now machine.now.noted)) }
{
    machine.changes(name).count() as u32
}

fn send_each<S: Site>(site: &mut S, conn: u8, gone: &mut bool, changes: Changes<'_>)
    ensures sends { SendsAll conn (change_replies changes.entry)
        (wired gone.old (S.state site.old)) (wired gone.new (S.state site.new)) }
    ensures only { OnlySends (stretch_of S.state S.crashes site.old site.new) }
{
    for (action, answer) in changes {
        send_reply(site, conn, gone, &Reply::Change(answer, *action));
    }
}
