//! Runs of a client over a manager in memory, of `a - b` with an empty journal.
ghost use Rattle.std.specs.Prelude.{◌≡◌, false, IfOk};

use ix_client::{Cancel, Granted, ManagerLink, ask, cancel, client};
use ix_memory::{MemorySink, MemorySite};
use ix_values::Action;
use std::alloc::Global;
use std::process::Abort;
use std::test::Fail;

const TEXT: &[u8; 5] = b"a - b";

/// What the site and the sink have room for: each call, and each byte that is sent, written or put.
const ROOM: usize = 1 << 20;

/// A site with an empty file, whose calls of these numbers fail.
fn site_of(alloc: Global, disk: &[u64]) -> Result<MemorySite, Fail>
    ensures { IfOk result (λ s. s.attached ≡ false) }
{
    let fail = disk.to_vec(alloc)?;
    let site = MemorySite::new(alloc, Vec::new(alloc), Vec::new(alloc), ROOM, fail, None);
    Ok(site?)
}

/// A link whose calls of these numbers fail, each behind its step where the pair says true, and
/// those of whose site do.
fn link_of(alloc: Global, link: &[(u64, bool)], disk: &[u64]) -> Result<ManagerLink, Fail> {
    let fail = link.to_vec(alloc)?;
    let site = site_of(alloc, disk)?;
    match ix_parse::read(alloc, TEXT) {
        Ok(_) => match ManagerLink::new(alloc, TEXT, 1000, site, fail) {
            Ok(link) => Ok(link),
            Err(_) => Err("the manager wasn't started".into()),
        },
        Err(_) => Err("not an expression".into()),
    }
}

/// The words of a command line that asks for this action.
fn words_of(alloc: Global, action: &str) -> Result<Vec<String>, Fail> {
    let mut words = Vec::new(alloc);
    for word in ["s", action, "5"] {
        words.push(String::from_str(alloc, word)?)?;
    }
    Ok(words)
}

/// An action, the calls of the link and of its site that fail when it is asked for, and then the
/// status and the text of the run. The ask is call 0 of the link, the confirm call 1.
const RUNS: &[(&str, &[(u64, bool)], &[u64], u8, &[u8])] = &[
    ("a", &[], &[], 0, b"done 1\n"),
    ("a", &[(1, true)], &[], 0, b"done 1\n"),
    ("a", &[(1, false)], &[], 4, b"never\n"),
    (
        "a",
        &[(1, true), (2, false), (3, true)],
        &[],
        0,
        b"done 1\n",
    ),
    ("b", &[], &[], 3, b"refused 21\n"),
    ("a", &[(0, false)], &[], 6, b"refused link\n"),
    ("a", &[(0, true)], &[], 6, b"refused link\n"),
    // The confirm's record isn't written, and the manager is started again.
    ("a", &[], &[14], 4, b"never\n"),
    // It is, but its gate's sync fails.
    ("a", &[], &[17], 0, b"done 1\n"),
    // The start behind the reply to such a confirm fails too, so no manager is left.
    ("a", &[], &[14, 16], 8, b"unsure 1-1\n"),
];

/// Whether a run on its own, on which these calls fail, ends so.
fn ends_so(
    alloc: Global,
    action: &str,
    link: &[(u64, bool)],
    disk: &[u64],
    status: u8,
    put: &[u8],
) -> Result<bool, Fail> {
    let words = words_of(alloc, action)?;
    let mut link = link_of(alloc, link, disk)?;
    let mut out = MemorySink::new(alloc, ROOM, Vec::new(alloc))?;
    let ended = client(&words, &mut link, &mut out);
    Ok(ended == status && out.bytes() == put)
}

#[test]
fn runs_end_so(rt: HostRuntime) -> Result<(), Fail> {
    for (action, link, disk, status, put) in RUNS {
        let is_so = ends_so(rt.alloc(), action, link, disk, *status, put)?;
        assert!(rt; is_so, "{action}, failing {link:?} and {disk:?}");
    }
    Ok(())
}

/// Whether a cancel of the grant is done. It isn't known of none.
fn is_cancelled(rt: &impl Abort, link: &mut ManagerLink, granted: Granted) -> bool {
    match cancel(link, granted) {
        Cancel::Done => true,
        Cancel::Expired => false,
        Cancel::Unsure(pending) => panic!(rt; "{pending:?}"),
    }
}

/// Asks for `a` and gives it up: the number of its ticket, and whether the cancel is done.
fn give_up(rt: &impl Abort, link: &mut ManagerLink) -> Result<(u64, bool), Fail> {
    let action = Action::read(b"a").ok().ok_or("no action")?;
    match ask(link, &action, 5) {
        Ok(granted) => {
            let number = granted.ticket().seq;
            Ok((number, is_cancelled(rt, link, granted)))
        }
        Err(_) => Err("not granted".into()),
    }
}

#[test]
fn what_is_cancelled_is_granted_again(rt: HostRuntime) -> Result<(), Fail> {
    let mut link = link_of(rt.alloc(), &[], &[])?;
    for seen in [(1, true), (2, true)] {
        assert_eq!(rt; give_up(&rt, &mut link)?, seen);
    }
    Ok(())
}
