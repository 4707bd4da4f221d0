//! How a serve ends, and what it makes of its journal, where its calls fail.
ghost use Rattle.std.specs.Prelude.{◌≡◌, false, IfOk, OnOk};
ghost use Rattle.ix_memory.specs.inside.CanCome.{CanAllCome, CanCome, beside, events_beside};

use super::*;
use ix_outside::{Event, EventKind};

// A connection, a moment, and bytes that come then in one piece.
type Coming<'a> = (u8, u64, &'a [u8]);

// Where a run is: its journal, what comes to its site, the call of the site that fails, and the
// number of the call from which on all fail.
#[derive(Clone, Copy)]
struct Outside<'a> {
    journal: &'a [u8],
    coming: &'a [Coming<'a>],
    call: Option<u64>,
    fuse: Option<u64>,
}

// A journal of `a - b`, the confirm of the first ticket that a serve over it grants, how what it
// sends begins where a byte of `confirmed` was sent, and what a start puts without the action and
// with it.
#[derive(Clone, Copy)]
struct Case {
    journal: &'static [u8],
    confirm: &'static [u8],
    confirmed: &'static [u8],
    without: &'static [u8],
    with: &'static [u8],
}

const OF_NOTHING: Case = Case {
    journal: b"",
    confirm: b"confirm 1-1\n",
    confirmed: b"0 granted 1-1\n0 c",
    without: b"history 0\n",
    with: b"history 1\n",
};

// One of a renewal that carries nothing, for 2 actions and 1 boot.
const OF_A_RENEWAL: Case = Case {
    journal: b"\xA5IXJ3\x00\x05a - b\xA5\x00\x0Brenewed 2 1\x00",
    confirm: b"confirm 2-1\n",
    confirmed: b"0 granted 2-1\n0 c",
    without: b"history 2\n",
    with: b"history 3\n",
};

// How a serve ended: its status, what it sent, and its journal then.
#[derive(Drop)]
struct Served {
    status: u8,
    sent: Vec<u8>,
    journal: Vec<u8>,
}

const SERVE: [&str; 4] = ["serve", "expression", "journal", "socket"];

const REPLAY: [&str; 4] = ["replay", "expression", "-", "actions"];

// The event of a piece, beside its bytes.
fn event_of(alloc: Global, coming: Coming<'_>) -> Result<(Event, Vec<u8>), Fail>
    ensures { IfOk result (λ event. CanCome (beside event)) }
{
    let (conn, moment, bytes) = coming;
    if bytes.is_empty() || bytes.len() > 4096 || conn > 63 {
        return Err("no piece".into());
    }
    let event = Event {
        conn,
        moment,
        kind: EventKind::Bytes(bytes.len()),
    };
    Ok((event, bytes.to_vec(alloc)?))
}

fn add_event(event: (Event, Vec<u8>), events: &mut Vec<(Event, Vec<u8>)>) -> Result<(), AllocError>
    requires one { CanCome (beside event) }
    requires all { CanAllCome (events_beside events.old.items) }
    ensures all { OnOk result (CanAllCome (events_beside events.new.items)) }
{
    match events.push(event) {
        Ok(()) => Ok(()),
        Err(_) => Err(AllocError),
    }
}

fn events_of(alloc: Global, coming: &[Coming<'_>]) -> Result<Vec<(Event, Vec<u8>)>, Fail>
    ensures { IfOk result (λ events. CanAllCome (events_beside events.items)) }
{
    let mut events = Vec::new(alloc);
    for piece in coming {
        let event = event_of(alloc, *piece)?;
        add_event(event, &mut events)?;
    }
    Ok(events)
}

fn site_over(alloc: Global, outside: Outside<'_>) -> Result<MemorySite, Fail>
    ensures { IfOk result (λ s. s.attached ≡ false) }
{
    let mut fail = Vec::new(alloc);
    if let Some(number) = outside.call {
        fail.push(number)?;
    }
    let events = events_of(alloc, outside.coming)?;
    let image = outside.journal.to_vec(alloc)?;
    let site = MemorySite::new(alloc, image, events, ROOM, fail, outside.fuse);
    Ok(site?)
}

// Of each send its connection, a space and its bytes.
fn sent_by(alloc: Global, site: &MemorySite) -> Result<Vec<u8>, Fail> {
    let mut sent = Vec::new(alloc);
    for index in 0..site.sent_len() {
        let (conn, bytes) = site.sent_at(index);
        let conn = format!(in alloc; "{conn} ")?;
        sent.extend_from_slice(conn.as_bytes())?;
        sent.extend_from_slice(bytes)?;
    }
    Ok(sent)
}

// What is seen of a run that ended so, at its site.
fn served_at(alloc: Global, status: u8, site: &MemorySite) -> Result<Served, Fail> {
    let sent = sent_by(alloc, site)?;
    let journal = site.image().to_vec(alloc)?;
    Ok(Served {
        status,
        sent,
        journal,
    })
}

// A serve of `a - b` over the case's journal, in which `a` is asked for and confirmed.
fn serve(alloc: Global, case: Case, call: Option<u64>, fuse: Option<u64>) -> Result<Served, Fail> {
    let coming: [Coming<'_>; 2] = [(0, 100, b"ask a 50\n"), (0, 149, case.confirm)];
    let outside = Outside {
        journal: case.journal,
        coming: &coming,
        call,
        fuse,
    };
    let mut site = site_over(alloc, outside)?;
    let status = run_at(alloc, &SERVE, &mut site)?.status;
    served_at(alloc, status, &site)
}

// The status of the serve over no journal where the call of this number fails.
fn status_without(call: u64) -> u8 {
    match call {
        // The listen, and the three calls for an event.
        13 | 14 | 16 | 22 => 6,
        // The two sends, and the first number that no call has.
        15 | 21 | 23 => 0,
        _ => 5,
    }
}

// How that serve ends where the call of this number fails.
fn status_where(alloc: Global, call: u64) -> Result<u8, Fail> {
    let served = serve(alloc, OF_NOTHING, Some(call), None)?;
    Ok(served.status)
}

#[test]
fn each_call_of_a_serve_fails_in_turn(rt: HostRuntime) -> Result<(), Fail> {
    for call in 0..24 {
        assert_eq!(rt;
            status_where(rt.alloc(), call)?,
            status_without(call),
            "call {call}"
        );
    }
    Ok(())
}

// What a start from this journal puts.
fn put_from(alloc: Global, journal: &[u8]) -> Result<Vec<u8>, Fail> {
    let outside = Outside {
        journal,
        coming: &[],
        call: None,
        fuse: None,
    };
    let mut site = site_over(alloc, outside)?;
    Ok(run_at(alloc, &REPLAY, &mut site)?.bytes)
}

// Whether a start from the journal that was left finds the action, or finds none where no byte of
// `confirmed` was sent.
fn is_kept(alloc: Global, served: &Served, case: Case) -> Result<bool, Fail> {
    let put = put_from(alloc, &served.journal)?;
    let acknowledged = served.sent.as_slice().starts_with(case.confirmed);
    let is_without = put.as_slice() == case.without;
    Ok(put.as_slice() == case.with || (is_without && !acknowledged))
}

// Whether the serve, where all calls from this one on fail, leaves what it acknowledged, and
// whether it ends well.
fn keeps(alloc: Global, case: Case, fuse: u64) -> Result<(bool, bool), Fail> {
    let served = serve(alloc, case, None, Some(fuse))?;
    let kept = is_kept(alloc, &served, case)?;
    Ok((kept, served.status == 0))
}

#[test]
fn what_was_acknowledged_is_kept(rt: HostRuntime) -> Result<(), Fail> {
    for fuse in 0..24 {
        let seen = keeps(rt.alloc(), OF_NOTHING, fuse)?;
        assert_eq!(rt; seen, (true, fuse == 23), "fuse {fuse}");
    }
    Ok(())
}

#[test]
fn what_was_acknowledged_behind_a_renewal_is_kept(rt: HostRuntime) -> Result<(), Fail> {
    for fuse in 0..21 {
        let seen = keeps(rt.alloc(), OF_A_RENEWAL, fuse)?;
        assert_eq!(rt; seen, (true, fuse == 20), "fuse {fuse}");
    }
    Ok(())
}
