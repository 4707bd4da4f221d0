//! Answers what a connection's bytes complete.

ghost use Rattle.std.specs.Prelude.{◌≡◌, ◌+◌, ◌-◌, ◌^◌, ◌<◌, ◌≤◌, length, Ok};
ghost use Rattle.ix_lines.specs.Items.{line as line_item};
ghost use Rattle.ix_lines.specs.Feeding.{completes, holds_after};
ghost use Rattle.ix_manager.specs.inside.Clean.{IsClean};
ghost use Rattle.ix_manager.specs.inside.Saving.{FitsJournal};
ghost use Rattle.ix_manager.specs.inside.Over.{OverJournal};
ghost use Rattle.ix_manager.specs.inside.WireState.{IsPlain, wire_stretch};
ghost use Rattle.ix_manager.specs.inside.WireState.{AnswersRequest, AnswersItem, AnswersItems};
ghost use Rattle.ix_manager.specs.inside.TakenItems.{TakesItem};
ghost use Rattle.ix_proto.specs.declared.request.Request.TheVariants.{Confirm};
ghost use Rattle.ix_outside.specs.Crashes.{stretch_of};

use crate::journaled::Journaled;
use crate::machine::Answer;
use crate::refusals::{Refusal, refused};
use crate::sending::{send_changes, send_reply};
use crate::{Go, Stop};
use ix_lines::{FedKind, Lines};
use ix_outside::Site;
use ix_proto::{Reply, Request};
use ix_values::Ticket;
use std::alloc::Global;

/// Bytes of a connection.
#[derive(Clone, Copy)]
pub(crate) struct Piece<'a> {
    pub(crate) conn: u8,
    pub(crate) bytes: &'a [u8],
}

/// An item of a piece was answered.
#[derive(Clone, Copy)]
pub(crate) struct Taken {
    /// How many bytes of the piece were taken.
    pub(crate) used: usize,
    pub(crate) go: Go,
}

/// Takes a piece to its end, or through the line that ends the run, and answers each item that it
/// completes.
pub(crate) fn take_piece<S: Site>(
    alloc: Global,
    journaled: &mut Journaled,
    lines: &mut Lines,
    gone: &mut bool,
    piece: Piece<'_>,
    site: &mut S,
) -> Result<Go, Stop>
    requires clean { IsClean lines.old }
    requires tickets { journaled.old.machine.state.number + length piece.bytes.now < 2 ^ 64 - 1 }
    requires fits { FitsJournal journaled.old (S.state site.old) (S.crashes site.old) }

    ensures answers { OverJournal
        (AnswersItems piece.entry.conn (completes lines.old piece.entry.bytes.now)) result
        journaled.old journaled.new
        (wire_stretch gone.old gone.new (stretch_of S.state S.crashes site.old site.new)) }
    ensures lines { result ≡ Ok Go.More → lines.new ≡ holds_after lines.old piece.entry.bytes.now }
    ensures clean { IsClean lines.new }
    ensures tickets { journaled.new.machine.state.number
        ≤ journaled.old.machine.state.number + length piece.entry.bytes.now }
{
    let conn = piece.conn;
    let mut rest = piece.bytes;
    'items: loop {
        let piece = Piece { conn, bytes: rest };
        match take_item(alloc, journaled, lines, gone, piece, site) {
            Ok(Some(taken)) => {
                if let Go::Stopped = taken.go {
                    return Ok(Go::Stopped);
                }
                rest = &rest[taken.used..];
            }
            Ok(None) => return Ok(Go::More),
            Err(stop) => return Err(stop),
        }
    }
}

/// Takes a piece through the first item that it completes, which is answered, or to its end.
fn take_item<S: Site>(
    alloc: Global,
    journaled: &mut Journaled,
    lines: &mut Lines,
    gone: &mut bool,
    piece: Piece<'_>,
    site: &mut S,
) -> Result<Option<Taken>, Stop>
    requires tickets { journaled.old.machine.state.number < 2 ^ 64 - 1 }
    requires fits { FitsJournal journaled.old (S.state site.old) (S.crashes site.old) }
    ensures { TakesItem piece.entry.conn lines.old piece.entry.bytes.now result lines.new
        journaled.old journaled.new
        (wire_stretch gone.old gone.new (stretch_of S.state S.crashes site.old site.new)) }
{
    let fed = lines.feed(piece.bytes);
    let used = fed.used;
    match fed.kind {
        FedKind::Line(line) => {
            match answer_line(alloc, journaled, piece.conn, gone, line, site) {
                Ok(go) => Ok(Some(Taken { used, go })),
                Err(stop) => Err(stop),
            }
        }
        FedKind::TooLong => {
            send_reply(site, piece.conn, gone, &refused(Refusal::LineTooLong));
            Ok(Some(Taken { used, go: Go::More }))
        }
        FedKind::More => Ok(None),
    }
}

fn answer_line<S: Site>(
    alloc: Global,
    journaled: &mut Journaled,
    conn: u8,
    gone: &mut bool,
    line: &[u8],
    site: &mut S,
) -> Result<Go, Stop>
    requires tickets { journaled.old.machine.state.number < 2 ^ 64 - 1 }
    requires fits { FitsJournal journaled.old (S.state site.old) (S.crashes site.old) }
    ensures { OverJournal (AnswersItem conn (line_item line.now)) result journaled.old journaled.new
        (wire_stretch gone.old gone.new (stretch_of S.state S.crashes site.old site.new)) }
{
    match Request::read(line) {
        Ok(request) => answer_request(alloc, journaled, conn, gone, &request, site),
        Err(fault) => {
            send_reply(
                site,
                conn,
                gone,
                &refused(Refusal::NoRequest { code: fault.code }),
            );
            Ok(Go::More)
        }
    }
}

fn answer_request<S: Site>(
    alloc: Global,
    journaled: &mut Journaled,
    conn: u8,
    gone: &mut bool,
    request: &Request<'_>,
    site: &mut S,
) -> Result<Go, Stop>
    requires tickets { journaled.old.machine.state.number < 2 ^ 64 - 1 }
    requires plain { IsPlain request.now }
    requires fits { FitsJournal journaled.old (S.state site.old) (S.crashes site.old) }
    ensures { OverJournal (AnswersRequest conn request.now) result journaled.old journaled.new
        (wire_stretch gone.old gone.new (stretch_of S.state S.crashes site.old site.new)) }
{
    match journaled.machine.answer(alloc, request) {
        Answer::One(reply) => {
            send_reply(site, conn, gone, &reply);
            Ok(Go::More)
        }
        Answer::Poll(name) => {
            send_changes(site, conn, gone, &journaled.machine, &name);
            journaled.machine.tell(&name);
            Ok(Go::More)
        }
        Answer::Confirm(ticket) => answer_confirm(journaled, conn, gone, ticket, site),
        Answer::Stop => {
            send_reply(site, conn, gone, &Reply::Stopping);
            Ok(Go::Stopped)
        }
    }
}

/// Answers a confirm. Where the disk fails, that is its reply, and the run ends.
fn answer_confirm<S: Site>(
    journaled: &mut Journaled,
    conn: u8,
    gone: &mut bool,
    ticket: Ticket,
    site: &mut S,
) -> Result<Go, Stop>
    requires fits { FitsJournal journaled.old (S.state site.old) (S.crashes site.old) }
    ensures { OverJournal (AnswersRequest conn (Confirm ticket)) result journaled.old journaled.new
        (wire_stretch gone.old gone.new (stretch_of S.state S.crashes site.old site.new)) }
{
    match journaled.confirm(ticket, site) {
        Ok(reply) => {
            send_reply(site, conn, gone, &reply);
            Ok(Go::More)
        }
        Err(stop) => {
            send_reply(site, conn, gone, &refused(Refusal::Disk));
            Err(stop)
        }
    }
}
