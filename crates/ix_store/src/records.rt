//! The records of a file, read in pieces.

ghost use Rattle.std.specs.Prelude.{◌≡◌, ◌^◌, ◌<◌, ◌≤◌, ◌++◌, true, false, length, IfOk, IfErr};
ghost use Rattle.std.specs.Prelude.{OnOk, MatchResult};
ghost use Rattle.ix_outside.specs.Counts.{CountsFault};
ghost use Rattle.ix_outside.specs.Crashes.{stretch_of};
ghost use Rattle.ix_outside.specs.Disk.{OfFile};
ghost use Rattle.ix_journal.specs.Entries.{fresh, pair_of};
ghost use Rattle.ix_journal.specs.Format.{farthest_gate};
ghost use Rattle.ix_store.specs.inside.Reading.{HasFront, ReadsOn, OnlyReads};
ghost use Rattle.ix_store.specs.inside.Starting.{CountsOpening};
ghost use Rattle.ix_store.specs.inside.Steps.{ClosesWith, IsSoundly, StopsReading};

use crate::{History, OpenFault};
use ix_journal::{Entry, Marks, SLIDE_ROOM, Slid, Slide};
use ix_outside::{DiskFailed, Site};
use std::alloc::{AllocError, Global};

/// What the open records of a ready file tell, and the place of its first closed gate.
#[derive(Drop)]
pub(crate) struct Kept {
    pub(crate) history: History,
    pub(crate) gate: u64,
    pub(crate) marks: Marks,
}

/// What the open records tell from this gate on of a file that begins with `head`, and the place of
/// the first closed gate. The file is read in pieces, and none of it is kept but the actions with
/// their tickets.
pub(crate) fn read_records<S: Site>(
    alloc: Global,
    site: &mut S,
    head: &[u8],
    first: usize,
) -> Result<Kept, OpenFault>
    requires attached { (S.state site.old).attached ≡ true }
    requires within { first < length head.now }
    requires near { first ≤ farthest_gate fresh }
    requires head { OfFile (HasFront head.now) (S.state site.old).disk }
    ensures file { MatchResult result
        (λ kept. OfFile (λ file. ClosesWith file first kept.history kept.marks kept.gate)
        (S.state site.old).disk)
        (λ fault. OfFile (StopsReading first fault) (S.state site.old).disk) }
    ensures sound { IfOk result
        (λ kept. IsSoundly kept.history kept.marks kept.gate) }
    ensures reads { OnlyReads (stretch_of S.state S.crashes site.old site.new) }
    ensures failed { CountsOpening result
        (S.state site.old).counts.disk (S.state site.new).counts.disk }
{
    let mut slide = Slide::new(first as u64);
    let mut at = (first + slide.take(&head[first..])) as u64;
    let mut history = History::new(alloc);
    'records: loop {
        match slide.next() {
            Slid::More => at = feed(site, &mut slide, at)?,
            Slid::Record(text) => {
                let entry = Entry::of_text(text);
                if slide.marks().are_many() {
                    return Err(OpenFault::Many);
                }
                keep(&mut history, entry)?;
            }
            Slid::Closed { gate } => {
                let marks = slide.marks();
                return Ok(Kept {
                    history,
                    gate,
                    marks,
                });
            }
            Slid::Damaged { at } => return Err(OpenFault::Damaged { at: at as usize }),
        }
    }
}

/// Keeps an action that a record tells behind those of the history, with its ticket.
fn keep(history: &mut History, entry: Entry) -> Result<(), AllocError>
    ensures { OnOk result (history.new ≡ history.old ++ pair_of entry) }
{
    match entry {
        Entry::Renewed { .. } | Entry::Boot(_) => Ok(()),
        Entry::Spent { ticket, action } => history.push(Some(ticket), action),
        Entry::Plain(action) => history.push(None, action),
    }
}

/// Reads the next bytes of the file into the slide, or tells it that there are no more, and gives
/// the place behind those that it took.
fn feed<S: Site>(site: &mut S, slide: &mut Slide, at: u64) -> Result<u64, DiskFailed>
    requires attached { (S.state site.old).attached ≡ true }
    requires going { slide.old.ended ≡ false }
    requires some { 0 < length slide.old.bytes }
    requires room { length slide.old.bytes < SLIDE_ROOM }
    requires place { at < 2 ^ 63 }
    ensures fed { IfOk result
        (λ next. ReadsOn (S.state site.old).disk at slide.old next slide.new) }
    ensures reads { OnlyReads (stretch_of S.state S.crashes site.old site.new) }
    ensures failed { CountsFault result
        (S.state site.old).counts.disk (S.state site.new).counts.disk }
{
    let mut piece = [0; SLIDE_ROOM];
    let count = site.read_at(at, &mut piece)?;
    if count == 0 {
        slide.ended();
        return Ok(at);
    }
    let taken = slide.take(&piece[..count]);
    Ok(at + taken as u64)
}
