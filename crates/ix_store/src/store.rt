//! The store.

ghost use Rattle.std.specs.Prelude.{◌≡◌, ◌+◌, ◌<◌, ◌≤◌, ◌^◌, length};
ghost use Rattle.ix_journal.specs.Entries.{MayFollow, behind, pair_of, renewed_of};
ghost use Rattle.ix_journal.specs.Format.{farthest_gate};
ghost use Rattle.ix_journal.specs.declared.TheConstants.{MOST_RECORDS};
ghost use Rattle.ix_journal.specs.inside.Counting.{AreNotMany, AreSound, HasBootRoom};
ghost use Rattle.ix_journal.specs.inside.Writing.{CanBeWritten, entry_written};

use crate::begin::begin;
use crate::find::{Found, sync_and_find};
use crate::write::write_through;
use crate::{History, OpenFault};
use arrayvec::ArrayVec;
use ix_journal::{FRONT_LENGTH, Marks, OPEN, Record, Renewed, Version, record_bytes};
use ix_outside::{DiskFailed, Site};
use ix_values::{Action, Ticket};
use std::alloc::Global;

/// The place of the first closed gate of a site's journal, and what the records in front of it
/// leave. A store whose append or boot failed takes no other: the journal is to be opened again.
#[derive(Drop, Debug)]
pub struct Store {
    gate: u64,
    marks: Marks,
    failed: bool,
    ghost near: { gate ≤ farthest_gate marks },
    ghost few: { AreNotMany marks },
    ghost sound: { AreSound marks },
}

impl Store {
    ghost use Rattle.std.specs.Prelude.{ℕ, List, [], ◌∷◌, ◌++◌, true, false, Some};
    ghost use Rattle.std.specs.Prelude.{IfOk, IfErr, OnOk, All, is_err};
    ghost use Rattle.std.specs.Option.{ForSome};
    ghost use Rattle.ix_values.specs.Texts.{IsAction};
    ghost use Rattle.ix_journal.specs.Entries.{CanSpend};
    ghost use Rattle.ix_journal.specs.History.{PlainHistory, Spent};
    ghost use Rattle.ix_journal.specs.declared.entries.Entry.TheVariants as entry;
    ghost use Rattle.ix_outside.specs.Counts.{CountsFault};
    ghost use Rattle.ix_outside.specs.Crashes.{stretch_of};
    ghost use Rattle.ix_outside.specs.Disk.{MakesFile};
    ghost use Rattle.ix_outside.specs.inside.DiskCalls.{DiskCalls, LeavesOnly};
    ghost use Rattle.ix_store.specs.inside.Opens.{Opens};
    ghost use Rattle.ix_store.specs.inside.Keeping.{FitsFile, IsBootedOrNot, IsWithOrWithout};
    ghost use Rattle.ix_store.specs.inside.Keeping.{booted};
    ghost use Rattle.ix_store.specs.inside.KeptBy.{kept};
    ghost use Rattle.ix_store.specs.inside.Refusals.{RefusesFileAs};
    ghost use Rattle.ix_store.specs.inside.Starting.{CountsOpening, LeavesOnStart, MakesNew};
    ghost use Rattle.ix_store.specs.inside.Starting.{SettlesOpening};

    /// Opens the attached file as the journal of an expression with this text, and gives the
    /// history that it keeps, each action with the ticket that was spent on it where that is kept.
    /// A journal that was never opened is made anew: a gate, the header of the text and a closed
    /// gate. Any other file stays. No boot is written.
    ///
    /// What was left unsynced before is brought to the disk first. Then, in this order:
    /// - `NotJournal`: the file is no journal, nor the front of one;
    /// - `OtherExpression`: it keeps another text, whether it was opened or not;
    /// - `Damaged`: an open gate isn't followed by a whole record that may stand there and a
    ///   further gate, and no record in front of it makes too many;
    /// - `Many`: the 1,000,001st record of an action is open, or the 1,000,001st boot; or the
    ///   journal holds 1,000,000 boots.
    ///
    /// `Disk` comes where a call of the disk failed, and `Memory` where memory was wanted, both at
    /// any step. After them a journal that was to be made anew may be so in part; after any other
    /// answer nothing is left unsynced.
    pub fn start<S: Site>(
        alloc: Global,
        site: &mut S,
        text: &[u8],
    ) -> Result<(Store, History), OpenFault>
        requires attached { (S.state site.old).attached ≡ true }
        requires short { length text.now < 65536 }

        // What the file is, as it reads at the call.
        ensures opened { IfOk result (λ opened. ForSome (S.state site.old).disk (λ disk.
            Opens disk.file text.now opened.1 (kept opened.0).marks)) }
        ensures refused { IfErr result (λ fault. ForSome (S.state site.old).disk (λ disk.
            RefusesFileAs disk.file text.now fault)) }

        // The store and the history.
        ensures fits { IfOk result (λ opened. FitsFile (S.state site.new) (S.crashes site.new)
            (kept opened.0) text.now opened.1) }
        ensures works { IfOk result (λ opened. (kept opened.0).failed ≡ false) }
        ensures room { IfOk result (λ opened. HasBootRoom (kept opened.0).marks) }
        ensures valid { IfOk result
            (λ opened. All (λ (spent : Spent). IsAction spent.1) opened.1) }

        // What the disk is left with, whatever the answer.
        ensures made { OnOk result (MakesFile (MakesNew text.now)
            (S.state site.old).disk (S.state site.new).disk) }
        ensures settled { SettlesOpening result (S.state site.new).disk (S.crashes site.new).now }
        ensures images { ForSome (S.state site.old).disk (λ disk. LeavesOnStart text.now disk.file
            (stretch_of S.state S.crashes site.old site.new)) }
        ensures failed { CountsOpening result
            (S.state site.old).counts.disk (S.state site.new).counts.disk }
        ensures calls { DiskCalls (stretch_of S.state S.crashes site.old site.new) }
    {
        let found = sync_and_find(alloc, site, text)?;
        match found {
            Found::Journal(kept) => {
                let store = Store {
                    gate: kept.gate,
                    marks: kept.marks,
                    failed: false,
                };
                Ok((store, kept.history))
            }
            Found::New { head } => {
                begin(alloc, site, &head, Version::Started, text)?;
                let store = Store {
                    gate: (FRONT_LENGTH + text.len()) as u64,
                    marks: Marks::fresh(),
                    failed: false,
                };
                Ok((store, History::new(alloc)))
            }
        }
    }

    /// Appends the next boot to the journal, and gives its number: one more than that of the last
    /// boot, which behind a renewal goes on from those before it. After Ok it is kept.
    /// After a fault it may be kept or not, and the journal is to be opened again. The history
    /// stays as it is. No memory is taken.
    pub fn boot<S: Site>(&mut self, site: &mut S) -> Result<u64, DiskFailed>
        requires attached { (S.state site.old).attached ≡ true }
        requires works { (kept self.old).failed ≡ false }
        requires room { HasBootRoom (kept self.old).marks }
        requires fits { (text : List ℕ) × (history : PlainHistory)
            × FitsFile (S.state site.old) (S.crashes site.old) (kept self.old) text history }

        ensures number { IfOk result (λ number. number ≡ (kept self.old).marks.boots + 1) }
        ensures booted { OnOk result ((kept self.new).marks ≡ booted (kept self.old).marks) }
        ensures fits { OnOk result ((text : List ℕ) (history : PlainHistory)
            → FitsFile (S.state site.old) (S.crashes site.old) (kept self.old) text history
            → FitsFile (S.state site.new) (S.crashes site.new) (kept self.new) text history) }
        ensures works { (kept self.new).failed ≡ is_err result }

        // What the disk is left with, whatever the answer.
        ensures images { (text : List ℕ) (history : PlainHistory)
            → FitsFile (S.state site.old) (S.crashes site.old) (kept self.old) text history
            → ForSome (S.state site.old).disk (λ _.
            LeavesOnly (IsBootedOrNot text history (kept self.old).marks)
            (stretch_of S.state S.crashes site.old site.new)) }
        ensures failed { CountsFault result
            (S.state site.old).counts.disk (S.state site.new).counts.disk }
        ensures calls { DiskCalls (stretch_of S.state S.crashes site.old site.new) }
    {
        let number = self.marks.boots + 1;
        self.append_record(site, &Record::Boot(number))?;
        Ok(number)
    }

    /// Appends an action to the journal, with the ticket that is spent on it. After Ok both are
    /// kept. After a fault they may be kept or not, and the journal is to be opened again. The
    /// number of boots stays as it is. No memory is taken.
    pub fn append<S: Site>(
        &mut self,
        site: &mut S,
        ticket: Ticket,
        action: &Action,
    ) -> Result<(), DiskFailed>
        requires attached { (S.state site.old).attached ≡ true }
        requires works { (kept self.old).failed ≡ false }
        requires few { (kept self.old).marks.actions < MOST_RECORDS }
        requires spends { CanSpend (kept self.old).marks ticket }
        requires fits { (text : List ℕ) × (history : PlainHistory)
            × FitsFile (S.state site.old) (S.crashes site.old) (kept self.old) text history }

        ensures appended { OnOk result ((text : List ℕ) (history : PlainHistory)
            → FitsFile (S.state site.old) (S.crashes site.old) (kept self.old) text history
            → FitsFile (S.state site.new) (S.crashes site.new) (kept self.new) text
            (history ++ (Some ticket, action.now) ∷ [])) }
        ensures spent { OnOk result ((kept self.new).marks
            ≡ behind (kept self.old).marks (entry.Spent ticket action.now)) }
        ensures boots { (kept self.new).marks.boots ≡ (kept self.old).marks.boots }
        ensures works { (kept self.new).failed ≡ is_err result }

        // What the disk is left with, whatever the answer.
        ensures images { (text : List ℕ) (history : PlainHistory)
            → FitsFile (S.state site.old) (S.crashes site.old) (kept self.old) text history
            → ForSome (S.state site.old).disk (λ _. LeavesOnly
            (IsWithOrWithout text history (kept self.old).marks (entry.Spent ticket action.now))
            (stretch_of S.state S.crashes site.old site.new)) }
        ensures failed { CountsFault result
            (S.state site.old).counts.disk (S.state site.new).counts.disk }
        ensures calls { DiskCalls (stretch_of S.state S.crashes site.old site.new) }
    {
        self.append_record(site, &Record::Spent { ticket, action })
    }

    /// The number of the last boot of the journal: that of the file as it was read, and one more
    /// for each boot that was written since.
    pub fn boots(&self) -> u64
        ensures { result ≡ (kept self.now).marks.boots }
    {
        self.marks.boots
    }

    /// What the journal stands for besides its own records.
    pub fn renewed(&self) -> Renewed
        ensures value { result ≡ renewed_of (kept self.now).marks }
        ensures carried { result.carried ≤ result.actions }
        ensures actions { result.actions ≤ 2 ^ 63 }
    {
        self.marks.renewed()
    }

    /// Whether an append or a boot failed.
    pub fn has_failed(&self) -> bool
        ensures { result ≡ (kept self.now).failed }
    {
        self.failed
    }

    /// Appends a record that may stand behind those of the journal.
    fn append_record<S: Site>(
        &mut self,
        site: &mut S,
        written: &Record<'_>,
    ) -> Result<(), DiskFailed>
        requires attached { (S.state site.old).attached ≡ true }
        requires works { (kept self.old).failed ≡ false }
        requires few { AreNotMany (behind (kept self.old).marks (entry_written written.now)) }
        requires fits { CanBeWritten written.now }
        requires follows { MayFollow (kept self.old).marks (entry_written written.now) }
        requires journal { (text : List ℕ) × (history : PlainHistory)
            × FitsFile (S.state site.old) (S.crashes site.old) (kept self.old) text history }

        ensures appended { OnOk result ((text : List ℕ) (history : PlainHistory)
            → FitsFile (S.state site.old) (S.crashes site.old) (kept self.old) text history
            → FitsFile (S.state site.new) (S.crashes site.new) (kept self.new) text
            (history ++ pair_of (entry_written written.now))) }
        ensures marks { OnOk result ((kept self.new).marks
            ≡ behind (kept self.old).marks (entry_written written.now)) }
        ensures boots { IfErr result (λ _. (kept self.new).marks ≡ (kept self.old).marks) }
        ensures works { (kept self.new).failed ≡ is_err result }
        ensures images { (text : List ℕ) (history : PlainHistory)
            → FitsFile (S.state site.old) (S.crashes site.old) (kept self.old) text history
            → ForSome (S.state site.old).disk (λ _. LeavesOnly
            (IsWithOrWithout text history (kept self.old).marks (entry_written written.now))
            (stretch_of S.state S.crashes site.old site.new)) }
        ensures failed { CountsFault result
            (S.state site.old).counts.disk (S.state site.new).counts.disk }
        ensures calls { DiskCalls (stretch_of S.state S.crashes site.old site.new) }
    {
        let mut bytes = ArrayVec::new();
        record_bytes(written, &mut bytes);
        let gate = self.gate;
        self.failed = true;
        write_through(site, gate + 1, bytes.as_slice())?;
        // The record is on the disk before the gate in front of it is opened.
        write_through(site, gate, &[OPEN])?;
        let marks = self.marks.passed(&written.entry());
        self.gate = gate + bytes.len() as u64;
        self.marks = marks;
        self.failed = false;
        Ok(())
    }
}
