//! The manager of a site's connections.

ghost use Rattle.std.specs.Prelude.{◌≡◌, ◌⊎◌, ℕ, ◌+◌, ◌-◌, ◌^◌, ◌<◌, ◌≤◌, Bool, false, true, []};
ghost use Rattle.std.specs.Prelude.{length};
ghost use Rattle.std.specs.Prelude.{get_or, set, replicate, Err, IfOk, OnOk, OnErr};
ghost use Rattle.std.specs.List.{zip};
ghost use Rattle.std.specs.Option.{ForSome};
ghost use Rattle.ix_expr.specs.CanonicalText.{canonical_text};
ghost use Rattle.ix_outside.specs.Counts.{CountsFault, Rose};
ghost use Rattle.ix_outside.specs.Crashes.{Passes, stretch_of};
ghost use Rattle.ix_outside.specs.inside.DiskCalls.{DiskCalls, LeavesOnly};
ghost use Rattle.ix_store.specs.inside.Keeping.{FitsFile, IsBootedOrNot};
ghost use Rattle.ix_store.specs.inside.KeptBy.{kept};
ghost use Rattle.ix_manager.specs.inside.Saving.{FitsJournal};
ghost use Rattle.ix_journal.specs.Entries.{renewed_of};
ghost use Rattle.ix_journal.specs.inside.Counting.{HasBootRoom};
ghost use Rattle.ix_can.specs.TreeOf.{tree_size};
ghost use Rattle.ix_step.specs.inside.Limits.{most_size};
ghost use Rattle.ix_lines.specs.Feeding.{unfinished};
ghost use Rattle.ix_manager.specs.Handled.{FitsEvent, started};
ghost use Rattle.ix_manager.specs.inside.StartAnswers.{StartsFrom, StartLeaves};
ghost use Rattle.ix_manager.specs.Machine.{count, start_of, word_of};
ghost use Rattle.ix_manager.specs.Runs.{opening_of};
ghost use Rattle.ix_manager.specs.inside.OverSite.{FitsSite, HandlesOver, OnlyServes};
ghost use Rattle.ix_manager.specs.inside.Over.{OverRun};
ghost use Rattle.ix_manager.specs.inside.TakenItems.{TakesBytes};
ghost use Rattle.ix_manager.specs.inside.WireState.{wire_stretch};

use crate::answering::{Piece, take_piece};
use crate::journaled::Journaled;
use crate::machine::Machine;
use crate::{Go, StartFault, Stop};
use ix_engine::Engine;
use ix_expr::Expression;
use ix_lines::Lines;
use ix_outside::{DiskFailed, Event, EventKind, Site};
use ix_store::Store;
use ix_text::text;
use ix_values::{Action, Ticket};
use std::alloc::{AllocError, Global};
use std::marker::Model;

/// How many connections there are: 0 to 63.
pub(crate) const CONNECTIONS: usize = 64;

/// The protocol machine with its journal, and of each connection its unfinished line and whether
/// it is marked as gone.
#[derive(Drop)]
pub struct Manager {
    journaled: Journaled,
    lines: Vec<Lines>,
    marks: [bool; CONNECTIONS],
    ended: bool,
}

impl Model for Manager {
    ghost use Rattle.ix_store.specs.inside.KeptBy.{kept};
    ghost use Rattle.ix_manager.specs.Handled.{ManagerState};
    ghost use Rattle.ix_expr.specs.lemmas.FormCode.{form_code};
    ghost use Rattle.std.specs.Coded.{codes};

    ghost Value = { ManagerState };

    ghost coded = { Prim.hlevel (codes, form_code) };

    ghost view = { λ m. record {
      form = m.journaled.machine.form;
      limit = m.journaled.machine.limit;
      machine = m.journaled.machine.state;
      store = kept m.journaled.store;
      lines = m.lines.items;
      marks = m.marks;
      ended = m.ended;
    } };

    ghost use Rattle.ix_manager.specs.inside.Clean.{AreClean};

    ghost invariant = { λ m. AreClean m.lines.items };
}

impl Manager {
    /// Starts the manager of an expression from the attached file, which is its journal: the
    /// history is the one that the file recovers, and the boot is one more than the boots that it
    /// holds. A journal that is unfinished or was never opened is made anew. Last of all, once
    /// nothing else can refuse, the boot is recorded; no other file is changed. The limit, 1 to
    /// 1,000,000, is the most that the Size of the history's tree may be.
    ///
    /// The faults are met in their order, but `Disk` and `Memory` at any step; where the initial
    /// tree is above the limit, no call of the site is made. After these two a journal that was to
    /// be made anew may be so in part. No boot is recorded but after Ok, and maybe after `Disk`.
    pub fn start<S: Site>(
        alloc: Global,
        site: &mut S,
        expression: Expression,
        limit: usize,
    ) -> Result<Manager, StartFault>
        requires least { 1 ≤ limit }
        requires most { limit ≤ most_size }
        requires attached { (S.state site.old).attached ≡ true }

        // What the manager goes on from, or why none is started, by the file as it read.
        ensures large { limit < tree_size expression []
            → ((result ≡ Err (StartFault.Large limit)) ⊎ (result ≡ Err StartFault.Memory))
            × (S.state site.new ≡ S.state site.old) }
        ensures only_large { (l : ℕ) → result ≡ Err (StartFault.Large l)
            → (l ≡ limit) × (limit < tree_size expression []) }
        ensures not_large { tree_size expression [] ≤ limit → ForSome (S.state site.old).disk
            (λ disk. StartsFrom expression limit disk.file result) }
        ensures starts { IfOk result (λ m. m
            ≡ started (opening_of expression limit m.machine.history m.machine.renewed
            m.machine.boot) m.store) }
        ensures fits { IfOk result (λ m. FitsSite m (S.state site.new) (S.crashes site.new)) }
        ensures failed { result ≡ Err StartFault.Disk
            → Rose (S.state site.old).counts.disk (S.state site.new).counts.disk }

        // What the disk is left with, whatever the answer.
        ensures leaves { ForSome (S.state site.old).disk (λ disk.
            StartLeaves expression limit disk.file result
            (stretch_of S.state S.crashes site.old site.new)) }
        ensures calls { DiskCalls (stretch_of S.state S.crashes site.old site.new) }
    {
        let text = text(alloc, &expression)?;
        let engine = Engine::new(alloc, expression, limit)?;
        let lines = all_lines(alloc)?;
        let (store, history) = Store::start(alloc, site, &text)?;
        let (tickets, actions) = history.into_parts();
        let engine = engine.resume(alloc, actions)?;
        let journaled = start_machine(alloc, site, store, engine, tickets)?;
        Ok(Manager {
            journaled,
            lines,
            marks: [false; CONNECTIONS],
            ended: false,
        })
    }

    /// Takes an event with its bytes: raises the moment, handles each line that the bytes complete,
    /// in order, and sends its replies. After a line `stop` the rest of the bytes is dropped, and
    /// `Stopped` is the answer. Closing a connection drops its unfinished line and its mark. A
    /// reply whose `send` answers Gone marks its connection; further lines of it are handled, and
    /// their replies aren't sent, until it is closed. A reservation outlives its connection.
    ///
    /// An action is in the journal before its confirm is answered: what a crash leaves, at whatever
    /// moment, keeps each action of whose confirm's reply a byte was sent. Where the disk fails,
    /// the history stays, `refused 91 disk` is the reply, no further line is handled, and
    /// `Stop::Disk` is the answer.
    pub fn handle<S: Site>(
        &mut self,
        alloc: Global,
        event: Event,
        bytes: &[u8],
        site: &mut S,
    ) -> Result<Go, Stop>
        requires going { self.old.ended ≡ false }
        requires tickets { self.old.machine.number < 2 ^ 63 }
        requires event { FitsEvent event bytes.now }
        requires attached { (S.state site.old).attached ≡ true }
        requires fits { FitsSite self.old (S.state site.old) (S.crashes site.old) }

        // The machine takes the event, its replies are sent, the journal keeps its history, and
        // whatever a crash leaves keeps what was acknowledged by then.
        ensures handles { HandlesOver self.old event bytes.now result self.new
            (stretch_of S.state S.crashes site.old site.new) }
        ensures failed { OnErr result
            (Rose (S.state site.old).counts.disk (S.state site.new).counts.disk) }
        ensures fits { OnOk result (FitsSite self.new (S.state site.new) (S.crashes site.new)) }

        // A connection is newly marked only where the count of sends rose.
        ensures marks { (conn : ℕ)
            → get_or self.old.marks conn false ≡ false → get_or self.new.marks conn false ≡ true
            → Rose (S.state site.old).counts.send (S.state site.new).counts.send }
        ensures tickets { self.new.machine.number ≤ self.old.machine.number + length bytes.now }
        ensures passes { Passes (stretch_of S.state S.crashes site.old site.new) }
        ensures site { OnlyServes (S.state site.old) (S.state site.new) }
    {
        self.journaled.machine.raise(event.moment);
        match event.kind {
            EventKind::Bytes(_) => self.take_bytes(alloc, event.conn, bytes, site),
            EventKind::Closed => {
                self.close(event.conn);
                Ok(Go::More)
            }
            EventKind::End => Ok(Go::More),
        }
    }

    /// Takes bytes of a connection, to their end or through the line that ends the run, and answers
    /// each item that they complete.
    fn take_bytes<S: Site>(
        &mut self,
        alloc: Global,
        conn: u8,
        bytes: &[u8],
        site: &mut S,
    ) -> Result<Go, Stop>
        requires connection { conn < 64 }
        requires tickets { self.old.machine.number + length bytes.now < 2 ^ 64 - 1 }
        requires attached { (S.state site.old).attached ≡ true }
        requires fits { FitsSite self.old (S.state site.old) (S.crashes site.old) }
        ensures takes { OverRun (TakesBytes conn bytes.now) result self.old self.new
            (wire_stretch (get_or self.old.marks conn false) false
            (stretch_of S.state S.crashes site.old site.new)) }
        ensures tickets { self.new.machine.number ≤ self.old.machine.number + length bytes.now }
    {
        let index = usize::from(conn);
        let mut gone = self.marks[index];
        let lines = &mut self.lines[index];
        let piece = Piece { conn, bytes };
        let outcome = take_piece(alloc, &mut self.journaled, lines, &mut gone, piece, site);
        self.marks[index] = gone;
        self.ended = match outcome {
            Ok(Go::More) => false,
            Ok(Go::Stopped) | Err(_) => true,
        };
        outcome
    }

    fn close(&mut self, conn: u8)
        requires { conn < 64 }
        ensures { self.new ≡ record self.old {
          lines = set self.old.lines conn (unfinished []);
          marks = set self.old.marks conn false;
        } }
    {
        let index = usize::from(conn);
        self.lines[index].clear();
        self.marks[index] = false;
    }

    /// Whether `stop` came, or a confirm failed. Then no further event may be handled.
    pub fn ended(&self) -> bool
        ensures { result ≡ self.now.ended }
    {
        self.ended
    }

    /// The confirmed actions, the oldest first.
    pub fn history(&self) -> &[Action]
        ensures { result.now ≡ word_of self.now.machine }
    {
        self.journaled.machine.history()
    }

    /// How many actions were confirmed: those of the journals before, which the carried ones stand
    /// for, among them.
    pub fn count(&self) -> u64
        ensures { result ≡ count self.now.machine }
    {
        self.journaled.machine.count()
    }

    /// The number of the next ticket, which is 1 at the start.
    pub fn tickets(&self) -> u64
        ensures { result ≡ self.now.machine.number }
    {
        self.journaled.machine.number()
    }
}

/// Records the boot, and starts the machine of an engine with the tickets of its actions in it.
fn start_machine<S: Site>(
    alloc: Global,
    site: &mut S,
    mut store: Store,
    engine: Engine,
    tickets: Vec<Option<Ticket>>,
) -> Result<Journaled, DiskFailed>
    requires each { length tickets.items ≡ length engine.history }
    requires attached { (S.state site.old).attached ≡ true }
    requires works { (kept store).failed ≡ false }
    requires room { HasBootRoom (kept store).marks }
    requires fits { FitsFile (S.state site.old) (S.crashes site.old) (kept store)
        (canonical_text engine.form) (zip tickets.items engine.history) }
    ensures starts { IfOk result (λ j. j.machine ≡ record {
      form = engine.form;
      limit = engine.limit;
      state = start_of (zip tickets.items engine.history) (renewed_of (kept store).marks)
          ((kept store).marks.boots + 1);
      noted = [];
    }) }
    ensures fits { IfOk result (λ j. FitsJournal j (S.state site.new) (S.crashes site.new)) }
    ensures images { ForSome (S.state site.old).disk (λ _. LeavesOnly
        (IsBootedOrNot (canonical_text engine.form) (zip tickets.items engine.history)
        (kept store).marks) (stretch_of S.state S.crashes site.old site.new)) }
    ensures failed { CountsFault result
        (S.state site.old).counts.disk (S.state site.new).counts.disk }
    ensures calls { DiskCalls (stretch_of S.state S.crashes site.old site.new) }
{
    let renewed = store.renewed();
    let boot = store.boot(site)?;
    let machine = Machine::new(alloc, engine, tickets, renewed, boot);
    Ok(Journaled { machine, store })
}

fn all_lines(alloc: Global) -> Result<Vec<Lines>, AllocError>
    ensures { IfOk result (λ lines. lines.items ≡ replicate 64 (unfinished [])) }
{
    let mut lines = Vec::with_capacity(alloc, CONNECTIONS)?;
    for _made in 0..CONNECTIONS {
        lines.push(Lines::new())?;
    }
    Ok(lines)
}
