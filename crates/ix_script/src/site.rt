//! A script's events as a site, whose sends go to a sink and whose disk is that of another site.
ghost use Rattle.std.specs.Prelude.{◌≡◌};
ghost use Rattle.ix_script.specs.inside.Cursor.{left_of};
ghost use Rattle.ix_script.specs.inside.Progress.{events_of, left_by};
ghost use Rattle.ix_script.specs.lemmas.Sets.{events_equal};

use crate::cursor::Cursor;
use crate::put::put_send;
use crate::script::Script;
use ix_outside::{DiskFailed, Event, Failed, Gone, History, Sink, Site, WireFailed};

/// A site that gives the events of a script. What it sends goes to the sink that it was lent: the
/// connection's number, a space and the bytes. Its disk is that of the site that it was lent.
/// Contracts see it through `playing`, as one record.
#[derive(Drop)]
pub struct ScriptSite<'a, S, K> {
    pub(crate) cursor: Cursor<'a>,
    /// The lengths of the buffers that `next` was lent.
    pub(crate) rooms: History<usize>,
    pub(crate) site: &'a mut S,
    pub(crate) sink: &'a mut K,
    pub(crate) sink_failed: bool,
    ghost place: { left_by rooms.items (events_of cursor.bytes.now)
        ≡ left_of cursor } by { events_equal (left_by rooms.items (events_of cursor.bytes.now))
            (left_of cursor) },
}

impl<'a, S: Site, K: Sink> ScriptSite<'a, S, K> {
    ghost use Rattle.std.specs.Prelude.{◌<◌, ◌++◌, ◌∷◌, [], false, length};
    ghost use Rattle.ix_outside.specs.Contents.{piece_of};
    ghost use Rattle.ix_outside.specs.Event.{FitsBuffer};
    ghost use Rattle.ix_script.specs.inside.NextPiece.{IsNextPiece};
    ghost use Rattle.ix_script.specs.inside.Site.{playing};

    /// A site at the script's front.
    pub fn new(script: Script<'a>, site: &'a mut S, sink: &'a mut K) -> ScriptSite<'a, S, K>
        ensures script { (playing result).script ≡ script.entry }
        ensures given { (playing result).given ≡ [] }
        ensures site { (playing result).site ≡ site.old }
        ensures same_site { (playing result).site_loan ≡ site.entry.ghost_name }
        ensures sink { (playing result).sink ≡ sink.old }
        ensures same_sink { (playing result).sink_loan ≡ sink.entry.ghost_name }
        ensures sink_failed { (playing result).sink_failed ≡ false }
    {
        ScriptSite {
            cursor: Cursor::new(script),
            rooms: History::new(),
            site,
            sink,
            sink_failed: false,
        }
    }

    /// Whether a send answered Gone.
    pub fn sink_failed(&self) -> bool
        ensures { result ≡ (playing self.now).sink_failed }
    {
        self.sink_failed
    }

    /// The script's next event, whose bytes stand at the front of `buf`. A piece that is longer
    /// than the buffer comes as several events. After the last line the end comes, again and again.
    pub fn next_event(&mut self, buf: &mut [u8]) -> Event
        requires { 0 < length buf.old }
        ensures fits { FitsBuffer (length buf.old) result }
        ensures given { (playing self.new).given ≡ (playing self.old).given
            ++ record { event = result; bytes = piece_of result.kind buf.new } ∷ [] }
        ensures next { IsNextPiece (length buf.old) (playing self.old).script
            (playing self.old).given
            (record { event = result; bytes = piece_of result.kind buf.new }) }
        ensures rest { playing self.new
            ≡ record (playing self.old) { given = (playing self.new).given } }
    {
        let room = buf.len();
        let event = self.cursor.next(buf);
        self.rooms = self.rooms.and(&room);
        event
    }
}

impl<'a, S: Site, K: Sink> Site for ScriptSite<'a, S, K> {
    ghost use Rattle.std.specs.Prelude.{◌<◌, length, IfOk, OnErr, Some, None, refl};
    ghost use Rattle.ix_outside.specs.Contents.{Gives, piece_of};
    ghost use Rattle.ix_outside.specs.Counts.{Rose};
    ghost use Rattle.ix_outside.specs.Crashes.{LeavesTheSame, OneCall, stretch_of};
    ghost use Rattle.ix_outside.specs.Event.{FitsBuffer};
    ghost use Rattle.ix_outside.specs.Loans.{free, lent, reads, unused_wire};
    ghost use Rattle.ix_outside.specs.SiteState.{OnlyWire};
    ghost use Rattle.ix_script.specs.inside.NextPiece.{IsNextPiece};
    ghost use Rattle.ix_script.specs.inside.WithoutSends.{without_sends};
    ghost use Rattle.ix_script.specs.lemmas.OtherDisk.{lawful_without_sends};
    ghost use Rattle.ix_script.specs.inside.Site.{playing};

    // The disk is that of the lent site, and its calls alone are ticks; the wire is the script, and
    // the sends are the sink's puts.
    ghost state = { λ it. record {
      counts = record {
        disk = (S.state (playing it).site).counts.disk;
        wire = 0;
        send = (K.state (playing it).sink).faults;
      };
      attached = (S.state (playing it).site).attached;
      tick = (S.state (playing it).site).tick;
      contents = record {
        given = Some (playing it).given;
        sends = None;
        text = (K.state (playing it).sink).written;
        lost = Some (playing it).sink_failed;
      };
      disk = (S.state (playing it).site).disk;
      held = reads (playing it).script
          (unused_wire (S.state (playing it).site).counts.wire
          (S.state (playing it).site).counts.send
          (S.state (playing it).site).contents
          (lent (playing it).site_loan (S.state (playing it).site).held
          (lent (playing it).sink_loan (K.state (playing it).sink).held free)));
    } };

    ghost crashes = { λ it. without_sends (S.crashes (playing it).site) };

    ghost lawful = { λ it. lawful_without_sends (S.state (playing it).site) _
        (S.crashes (playing it).site) refl refl refl refl (S.lawful (playing it).site) };

    fn listen(&mut self, _name: &str) -> Result<(), WireFailed> {
        Ok(())
    }

    /// The script's next event. Its bytes are as many as the buffer takes, or the last of a piece.
    fn next(&mut self, buf: &mut [u8]) -> Result<Event, WireFailed>
        requires { 0 < length buf.old }
        ensures next { IfOk result (λ event. IsNextPiece (length buf.old)
            (playing self.old).script (playing self.old).given
            (record { event = event; bytes = piece_of event.kind buf.new })) }

        ensures event { IfOk result (FitsBuffer (length buf.old)) }
        ensures failed { OnErr result (Rose (⟦<Self as Site>⟧.state self.old).counts.wire
            (⟦<Self as Site>⟧.state self.new).counts.wire) }
        ensures contents { Gives buf.new result (⟦<Self as Site>⟧.state self.old).contents
            (⟦<Self as Site>⟧.state self.new).contents }
        ensures now { LeavesTheSame (⟦<Self as Site>⟧.crashes self.old).now
            (⟦<Self as Site>⟧.crashes self.new).now }
        ensures call { OneCall (stretch_of ⟦<Self as Site>⟧.state ⟦<Self as Site>⟧.crashes
            self.old self.new) }
        ensures rest { OnlyWire (⟦<Self as Site>⟧.state self.old)
            (⟦<Self as Site>⟧.state self.new) }
    {
        Ok(self.next_event(buf))
    }

    fn send(&mut self, conn: u8, bytes: &[u8]) -> Result<(), Gone> {
        match put_send(self.sink, conn, bytes) {
            Ok(()) => Ok(()),
            Err(Failed) => {
                self.sink_failed = true;
                Err(Gone)
            }
        }
    }

    fn attach(&mut self, name: &str) -> Result<(), DiskFailed> {
        self.site.attach(name)
    }

    fn length(&mut self) -> Result<u64, DiskFailed> {
        self.site.length()
    }

    fn read_at(&mut self, at: u64, buf: &mut [u8]) -> Result<usize, DiskFailed> {
        self.site.read_at(at, buf)
    }

    fn write_at(&mut self, at: u64, bytes: &[u8]) -> Result<(), DiskFailed> {
        self.site.write_at(at, bytes)
    }

    fn cut(&mut self, length: u64) -> Result<(), DiskFailed> {
        self.site.cut(length)
    }

    fn sync(&mut self) -> Result<(), DiskFailed> {
        self.site.sync()
    }
}
