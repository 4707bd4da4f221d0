//! The open records of a journal, one after another.

ghost use Rattle.std.specs.Prelude.{◌≡◌, ◌+◌, ◌<◌, ◌^◌, length, MatchOption};
ghost use Rattle.ix_journal.specs.Entries.{MayFollow, behind, entry_text};
ghost use Rattle.ix_journal.specs.Records.{BeginsWithRecord};
ghost use Rattle.ix_journal.specs.declared.entries.Entry.{Entry};

use crate::OPEN;
use crate::entries::{Marks, read_entry};
use crate::header::whole_text;

/// The place behind an open gate that no whole record with a further gate follows, or none that may
/// stand there.
#[derive(Clone, Copy, Debug, PartialEq, Eq)]
pub struct Damaged {
    pub at: usize,
}

/// The texts of the open records from the first gate on, up to the first closed gate. Where an open
/// gate isn't followed by a whole record that may stand there and a further gate, the last item is
/// `Damaged`.
///
/// The texts are lent from the bytes. No memory is taken.
#[derive(Clone, Copy, Debug)]
pub struct Records<'a> {
    bytes: &'a [u8],
    gate: usize,
    marks: Marks,
    damaged: bool,
    ghost within: { gate < length bytes.now },
    ghost counted: { marks.actions + length bytes.now < gate + 2 ^ 64 },
}

impl<'a> Records<'a> {
    ghost use Rattle.ix_journal.specs.Answers.{at_gate};
    ghost use Rattle.ix_journal.specs.Entries.{fresh};
    ghost use Rattle.ix_journal.specs.inside.Answers.{standing};

    /// The records from the gate at this place on, with none in front of it.
    pub fn new(bytes: &'a [u8], gate: usize) -> Records<'a>
        requires { gate < length bytes.now }
        ensures { standing result ≡ at_gate bytes.now gate fresh }
    {
        Records::behind(bytes, gate, Marks::fresh())
    }

    /// The records from the gate at this place on, behind records that leave these marks.
    pub(crate) fn behind(bytes: &'a [u8], gate: usize, marks: Marks) -> Records<'a>
        requires within { gate < length bytes.now }
        requires counted { marks.actions + length bytes.now < gate + 2 ^ 64 }
        ensures { standing result ≡ at_gate bytes.now gate marks }
    {
        Records {
            bytes,
            gate,
            marks,
            damaged: false,
        }
    }

    /// The place of the gate that the records stand at: behind the record that was given last, and
    /// after `None` or `Damaged` the gate at which they ended.
    pub fn gate(&self) -> usize
        ensures place { result ≡ (standing self.now).gate }
        ensures within { result < length (standing self.now).bytes }
    {
        self.gate
    }

    /// What the records in front of this gate leave.
    pub fn marks(&self) -> Marks
        ensures { result ≡ (standing self.now).marks }
    {
        self.marks
    }
}

impl<'a> Iterator for Records<'a> {
    ghost use Rattle.ix_journal.specs.Answers.{GivesRecord};
    ghost use Rattle.ix_journal.specs.inside.Answers.{standing, items_left};

    type Item = Result<&'a [u8], Damaged>;

    ghost next_gives = { λ old item new. GivesRecord (standing old) item (standing new) };

    ghost remaining = { λ records. items_left (standing records) };

    fn next(&mut self) -> Option<Result<&'a [u8], Damaged>> {
        if self.damaged || self.bytes[self.gate] != OPEN {
            return None;
        }
        let at = self.gate + 1;
        match next_record(&self.bytes[at..], &self.marks) {
            Some((text, marks)) => {
                self.gate = at + 2 + text.len();
                self.marks = marks;
                Some(Ok(text))
            }
            None => {
                self.damaged = true;
                Some(Err(Damaged { at }))
            }
        }
    }
}

/// The text of the record that the bytes begin with, and what the records leave with it, where it
/// is whole and may stand there, and a byte follows it.
fn next_record<'a>(bytes: &'a [u8], marks: &Marks) -> Option<(&'a [u8], Marks)>
    requires { marks.now.actions + 1 < 2 ^ 64 }
    ensures { MatchOption result
        ((entry : Entry) → MayFollow marks.now entry → ¬ BeginsWithRecord bytes.now entry)
        (λ found. (entry : Entry) × (found.0.now ≡ entry_text entry)
        × BeginsWithRecord bytes.now entry × MayFollow marks.now entry
        × (found.1 ≡ behind marks.now entry)) }
{
    let text = whole_text(bytes)?;
    let entry = read_entry(text)?;
    let left = marks.followed_by(&entry)?;
    Some((text, left))
}
