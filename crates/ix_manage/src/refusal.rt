//! Why a run ends before it has its answer.
ghost use Rattle.std.specs.Prelude.{◌≡◌, ◌≤◌, [], length};
ghost use Rattle.ix_manage.specs.Journal.{journal_line};
ghost use Rattle.ix_manage.specs.Trace.{fault_line, large_line};
ghost use Rattle.ix_manage.specs.declared.refusal.Refusal.TheVariants.{Memory};
ghost use Rattle.ix_manage.specs.inside.Refusal.{journal_words, lost_line};

use arrayvec::ArrayVec;
use ix_lines::{append, append_number};
use std::alloc::{AllocError, AllocFailed};

/// A file that the words name.
#[derive(Clone, Copy)]
pub(crate) enum Input {
    Expression,
    Actions,
    Script,
    Lines,
    Values,
    Journal,
}

impl Input {
    ghost use Rattle.ix_manage.specs.inside.Refusal.{input_word};

    /// The word by which a refusal's line names it.
    fn word(self) -> &'static [u8]
        ensures word { result.now ≡ input_word self }
        ensures short { length result.now ≤ 10 }
    {
        match self {
            Input::Expression => b"expression",
            Input::Actions => b"actions",
            Input::Script => b"script",
            Input::Lines => b"lines",
            Input::Values => b"values",
            Input::Journal => b"journal",
        }
    }
}

/// Why a run ends before it has its answer. Each refusal has a line and a status.
#[derive(Clone, Copy)]
pub(crate) enum Refusal {
    /// The file has this fault.
    Bad { file: Input, code: u8, at: usize },
    /// The file couldn't be read.
    Lost(Input),
    /// The initial tree is above this limit of Size.
    Large { limit: usize },
    /// The entry of this number was refused with this code.
    Unfollowed { code: u8, number: u64 },
    /// The action of this number isn't allowed behind those before it, by this code.
    NotAllowed { code: u8, number: u64 },
    /// A word isn't the action or the given value that it must be.
    Words,
    /// There are too many candidates.
    Candidates,
    /// A call of the disk failed.
    Disk,
    /// The socket couldn't be listened to, or no event came since the wire failed.
    Wire,
    /// No run starts from the journal, or it isn't renewed.
    Journal(JournalRefusal),
    /// As many events were taken as the words allow, and the run hadn't ended.
    Turns,
    /// There was no memory.
    Memory,
}

/// Why no run starts from a journal, or why it isn't renewed. Records are counted from 1.
#[derive(Clone, Copy)]
pub(crate) enum JournalRefusal {
    /// The file is no journal.
    Foreign,
    /// The open gate in front of this place isn't followed by a whole record.
    Damaged { at: usize },
    /// It has too many records.
    Many,
    /// With the record of this number the history isn't partial.
    Word { number: u64 },
    /// With the record of this number the Size of the history's tree is above this limit.
    Heavy { number: u64, limit: usize },
    /// It was never opened, so that there is nothing to renew.
    Unopened,
    /// The file in which the renewed one was to be made has a byte.
    There,
}

impl Refusal {
    ghost use Rattle.ix_manage.specs.inside.Refusal.{refusal_line, refusal_status};

    pub(crate) fn line(self) -> ArrayVec<u8, 64>
        ensures { result.items ≡ refusal_line self }
    {
        let mut line = ArrayVec::new();
        match self {
            Refusal::Bad { file, code, at } => append_fault(&mut line, file.word(), code, at),
            Refusal::Lost(file) => append_lost(&mut line, file.word()),
            Refusal::Large { limit } => append_large(&mut line, limit),
            Refusal::Unfollowed { code, number } => {
                append_fault(&mut line, b"follow", code, number as usize);
            }
            Refusal::NotAllowed { code, number } => {
                append_fault(&mut line, b"history", code, number as usize);
            }
            Refusal::Words => append(&mut line, b"refused words\n"),
            Refusal::Candidates => append(&mut line, b"refused candidates\n"),
            Refusal::Disk => append(&mut line, b"refused disk\n"),
            Refusal::Wire => append(&mut line, b"refused wire\n"),
            Refusal::Journal(why) => append_journal(&mut line, why),
            Refusal::Turns => append(&mut line, b"refused turns\n"),
            Refusal::Memory => append(&mut line, b"refused memory\n"),
        }
        line
    }

    pub(crate) fn status(self) -> u8
        ensures { result ≡ refusal_status self }
    {
        match self {
            Refusal::Words => 2,
            Refusal::Bad { .. } | Refusal::Large { .. } | Refusal::Candidates => 3,
            Refusal::Lost(_) => 4,
            Refusal::Unfollowed { .. } | Refusal::NotAllowed { .. } => 11,
            Refusal::Disk => 5,
            Refusal::Wire => 6,
            Refusal::Journal(_) => 8,
            Refusal::Turns => 7,
            Refusal::Memory => 9,
        }
    }
}

impl From<AllocError> for Refusal {
    ghost from_gives = { λ _ refusal. refusal ≡ Memory };

    fn from(_: AllocError) -> Refusal {
        Refusal::Memory
    }
}

impl<T: Drop> From<AllocFailed<T>> for Refusal {
    ghost from_gives = { λ _ refusal. refusal ≡ Memory };

    fn from(_: AllocFailed<T>) -> Refusal {
        Refusal::Memory
    }
}

fn append_fault(line: &mut ArrayVec<u8, 64>, file: &[u8], code: u8, at: usize)
    requires empty { line.old.items ≡ [] }
    requires short { length file.now ≤ 10 }
    ensures { line.new.items ≡ fault_line file.now code at }
{
    append(line, b"refused ");
    append(line, file);
    append(line, b" ");
    append_number(line, u64::from(code));
    append(line, b" at ");
    append_number(line, at as u64);
    append(line, b"\n");
}

fn append_lost(line: &mut ArrayVec<u8, 64>, file: &[u8])
    requires empty { line.old.items ≡ [] }
    requires short { length file.now ≤ 10 }
    ensures { line.new.items ≡ lost_line file.now }
{
    append(line, b"refused file ");
    append(line, file);
    append(line, b"\n");
}

fn append_large(line: &mut ArrayVec<u8, 64>, limit: usize)
    requires { line.old.items ≡ [] }
    ensures { line.new.items ≡ large_line limit }
{
    append(line, b"refused expression 14 large ");
    append_number(line, limit as u64);
    append(line, b"\n");
}

fn append_journal(line: &mut ArrayVec<u8, 64>, why: JournalRefusal)
    requires { line.old.items ≡ [] }
    ensures { line.new.items ≡ journal_line (journal_words why) }
{
    append(line, b"refused journal ");
    match why {
        JournalRefusal::Foreign => append(line, b"foreign"),
        JournalRefusal::Damaged { at } => {
            append(line, b"damaged ");
            append_number(line, at as u64);
        }
        JournalRefusal::Many => append(line, b"many"),
        JournalRefusal::Unopened => append(line, b"unopened"),
        JournalRefusal::There => append(line, b"there"),
        JournalRefusal::Word { number } => {
            append(line, b"word ");
            append_number(line, number);
        }
        JournalRefusal::Heavy { number, limit } => {
            append(line, b"large ");
            append_number(line, number);
            append(line, b" ");
            append_number(line, limit as u64);
        }
    }
    append(line, b"\n");
}
