//! What the records of a journal say, and in which order they may stand.

ghost use Rattle.std.specs.Prelude.{◌≡◌, ◌≢◌, ◌↔◌, ◌+◌, ◌<◌, ◌≤◌, ◌^◌, ◌∷◌, ◌++◌};
ghost use Rattle.std.specs.Prelude.{IsTrue, MatchOption, None, true, false, codes};
ghost use Rattle.ix_journal.specs.Entries.{CanSpend, MayFollow, behind, fresh, or_none, renewed_of};
ghost use Rattle.ix_journal.specs.inside.Counting.{AreMany, AreNotMany, HasBootRoom};
ghost use Rattle.ix_journal.specs.inside.Reading.{IsText, SaysEntry};
ghost use Rattle.ix_lines.specs.inside.WordsBehind.{HasNoSpace};

use crate::{MOST_BOOTS, MOST_RECORDS, MOST_RENEWED};
use ix_lines::{read_number, split_word};
use ix_values::{Action, Ticket};

/// What a record says.
#[derive(Clone, Copy, Debug)]
pub enum Entry {
    /// The actions in front of this record stand for the first `actions` actions and the `boots`
    /// boots of the journals before. Each is at most 2^63.
    Renewed { actions: u64, boots: u64 },
    /// The journal was opened: the number of this boot.
    Boot(u64),
    /// The action was confirmed, and the ticket was spent on it.
    Spent { ticket: Ticket, action: Action },
    /// The action was confirmed, and no ticket of it is kept.
    Plain(Action),
}

impl Entry {
    /// What the record with this text says.
    pub fn of_text(text: &[u8]) -> Entry
        requires { IsText text.now }
        ensures { SaysEntry text.now result }
    {
        match read_entry(text) {
            Some(entry) => entry,
            None => unreachable!(),
        }
    }
}

/// What a renewed journal stands for besides its own records.
#[derive(Clone, Copy, Debug, PartialEq, Eq)]
pub struct Renewed {
    /// How many actions are carried: records in front of the renewal.
    pub carried: u64,
    /// How many actions of the journals before the carried ones stand for.
    pub actions: u64,
    /// How many boots these journals had.
    pub boots: u64,
}

impl Renewed {
    /// That of a journal without a renewal: three times 0.
    pub fn none() -> Renewed
        ensures { result ≡ or_none None }
    {
        Renewed {
            carried: 0,
            actions: 0,
            boots: 0,
        }
    }
}

/// What the records in front of a gate leave: how many there are, the last number spent, and
/// whether one of them is a renewal.
#[derive(Clone, Copy, Debug, PartialEq, Eq)]
pub struct Marks {
    /// How many of the records are of actions.
    pub actions: u64,
    /// The number of the last boot: how many of the records are boots, and behind a renewal with
    /// those of the journals before.
    pub boots: u64,
    /// The last number that was spent in this boot, or 0 where none was.
    pub seq: u64,
    /// What the renewal says, where one of the records is one.
    pub renewal: Option<Renewed>,
}

impl Marks {
    /// In front of all records.
    pub fn fresh() -> Marks
        ensures { result ≡ fresh }
    {
        Marks {
            actions: 0,
            boots: 0,
            seq: 0,
            renewal: None,
        }
    }

    /// What the journal stands for besides its own records: three times 0 without a renewal.
    pub fn renewed(&self) -> Renewed
        ensures { result ≡ renewed_of self.now }
    {
        match self.renewal {
            Some(renewed) => renewed,
            None => Renewed::none(),
        }
    }

    /// Whether more than a million of the records are of actions, or more than a million boots.
    pub fn are_many(&self) -> bool
        requires { (renewed_of self.now).boots ≤ self.now.boots }
        ensures many { result ≡ true → AreMany self.now }
        ensures few { result ≡ false → AreNotMany self.now }
    {
        self.actions > MOST_RECORDS as u64 || self.boots - self.renewed().boots > MOST_BOOTS
    }

    /// Whether fewer than a million of the records are boots.
    pub fn has_room(&self) -> bool
        requires { (renewed_of self.now).boots ≤ self.now.boots }
        ensures { IsTrue result ↔ HasBootRoom self.now }
    {
        self.boots - self.renewed().boots < MOST_BOOTS
    }

    /// What the records leave with this one behind them, which may stand there.
    pub fn passed(&self, entry: &Entry) -> Marks
        requires few { self.now.actions + 1 < 2 ^ 64 }
        requires follows { MayFollow self.now entry.now }
        ensures { result ≡ behind self.now entry.now }
    {
        match entry {
            Entry::Renewed { actions, boots } => Marks {
                actions: self.actions,
                boots: *boots,
                seq: 0,
                renewal: Some(Renewed {
                    carried: self.actions,
                    actions: *actions,
                    boots: *boots,
                }),
            },
            Entry::Boot(number) => Marks {
                boots: *number,
                seq: 0,
                ..*self
            },
            Entry::Spent { ticket, .. } => Marks {
                actions: self.actions + 1,
                seq: ticket.seq,
                ..*self
            },
            Entry::Plain(_) => Marks {
                actions: self.actions + 1,
                ..*self
            },
        }
    }

    /// What the records leave with this one behind them, or None where it may not stand there.
    pub(crate) fn followed_by(&self, entry: &Entry) -> Option<Marks>
        requires { self.now.actions + 1 < 2 ^ 64 }
        ensures { MatchOption result
            (¬ MayFollow self.now entry.now)
            (λ marks. MayFollow self.now entry.now × (marks ≡ behind self.now entry.now)) }
    {
        if self.may_pass(entry) {
            Some(self.passed(entry))
        } else {
            None
        }
    }

    /// Whether this record may stand behind the others.
    fn may_pass(&self, entry: &Entry) -> bool
        ensures { IsTrue result ↔ MayFollow self.now entry.now }
    {
        match entry {
            Entry::Renewed { actions, .. } => self.can_renew(*actions),
            Entry::Boot(number) => self.is_next(*number),
            Entry::Spent { ticket, .. } => self.can_spend(ticket),
            Entry::Plain(_) => true,
        }
    }

    /// Whether a renewal may stand here that stands for so many actions.
    fn can_renew(&self, actions: u64) -> bool
        ensures { IsTrue result ↔ (self.now.renewal ≡ None) × (self.now.boots ≡ 0)
            × (self.now.actions ≤ actions) }
    {
        self.renewal.is_none() && self.boots == 0 && self.actions <= actions
    }

    /// Whether this is the number of the next boot.
    fn is_next(&self, number: u64) -> bool
        ensures { IsTrue result ↔ (number ≡ self.now.boots + 1) }
    {
        number != 0 && number - 1 == self.boots
    }

    /// Whether the ticket is of this boot, which has a record here, and its number is above those
    /// spent in it.
    fn can_spend(&self, ticket: &Ticket) -> bool
        ensures { IsTrue result ↔ CanSpend self.now ticket.now }
    {
        ticket.boot == self.boots && self.renewed().boots < ticket.boot && self.seq < ticket.seq
    }
}

/// What the record with this text says, or None where the text isn't a record's.
pub(crate) fn read_entry(text: &[u8]) -> Option<Entry>
    ensures { MatchOption result (¬ IsText text.now) (SaysEntry text.now) }
{
    let (word, later) = split_word(text);
    match later {
        Some(later) => read_two(word, later),
        None => read_plain(text),
    }
}

/// What the record says whose text is this word, a space and this text.
fn read_two(word: &[u8], later: &[u8]) -> Option<Entry>
    requires { HasNoSpace word.now }
    ensures { MatchOption result
        (¬ IsText (word.now ++ 32 ∷ later.now))
        (SaysEntry (word.now ++ 32 ∷ later.now)) }
{
    if word == b"boot".as_slice() {
        return match read_number(later, u64::MAX) {
            Some(number) => Some(Entry::Boot(number)),
            None => None,
        };
    }
    if word == b"renewed".as_slice() {
        return read_renewed(later);
    }
    read_spent(word, later)
}

/// What the record says whose text is `renewed`, a space and this text.
fn read_renewed(later: &[u8]) -> Option<Entry>
    ensures { MatchOption result
        (¬ IsText (codes "renewed " ++ later.now))
        (SaysEntry (codes "renewed " ++ later.now)) }
{
    let (word, last) = split_word(later);
    let actions = read_number(word, MOST_RENEWED)?;
    let boots = read_number(last?, MOST_RENEWED)?;
    Some(Entry::Renewed { actions, boots })
}

/// What the record says whose text is a ticket's, a space and an action's.
fn read_spent(word: &[u8], later: &[u8]) -> Option<Entry>
    requires plain { HasNoSpace word.now }
    requires no_boot { word.now ≢ codes "boot" }
    requires no_renewal { word.now ≢ codes "renewed" }
    ensures { MatchOption result
        (¬ IsText (word.now ++ 32 ∷ later.now))
        (SaysEntry (word.now ++ 32 ∷ later.now)) }
{
    let ticket = Ticket::read(word)?;
    match Action::read(later) {
        Ok(action) => Some(Entry::Spent { ticket, action }),
        Err(_) => None,
    }
}

/// What the record says whose text is an action's.
fn read_plain(text: &[u8]) -> Option<Entry>
    requires { HasNoSpace text.now }
    ensures { MatchOption result (¬ IsText text.now) (SaysEntry text.now) }
{
    match Action::read(text) {
        Ok(action) => Some(Entry::Plain(action)),
        Err(_) => None,
    }
}
