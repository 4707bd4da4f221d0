//! The bytes that are written to a journal.

ghost use Rattle.std.specs.Prelude.{◌≡◌, ◌+◌, ◌<◌, ◌≤◌, ◌^◌, ◌++◌, [], ◌∷◌, length, IfOk};
ghost use Rattle.std.specs.Prelude.{All, OnOk, codes, decimal, map};
ghost use Rattle.arrayvec.specs.ArrayVec.{array_vec_len};
ghost use Rattle.byteorder.specs.Endian.{big_bytes};
ghost use Rattle.ix_values.specs.PlainAction.{text_of};
ghost use Rattle.ix_values.specs.Texts.{IsAction};
ghost use Rattle.ix_values.specs.Tickets.{IsTicket, ticket_text};
ghost use Rattle.ix_journal.specs.Entries.{IsEntry};
ghost use Rattle.ix_journal.specs.Format.{header, open_records, record_of, renewed_records};
ghost use Rattle.ix_journal.specs.declared.entries.Entry.TheVariants as entry;
ghost use Rattle.ix_journal.specs.inside.Writing.{CanBeWritten, digit_of, entry_written};

use crate::{CLOSED, Entry, MAGIC, OPEN, RENEWED_MAGIC};
use arrayvec::ArrayVec;
use byteorder::{BigEndian, ByteOrder};
use ix_lines::{append, append_number};
use ix_values::{Action, Ticket};
use std::alloc::{AllocError, Global};

/// The version of a header that is written.
#[derive(Clone, Copy, Debug, PartialEq, Eq)]
pub enum Version {
    /// `IXJ2`, which begins a journal that a start makes.
    Started,
    /// `IXJ3`, which begins one that a renewal makes.
    Renewed,
}

/// What a record says that is written.
#[derive(Clone, Copy, Debug)]
pub enum Record<'a> {
    /// The actions in front of this record stand for so many actions and boots of the journals
    /// before. Each is at most 2^63.
    Renewed { actions: u64, boots: u64 },
    /// The journal was opened: the number of this boot.
    Boot(u64),
    /// The action was confirmed, and the ticket was spent on it.
    Spent { ticket: Ticket, action: &'a Action },
    /// The action was confirmed, and no ticket of it is kept.
    Plain(&'a Action),
}

impl Record<'_> {
    /// What the record says, with an action of its own.
    pub fn entry(&self) -> Entry
        ensures { result ≡ entry_written self.now }
    {
        match self {
            Record::Renewed { actions, boots } => Entry::Renewed {
                actions: *actions,
                boots: *boots,
            },
            Record::Boot(number) => Entry::Boot(*number),
            Record::Spent { ticket, action } => Entry::Spent {
                ticket: *ticket,
                action: **action,
            },
            Record::Plain(action) => Entry::Plain(**action),
        }
    }
}

/// Writes into `out`, which is empty, what stands behind the gate of an appended record: the
/// record, which is the length and the bytes of its text, and one closed gate. These are at most
/// 210 bytes.
pub fn record_bytes(entry: &Record<'_>, out: &mut ArrayVec<u8, 256>)
    requires empty { out.old.items ≡ [] }
    requires fits { CanBeWritten entry.now }
    ensures bytes { out.new.items ≡ record_of (entry_written entry.now) ++ CLOSED ∷ [] }
    ensures valid { IsEntry (entry_written entry.now) }
{
    write_record(entry, out);
    out.push(CLOSED);
}

/// Writes a record into `out`, which is empty.
fn write_record(entry: &Record<'_>, out: &mut ArrayVec<u8, 256>)
    requires empty { out.old.items ≡ [] }
    requires fits { CanBeWritten entry.now }
    ensures bytes { out.new.items ≡ record_of (entry_written entry.now) }
    ensures short { array_vec_len out.new ≤ 209 }
    ensures valid { IsEntry (entry_written entry.now) }
{
    let mut text = ArrayVec::new();
    match entry {
        Record::Renewed { actions, boots } => write_renewed(*actions, *boots, &mut text),
        Record::Boot(number) => write_boot(*number, &mut text),
        Record::Spent { ticket, action } => write_spent(ticket, action, &mut text),
        Record::Plain(action) => write_action(action, &mut text),
    }
    append(out, &length_bytes(text.len() as u16));
    append(out, text.as_slice());
}

fn write_renewed(actions: u64, boots: u64, out: &mut ArrayVec<u8, 256>)
    requires { out.old.items ≡ [] }
    ensures text { out.new.items ≡ codes "renewed " ++ decimal actions ++ 32 ∷ decimal boots }
    ensures short { array_vec_len out.new ≤ 207 }
{
    append(out, b"renewed ");
    append_number(out, actions);
    out.push(b' ');
    append_number(out, boots);
}

fn write_boot(number: u64, out: &mut ArrayVec<u8, 256>)
    requires { out.old.items ≡ [] }
    ensures text { out.new.items ≡ codes "boot " ++ decimal number }
    ensures short { array_vec_len out.new ≤ 207 }
    ensures valid { number < 2 ^ 64 }
{
    append(out, b"boot ");
    append_number(out, number);
}

fn write_spent(ticket: &Ticket, action: &Action, out: &mut ArrayVec<u8, 256>)
    requires { out.old.items ≡ [] }
    ensures text { out.new.items ≡ ticket_text ticket.now ++ 32 ∷ text_of action.now }
    ensures short { array_vec_len out.new ≤ 207 }
    ensures ticket { IsTicket ticket.now }
    ensures action { IsAction action.now }
{
    let mut text: ArrayVec<u8, 48> = ArrayVec::new();
    ticket.write(&mut text);
    append(out, text.as_slice());
    out.push(b' ');
    write_action(action, out);
}

/// Writes the text of an action behind what is there, which is at most 42 bytes.
fn write_action(action: &Action, out: &mut ArrayVec<u8, 256>)
    requires { array_vec_len out.old ≤ 42 }
    ensures text { out.new.items ≡ out.old.items ++ text_of action.now }
    ensures short { array_vec_len out.new ≤ array_vec_len out.old + 165 }
    ensures valid { IsAction action.now }
{
    let mut text = ArrayVec::new();
    action.write(&mut text);
    append(out, text.as_slice());
}

/// What stands behind the head gate of a journal without records: the header, which is the magic,
/// the length and the bytes of the text, and one closed gate.
pub fn header_bytes(alloc: Global, version: Version, text: &[u8]) -> Result<Vec<u8>, AllocError>
    requires { length text.now < 65536 }
    ensures { IfOk result
        (λ bytes. bytes.items ≡ header (digit_of version) text.now ++ CLOSED ∷ []) }
{
    let mut bytes = Vec::with_capacity(alloc, 7 + text.len())?;
    bytes.extend_from_slice(&magic_of(version))?;
    bytes.extend_from_slice(&length_bytes(text.len() as u16))?;
    bytes.extend_from_slice(text)?;
    bytes.push(CLOSED)?;
    Ok(bytes)
}

/// What a header of this version begins with.
fn magic_of(version: Version) -> [u8; 4]
    ensures { result ≡ codes "IXJ" ++ digit_of version ∷ [] }
{
    match version {
        Version::Started => MAGIC,
        Version::Renewed => RENEWED_MAGIC,
    }
}

/// What stands behind the header of a renewed journal: an open gate and a record for each of the
/// carried actions, and for how many actions and boots of the journals before they stand for; and
/// one closed gate.
pub fn renewed_bytes(
    alloc: Global,
    carried: &[Action],
    actions: u64,
    boots: u64,
) -> Result<Vec<u8>, AllocError>
    requires actions { actions ≤ 2 ^ 63 }
    requires boots { boots ≤ 2 ^ 63 }
    ensures bytes { IfOk result (λ bytes. bytes.items
        ≡ open_records (renewed_records carried.now actions boots) ++ CLOSED ∷ []) }
    ensures valid { OnOk result (All IsAction carried.now) }
{
    let mut bytes = Vec::new(alloc);
    append_carried(&mut bytes, carried)?;
    append_open(&mut bytes, &Record::Renewed { actions, boots })?;
    bytes.push(CLOSED)?;
    Ok(bytes)
}

/// Appends an open gate and a record for each of the carried actions.
fn append_carried(bytes: &mut Vec<u8>, carried: &[Action]) -> Result<(), AllocError>
    ensures bytes { OnOk result
        (bytes.new.items ≡ bytes.old.items ++ open_records (map entry.Plain carried.now)) }
    ensures valid { OnOk result (All IsAction carried.now) }
{
    for action in carried.iter() {
        append_open(bytes, &Record::Plain(action))?;
    }
    Ok(())
}

/// Appends an open gate and a record.
fn append_open(bytes: &mut Vec<u8>, entry: &Record<'_>) -> Result<(), AllocError>
    requires { CanBeWritten entry.now }
    ensures bytes { OnOk result
        (bytes.new.items ≡ bytes.old.items ++ OPEN ∷ record_of (entry_written entry.now)) }
    ensures valid { OnOk result (IsEntry (entry_written entry.now)) }
{
    let mut record = ArrayVec::new();
    write_record(entry, &mut record);
    bytes.push(OPEN)?;
    bytes.extend_from_slice(record.as_slice())
}

/// The two bytes of a length, the higher first.
fn length_bytes(length: u16) -> [u8; 2]
    ensures { result ≡ big_bytes 2 length }
{
    let mut bytes = [0; 2];
    BigEndian::write_u16(&mut bytes, length);
    bytes
}
