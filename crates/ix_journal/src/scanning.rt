//! A journal from its first byte to its first closed gate.

ghost use Rattle.std.specs.Prelude.{◌<◌, length, MatchResult};
ghost use Rattle.std.specs.Option.{option_copied};
ghost use Rattle.ix_journal.specs.inside.Answers.{HasFault, IsScanned};
ghost use Rattle.ix_journal.specs.inside.Counting.{CountsTo, HasFaultFrom};

use crate::header::{Head, header_of};
use crate::outcome::{JournalFault, Scan};
use crate::records::Records;

/// Reads a file up to its first closed gate. Of the faults of its records the first in the file's
/// order is told. The text is lent from the bytes.
pub fn scan<'a>(bytes: &'a [u8]) -> Result<Scan<'a>, JournalFault>
    ensures { MatchResult result
        (λ scan. IsScanned bytes.now (option_copied scan.text) scan.count scan.gate scan.boots)
        (λ fault. HasFault bytes.now fault) }
{
    match header_of(bytes) {
        Head::Unfinished => Ok(Scan {
            text: None,
            count: 0,
            gate: 0,
            boots: 0,
        }),
        Head::Unopened { text } => Ok(Scan {
            text: Some(text),
            count: 0,
            gate: 0,
            boots: 0,
        }),
        Head::Foreign => Err(JournalFault::NotJournal),
        Head::Ready { text, gate } => match follow(bytes, gate) {
            Ok((count, gate, boots)) => Ok(Scan {
                text: Some(text),
                count,
                gate,
                boots,
            }),
            Err(fault) => Err(fault),
        },
    }
}

/// How many open records from this gate on are of actions, the place of the first closed gate, and
/// the number of the last boot.
fn follow(bytes: &[u8], first: usize) -> Result<(usize, usize, u64), JournalFault>
    requires { first < length bytes.now }
    ensures { MatchResult result
        (λ found. CountsTo bytes.now first found.0 found.1 found.2)
        (λ fault. HasFaultFrom bytes.now first fault) }
{
    let mut records = Records::new(bytes, first);
    while let Some(item) = records.next() {
        if let Err(damaged) = item {
            return Err(JournalFault::Damaged { at: damaged.at });
        }
        if records.marks().are_many() {
            return Err(JournalFault::Many);
        }
    }
    let marks = records.marks();
    Ok((marks.actions as usize, records.gate(), marks.boots))
}
