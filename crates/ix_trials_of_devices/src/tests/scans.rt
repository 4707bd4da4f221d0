//! Scans of files, one of each kind and at each fault. No command makes one: what a start finds in
//! a file is shown by `bench/commands`.

use ix_journal::{JournalFault, Scan, scan};

// A word, two places or numbers, and the number of the last boot.
type Told = (&'static str, usize, usize, u64);

// What is found in a file whose text should be this one: the records of actions, and the first
// closed gate.
fn told_of(found: Scan<'_>, text: &[u8]) -> Told {
    let word = match found.text {
        None => "unfinished",
        Some(other) if other == text => "journal",
        Some(_) => "other",
    };
    (word, found.count, found.gate, found.boots)
}

// What a scan of a file tells whose text should be this one.
fn scanned(bytes: &[u8], text: &[u8]) -> Told {
    match scan(bytes) {
        Ok(found) => told_of(found, text),
        Err(JournalFault::NotJournal) => ("foreign", 0, 0, 0),
        Err(JournalFault::Damaged { at }) => ("damaged", at, 0, 0),
        Err(JournalFault::Many) => ("many", 0, 0, 0),
    }
}

// A file, and what a scan tells of it.
const SCANS: [(&[u8], Told); 12] = [
    (b"", ("unfinished", 0, 0, 0)),
    (b"\x00#!/bin/sh", ("unfinished", 0, 0, 0)),
    (b"#!/bin/sh", ("foreign", 0, 0, 0)),
    (b"\xA5IXJ4\x00\x05a - b\x00", ("foreign", 0, 0, 0)),
    (b"\x7FIXJ1\x00\x05a - b\x00", ("journal", 0, 0, 0)),
    (b"\xA5IXJ1\x00\x05a - c\x00", ("other", 0, 12, 0)),
    (
        b"\xA5IXJ1\x00\x05a - b\xA5\x00\x01a\x00",
        ("journal", 1, 16, 0),
    ),
    (
        b"\xA5IXJ1\x00\x05a - b\x7F\x00\x01a\x00",
        ("journal", 0, 12, 0),
    ),
    (
        b"\xA5IXJ2\x00\x05a - b\xA5\x00\x06boot 1\xA5\x00\x051-1 a\x00",
        ("journal", 1, 29, 1),
    ),
    (
        b"\xA5IXJ3\x00\x05a - b\xA5\x00\x01a\xA5\x00\x0Brenewed 5 2\x00",
        ("journal", 1, 30, 2),
    ),
    (
        b"\xA5IXJ1\x00\x05a - b\xA5\x00\x01a\xA5\x00\x01",
        ("damaged", 17, 0, 0),
    ),
    (
        b"\xA5IXJ2\x00\x05a - b\xA5\x00\x06boot 2\x00",
        ("damaged", 13, 0, 0),
    ),
];

#[test]
fn scans_of_files(rt: HostRuntime) {
    for (bytes, wanted) in SCANS {
        let seen = scanned(bytes, b"a - b");
        assert!(rt; seen == wanted, "{seen:?} in {bytes:?}");
    }
}
