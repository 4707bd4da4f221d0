//! Devices in memory, with answers worked out by hand.
ghost use Rattle.std.specs.Prelude.{◌≡◌, IfOk, false};

mod blocks;
mod scans;

use ix_memory::{MemoryFiles, MemorySink, MemorySite};
use ix_outside::{Event, EventKind, Files, LoadFault, Sink, Site};
use std::alloc::{AllocError, Global};
use std::test::Fail;

// The file `a` of three bytes, of which the loads of these numbers are to fail.
fn files(alloc: Global, fail: &[u64]) -> Result<MemoryFiles, AllocError> {
    let mut name = String::new(alloc);
    name.push_str("a")?;
    let mut listing = Vec::new(alloc);
    listing
        .push((name, b"xyz".to_vec(alloc)?))
        .map_err(|_| AllocError)?;
    Ok(MemoryFiles::new(listing, fail.to_vec(alloc)?))
}

// The length of what a load answered.
fn load(
    alloc: Global,
    files: &mut MemoryFiles,
    name: &str,
    limit: usize,
) -> Result<usize, LoadFault> {
    match files.load(alloc, name, limit) {
        Ok(bytes) => Ok(bytes.len()),
        Err(fault) => Err(fault),
    }
}

// What three loads answered, of which those of these numbers are to fail.
fn loads(alloc: Global, fail: &[u64]) -> Result<[Result<usize, LoadFault>; 3], AllocError> {
    let mut files = files(alloc, fail)?;
    Ok([
        load(alloc, &mut files, "a", 3),
        load(alloc, &mut files, "b", 3),
        load(alloc, &mut files, "a", 2),
    ])
}

const FAILED: Result<usize, LoadFault> = Err(LoadFault::Failed);

const TOO_LONG: Result<usize, LoadFault> = Err(LoadFault::TooLong);

const LOADS: &[(&[u64], [Result<usize, LoadFault>; 3])] = &[
    (&[], [Ok(3), FAILED, TOO_LONG]),
    (&[0], [FAILED, FAILED, TOO_LONG]),
    (&[2], [Ok(3), FAILED, FAILED]),
    (&[7, 1], [Ok(3), FAILED, TOO_LONG]),
];

#[test]
fn loads_fail_where_they_are_told(rt: HostRuntime) -> Result<(), Fail> {
    for (fail, answers) in LOADS {
        let seen = loads(rt.alloc(), fail)?;
        assert!(rt; seen == *answers, "{answers:?}");
    }
    Ok(())
}

// Which of three puts a sink of this room took, of which the calls of these numbers are to fail,
// and whether it has these bytes then.
fn puts(
    alloc: Global,
    room: usize,
    fail: &[u64],
    bytes: &[u8],
) -> Result<([bool; 3], bool), AllocError> {
    let mut sink = MemorySink::new(alloc, room, fail.to_vec(alloc)?)?;
    let answers = [
        sink.put(b"ab").is_ok(),
        sink.put(b"cd").is_ok(),
        sink.put(b"e").is_ok(),
    ];
    Ok((answers, sink.bytes() == bytes))
}

const PUTS: &[(usize, &[u64], [bool; 3], &[u8])] = &[
    (5, &[], [true, true, true], b"abcde"),
    (4, &[], [true, true, false], b"abcd"),
    (3, &[], [true, false, true], b"abe"),
    (5, &[0], [false, true, true], b"cde"),
];

#[test]
fn puts_fail_where_they_are_told_and_beyond_the_room(rt: HostRuntime) -> Result<(), Fail> {
    for (room, fail, answers, bytes) in PUTS {
        let seen = puts(rt.alloc(), *room, fail, bytes)?;
        assert!(rt; seen == (*answers, true), "room {room}");
    }
    Ok(())
}

// A site with an empty file and a piece of ten bytes, behind which its connection is closed.
fn site(
    alloc: Global,
    room: usize,
    fail: &[u64],
    fuse: Option<u64>,
) -> Result<MemorySite, AllocError>
    ensures attached { IfOk result (λ s. s.attached ≡ false) }
    ensures added { IfOk result (λ s. s.plan.added ≡ 0) }
{
    let piece = Event {
        conn: 3,
        moment: 7,
        kind: EventKind::Bytes(10),
    };
    let closed = Event {
        conn: 3,
        moment: 5,
        kind: EventKind::Closed,
    };
    let mut events = Vec::new(alloc);
    events
        .push((piece, b"0123456789".to_vec(alloc)?))
        .map_err(|_| AllocError)?;
    events
        .push((closed, Vec::new(alloc)))
        .map_err(|_| AllocError)?;
    MemorySite::new(
        alloc,
        Vec::new(alloc),
        events,
        room,
        fail.to_vec(alloc)?,
        fuse,
    )
}

// A connection, a moment, what happens, and the first byte of the buffer.
type Taken = (u8, u64, EventKind, u8);

// Takes an event through a buffer of four bytes. A failed call is told as an end of connection 64.
fn taken(site: &mut MemorySite) -> Taken {
    let mut buf = [0; 4];
    match site.next(&mut buf) {
        Ok(event) => (event.conn, event.moment, event.kind, buf[0]),
        Err(_) => (64, 0, EventKind::End, buf[0]),
    }
}

// What comes to a site whose third call fails.
fn events(alloc: Global) -> Result<[Taken; 7], AllocError> {
    let mut site = site(alloc, 1000, &[2], None)?;
    Ok([
        taken(&mut site),
        taken(&mut site),
        taken(&mut site),
        taken(&mut site),
        taken(&mut site),
        taken(&mut site),
        taken(&mut site),
    ])
}

const EVENTS: [Taken; 7] = [
    (3, 7, EventKind::Bytes(4), b'0'),
    (3, 7, EventKind::Bytes(4), b'4'),
    (64, 0, EventKind::End, 0),
    (3, 7, EventKind::Bytes(2), b'8'),
    (3, 5, EventKind::Closed, 0),
    (0, 5, EventKind::End, 0),
    (0, 5, EventKind::End, 0),
];

#[test]
fn a_long_piece_comes_as_several_events(rt: HostRuntime) -> Result<(), Fail> {
    let seen = events(rt.alloc())?;
    assert!(rt; seen == EVENTS, "{seen:?}");
    Ok(())
}

// Which of three sends of five bytes on connection 9 a site took.
fn send_thrice(site: &mut MemorySite) -> [bool; 3] {
    [
        site.send(9, b"hello").is_ok(),
        site.send(9, b"hello").is_ok(),
        site.send(9, b"hello").is_ok(),
    ]
}

// Whether a site has sent pieces of these lengths.
fn has_sent(site: &MemorySite, lengths: &[usize]) -> bool {
    let mut are_same = site.sent_len() == lengths.len();
    for (index, length) in lengths.iter().enumerate() {
        are_same = are_same && index < site.sent_len() && site.sent_at(index).1.len() == *length;
    }
    are_same
}

// Which of these sends a site of this room took, of which the calls of these numbers and those from
// the fuse on are to fail, whether it then has so many bytes of each, and how many calls it counts.
fn sends(
    alloc: Global,
    room: usize,
    fail: &[u64],
    fuse: Option<u64>,
    lengths: &[usize],
) -> Result<([bool; 3], bool, u64), AllocError> {
    let mut site = site(alloc, room, fail, fuse)?;
    let answers = send_thrice(&mut site);
    Ok((answers, has_sent(&site, lengths), site.calls()))
}

const SENDS: &[(usize, &[u64], Option<u64>, [bool; 3], &[usize])] = &[
    (63, &[], None, [true, true, true], &[5, 5, 5]),
    (62, &[], None, [true, true, false], &[5, 5]),
    (63, &[1], None, [true, false, true], &[5, 2, 5]),
    (63, &[], Some(1), [true, false, false], &[5, 2, 2]),
    (20, &[0], None, [false, false, false], &[]),
];

#[test]
fn sends_fail_where_they_are_told_and_beyond_the_room(rt: HostRuntime) -> Result<(), Fail> {
    for (room, fail, fuse, answers, lengths) in SENDS {
        let seen = sends(rt.alloc(), *room, fail, *fuse, lengths)?;
        assert!(rt; seen == (*answers, true, 3), "room {room}");
    }
    Ok(())
}

// Which of these sends a site took that was told later that the second one is to fail.
fn sends_told_later(alloc: Global) -> Result<[bool; 3], AllocError> {
    let mut site = site(alloc, 63, &[], None)?;
    site.fail_next(1);
    Ok(send_thrice(&mut site))
}

#[test]
fn a_call_is_told_later_to_fail(rt: HostRuntime) -> Result<(), Fail> {
    assert!(rt; sends_told_later(rt.alloc())? == [true, false, true]);
    Ok(())
}

// Which calls of the disk a site took, whether the file was as wanted after each of them, what was
// read behind them, and the length of the longest buffer for that.
#[derive(Clone, Copy)]
struct Disk {
    took: [bool; 6],
    are_images: bool,
    read: usize,
    front: [u8; 4],
    longest: usize,
}

// Whether a site's file is the image of this number.
fn is_image(site: &MemorySite, images: &[&[u8]], number: usize) -> bool {
    match images.get(number) {
        Some(image) => *image == site.image(),
        None => false,
    }
}

// The images are those wanted after each call, or none where the file isn't attached.
fn use_disk(site: &mut MemorySite, images: &[&[u8]]) -> Disk
    requires { site.old.attached ≡ false }
{
    let mut front = [0; 4];
    if site.attach("journal").is_err() {
        return Disk {
            took: [false; 6],
            are_images: images.is_empty(),
            read: 0,
            front,
            longest: 0,
        };
    }
    let first = is_image(site, images, 0);
    let written = (site.write_at(0, b"abcd").is_ok(), is_image(site, images, 1));
    let longer = (
        site.write_at(2, b"vwxyz").is_ok(),
        is_image(site, images, 2),
    );
    let far = (site.write_at(9, b"far").is_ok(), is_image(site, images, 3));
    let cut = (site.cut(4).is_ok(), is_image(site, images, 4));
    let synced = (site.sync().is_ok(), is_image(site, images, 5));
    let read = site.read_at(1, &mut front).unwrap_or(0);
    Disk {
        took: [true, written.0, longer.0, far.0, cut.0, synced.0],
        are_images: first && written.1 && longer.1 && far.1 && cut.1 && synced.1,
        read,
        front,
        longest: site.longest_read(),
    }
}

fn disk_of(alloc: Global, fail: &[u64], images: &[&[u8]]) -> Result<Disk, AllocError> {
    let mut site = site(alloc, 1000, fail, None)?;
    Ok(use_disk(&mut site, images))
}

// Whether what was read behind the calls is the file's bytes from 1 to 3, through the whole buffer.
fn has_read(seen: &Disk) -> bool {
    if !seen.took[0] {
        return seen.read == 0 && seen.longest == 0;
    }
    seen.read == 3 && seen.longest == 4 && seen.front.starts_with(b"bvw")
}

const WHOLE: &[&[u8]] = &[b"", b"abcd", b"abvwxyz", b"abvwxyz", b"abvw", b"abvw"];

const FRONT: &[&[u8]] = &[b"", b"ab", b"abvwxyz", b"abvwxyz", b"abvw", b"abvw"];

const HALVES: &[&[u8]] = &[b"", b"ab", b"abvw", b"abvw", b"abvw", b"abvw"];

const DISKS: &[(&[u64], [bool; 6], &[&[u8]])] = &[
    (&[], [true, true, true, false, true, true], WHOLE),
    (&[1], [true, false, true, false, true, true], FRONT),
    (&[1, 2, 4], [true, false, false, false, false, true], HALVES),
    (&[5], [true, true, true, false, true, false], WHOLE),
    (&[0], [false; 6], &[]),
];

#[test]
fn the_disk_holds_what_was_written(rt: HostRuntime) -> Result<(), Fail> {
    for (fail, took, images) in DISKS {
        let seen = disk_of(rt.alloc(), fail, images)?;
        assert!(rt; seen.took == *took && seen.are_images, "{fail:?}");
        assert!(rt; has_read(&seen), "{fail:?}");
    }
    Ok(())
}
