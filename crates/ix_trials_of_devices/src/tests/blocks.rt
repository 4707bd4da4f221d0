//! Requests by hand, and owners over a store in memory.

use ix_blocks::{Arrival, Blocks, Claim, Fault, File, Head, MemoryKeys, Request, Seen, Step};
use std::alloc::Global;
use std::test::Fail;

const SEEN: Seen = Seen {
    head: Head {
        owner: 6,
        sequence: 2,
        length: 5,
    },
    revision: 9,
};

// What the attach of an owner that saw this asks for: its guard, the owner and the length of its
// head, how many blocks it puts, and from which one on it deletes them.
fn attach_of(alloc: Global, seen: &Seen) -> ([u64; 3], usize, Option<usize>) {
    let attach = Request::attach(alloc, seen);
    let head = attach.head;
    (
        [attach.guard, head.owner, head.length],
        attach.puts.len(),
        attach.gone_from,
    )
}

// A file of 5 bytes that became one of 8,197, and was cut to 4,097 then.
fn changed_file(alloc: Global) -> Result<File, Fail> {
    let mut file = File::synced(alloc, b"hello".to_vec(alloc)?);
    let written = file.write_at(5, &[7; 8192]);
    if written.is_err() || file.length() != 8197 {
        return Err("not written".into());
    }
    if file.cut(4097).is_err() {
        return Err("not cut".into());
    }
    Ok(file)
}

// What the first sync of that file asks for, by an owner whose attach made the revision 10: its
// guard, what its head says, how many blocks it puts, and from which one on it deletes them.
fn sync_of(alloc: Global) -> Result<([u64; 4], usize, Option<usize>), Fail> {
    let mut claim = Claim::attached(10);
    let file = changed_file(alloc)?;
    let sync = Request::sync(alloc, &mut claim, &file).ok().ok_or("sync")?;
    let head = sync.head;
    Ok((
        [sync.guard, head.owner, head.sequence, head.length],
        sync.puts.len(),
        sync.gone_from,
    ))
}

#[test]
fn a_sync_brings_the_changed_blocks(rt: HostRuntime) -> Result<(), Fail> {
    let attach = attach_of(rt.alloc(), &SEEN);
    assert!(rt; attach == ([9, 0, 5], 0, None));
    let sync = sync_of(rt.alloc())?;
    assert!(rt; sync == ([10, 10, 1, 4097], 2, Some(2)));
    Ok(())
}

// What happens in a call.
const ANSWERED: Step<'static> = Step {
    comes: &[],
    is_answered: true,
};

const LOST: Step<'static> = Step {
    comes: &[],
    is_answered: false,
};

// What two syncs answered, and the file behind them.
type Run = (Option<Fault>, Option<Fault>, (usize, [u8; 8]));

const WHOLE: Run = (None, None, (6, *b"onetwo\0\0"));

const FIRST_ALONE: Run = (
    Some(Fault::NoAnswer),
    Some(Fault::Ended),
    (3, *b"one\0\0\0\0\0"),
);

const NEITHER: Run = (Some(Fault::NoAnswer), Some(Fault::Ended), (0, [0; 8]));

// What comes in the calls of an attach and two syncs, and what is behind them. The transactions
// have the numbers 0, 1 and 2; then another owner looks, attaches, and reads.
const RUNS: [(&[Step<'static>], Run); 8] = [
    // All is answered.
    (&[], WHOLE),
    // The first sync is lost.
    (&[ANSWERED, ANSWERED, LOST], NEITHER),
    // It comes, and its answer is lost.
    (
        &[
            ANSWERED,
            ANSWERED,
            Step {
                comes: &[Arrival::Sent(1)],
                is_answered: false,
            },
        ],
        FIRST_ALONE,
    ),
    // It comes twice, and the answer to the second copy is heard.
    (
        &[
            ANSWERED,
            ANSWERED,
            Step {
                comes: &[Arrival::Sent(1)],
                is_answered: true,
            },
        ],
        WHOLE,
    ),
    // It is lost, and comes before the other owner looks.
    (
        &[
            ANSWERED,
            ANSWERED,
            LOST,
            Step {
                comes: &[Arrival::Sent(1)],
                is_answered: true,
            },
        ],
        FIRST_ALONE,
    ),
    // It is lost, and comes behind the other's attach.
    (
        &[
            ANSWERED,
            ANSWERED,
            LOST,
            ANSWERED,
            ANSWERED,
            Step {
                comes: &[Arrival::Sent(1)],
                is_answered: true,
            },
        ],
        NEITHER,
    ),
    // Copies of both syncs come behind the second.
    (
        &[
            ANSWERED,
            ANSWERED,
            ANSWERED,
            ANSWERED,
            Step {
                comes: &[Arrival::Sent(1), Arrival::Sent(2), Arrival::Sent(0)],
                is_answered: true,
            },
        ],
        WHOLE,
    ),
    // Transactions on other keys come between.
    (
        &[
            ANSWERED,
            Step {
                comes: &[Arrival::Elsewhere, Arrival::Elsewhere],
                is_answered: true,
            },
            Step {
                comes: &[Arrival::Elsewhere],
                is_answered: true,
            },
        ],
        WHOLE,
    ),
];

// Attaches the file.
fn attach(alloc: Global, keys: &mut MemoryKeys<'_>) -> Result<Blocks, Fail> {
    match Blocks::attach(alloc, keys) {
        Ok(blocks) => Ok(blocks),
        Err(_) => Err("not attached".into()),
    }
}

// Writes the bytes at the end of the file, and syncs.
fn append(
    alloc: Global,
    blocks: &mut Blocks,
    keys: &mut MemoryKeys<'_>,
    bytes: &[u8],
) -> Option<Fault> {
    let end = blocks.length();
    if let Err(why) = blocks.write_at(end, bytes) {
        return Some(Fault::NoRoom(why));
    }
    blocks.sync(alloc, keys).err()
}

// What two appends of an owner answer.
fn append_both(
    alloc: Global,
    keys: &mut MemoryKeys<'_>,
) -> Result<(Option<Fault>, Option<Fault>), Fail> {
    let mut old = attach(alloc, keys)?;
    let first = append(alloc, &mut old, keys, b"one");
    let second = append(alloc, &mut old, keys, b"two");
    Ok((first, second))
}

// The number and the bytes of the file's front, as an owner reads them that takes it over.
fn take_over(alloc: Global, keys: &mut MemoryKeys<'_>) -> Result<(usize, [u8; 8]), Fail> {
    let new = attach(alloc, keys)?;
    let mut buf = [0; 8];
    let count = new.read_at(0, &mut buf);
    Ok((count, buf))
}

fn run_of(alloc: Global, script: &[Step<'_>]) -> Result<Run, Fail> {
    let mut keys = MemoryKeys::new(alloc, script);
    let (first, second) = append_both(alloc, &mut keys)?;
    let file = take_over(alloc, &mut keys)?;
    Ok((first, second, file))
}

#[test]
fn a_sync_is_whole_whatever_comes(rt: HostRuntime) -> Result<(), Fail> {
    for (script, wanted) in RUNS {
        let seen = run_of(rt.alloc(), script)?;
        assert!(rt; seen == wanted, "{seen:?}");
    }
    Ok(())
}

// Cuts a file to its first byte, and syncs.
fn shorten(alloc: Global, blocks: &mut Blocks, keys: &mut MemoryKeys<'_>) -> Option<Fault> {
    if blocks.length() < 1 {
        return Some(Fault::Damaged);
    }
    if let Err(why) = blocks.cut(1) {
        return Some(Fault::NoRoom(why));
    }
    blocks.sync(alloc, keys).err()
}

// What an owner is answered before another one takes over, and behind that; and what that one is.
fn two_owners(alloc: Global) -> Result<[Option<Fault>; 6], Fail> {
    let mut keys = MemoryKeys::new(alloc, &[]);
    let mut old = attach(alloc, &mut keys)?;
    let before = old.check(&mut keys).err();
    let mut new = attach(alloc, &mut keys)?;
    Ok([
        before,
        old.check(&mut keys).err(),
        append(alloc, &mut old, &mut keys, b"old"),
        append(alloc, &mut new, &mut keys, b"new"),
        shorten(alloc, &mut new, &mut keys),
        new.check(&mut keys).err(),
    ])
}

#[test]
fn only_the_last_owner_syncs(rt: HostRuntime) -> Result<(), Fail> {
    let ended = Some(Fault::Ended);
    let seen = two_owners(rt.alloc())?;
    assert!(rt; seen == [None, ended, ended, None, None, None], "{seen:?}");
    Ok(())
}

// Writes 8,200 bytes in two syncs, and tells what they answered.
fn append_long(
    alloc: Global,
    keys: &mut MemoryKeys<'_>,
) -> Result<(Option<Fault>, Option<Fault>), Fail> {
    let mut old = attach(alloc, keys)?;
    let first = append(alloc, &mut old, keys, b"several ");
    let second = append(alloc, &mut old, keys, &[7; 8192]);
    Ok((first, second))
}

// The length of the file, and its bytes around the end of its first block, as an owner reads them
// that takes it over.
fn take_over_long(alloc: Global, keys: &mut MemoryKeys<'_>) -> Result<(usize, [u8; 8]), Fail> {
    let new = attach(alloc, keys)?;
    let mut buf = [0; 8];
    let _count = new.read_at(4092, &mut buf);
    Ok((new.length(), buf))
}

fn run_of_long(alloc: Global) -> Result<Run, Fail> {
    let mut keys = MemoryKeys::new(alloc, &[]);
    let (first, second) = append_long(alloc, &mut keys)?;
    let file = take_over_long(alloc, &mut keys)?;
    Ok((first, second, file))
}

#[test]
fn a_file_of_several_blocks_is_taken_over(rt: HostRuntime) -> Result<(), Fail> {
    let seen = run_of_long(rt.alloc())?;
    assert!(rt; seen == (None, None, (8200, [7; 8])), "{seen:?}");
    Ok(())
}
