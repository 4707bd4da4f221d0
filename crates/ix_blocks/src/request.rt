//! What an owner sends to the store: one transaction for each attach and each sync.

ghost use Rattle.std.specs.Prelude.{◌≡◌, ◌≤◌, ◌+◌, ◌^◌, length, IfOk, OnOk, OnErr, Err};
ghost use Rattle.ix_blocks.specs.declared.file.NoRoom.TheVariants.{Full};
ghost use Rattle.ix_blocks.specs.Owners.{attach_of, sync_of};
ghost use Rattle.ix_blocks.specs.FileBlocks.{brings};
ghost use Rattle.ix_blocks.specs.inside.PlainBlocks.{plain_request};

use crate::{Block, Claim, File, Head, MOST_CHANGED, NoRoom, Seen};
use std::alloc::Global;

/// A transaction: if the head was put last at the revision `guard`, it puts the head and the
/// blocks, and deletes the blocks from `gone_from` on; else it does nothing.
#[derive(Debug, Drop)]
pub struct Request {
    /// The revision at which the head has to be put last.
    pub guard: u64,
    /// The head to put.
    pub head: Head,
    /// The blocks to put, at most `MOST_CHANGED`.
    pub puts: Vec<Block>,
    /// The number of the first block to delete.
    pub gone_from: Option<usize>,
}

impl Request {
    /// The transaction of an attach by an owner that saw this head. It keeps the file.
    pub fn attach(alloc: Global, seen: &Seen) -> Request
        ensures { plain_request result ≡ attach_of seen.now }
    {
        Request {
            guard: seen.revision,
            head: Head {
                owner: 0,
                sequence: 0,
                length: seen.head.length,
            },
            puts: Vec::new(alloc),
            gone_from: None,
        }
    }

    /// The transaction of the owner's next sync, which brings what changed of the file. Where there
    /// is no room, the claim stays; it is `Full` only after 2 ^ 64 - 1 syncs.
    pub fn sync(alloc: Global, claim: &mut Claim, file: &File) -> Result<Request, NoRoom>
        ensures request { IfOk result (λ request. plain_request request
            ≡ sync_of claim.old (brings file.now.changed.items file.now.bytes.items)) }
        ensures few { IfOk result (λ request. length request.puts.items ≤ MOST_CHANGED) }
        ensures counted { OnOk result
            (claim.new ≡ record claim.old { sequence = claim.old.sequence + 1 }) }
        ensures err { OnErr result (claim.new ≡ claim.old) }
        ensures full { result ≡ Err Full → claim.old.sequence + 1 ≡ 2 ^ 64 }
    {
        let Some(sequence) = claim.sequence.checked_add(1) else {
            return Err(NoRoom::Full);
        };
        let Ok(puts) = file.changed_blocks(alloc) else {
            return Err(NoRoom::Memory);
        };
        claim.sequence = sequence;
        Ok(Request {
            guard: claim.revision,
            head: Head {
                owner: claim.owner,
                sequence,
                length: file.length() as u64,
            },
            puts,
            gone_from: Some(file.block_count()),
        })
    }
}
