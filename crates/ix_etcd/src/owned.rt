//! A file over keys that its owner may lose at any moment.
ghost use Rattle.std.specs.Prelude.{◌≡◌, true, false, OnOk, OnErr};

use ix_blocks::{Blocks, Fault, Keys};
use std::alloc::Global;

/// A file that was attached, its keys, and whether its owner is sure of it: whether it was seen,
/// since the last event, that no other owner attached. Once that wasn't seen, it is lost for good.
#[derive(Drop)]
pub(crate) struct Owned<K> {
    pub(crate) keys: K,
    pub(crate) blocks: Blocks,
    sure: bool,
    lost: bool,
}

impl<K: Keys> Owned<K> {
    /// A file that was attached just now.
    pub(crate) fn new(keys: K, blocks: Blocks) -> Owned<K>
        ensures { result.sure ≡ false }
    {
        Owned {
            keys,
            blocks,
            sure: false,
            lost: false,
        }
    }

    /// An event comes: nothing is sure any more. False where the file is lost, so that nothing that
    /// is asked for is answered.
    pub(crate) fn begin_event(&mut self) -> bool
        ensures { self.new.sure ≡ false }
    {
        self.sure = false;
        !self.lost
    }

    /// Whether a reply may go out: the owner is sure, or the store tells now that no other one
    /// attached.
    pub(crate) fn may_reply(&mut self) -> bool
        ensures { result ≡ self.new.sure }
    {
        if !self.sure && !self.lost {
            self.sure = self.blocks.check(&mut self.keys).is_ok();
            self.lost = !self.sure;
        }
        self.sure
    }

    /// Brings what was written to the store. After Ok the owner is sure of the file; after a fault
    /// it isn't.
    pub(crate) fn sync(&mut self, alloc: Global) -> Result<(), Fault>
        ensures ok { OnOk result (self.new.sure ≡ true) }
        ensures err { OnErr result (self.new.sure ≡ false) }
    {
        let synced = self.blocks.sync(alloc, &mut self.keys);
        self.sure = synced.is_ok();
        synced
    }
}
