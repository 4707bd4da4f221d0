//! Files that are read whole.
ghost use Rattle.std.specs.Prelude.{◌≤◌, length, IfOk, IsErrOf};
ghost use Rattle.ix_outside.specs.Counts.{Rose};
ghost use Rattle.ix_outside.specs.Files.{HasFile, HasLonger};
ghost use Rattle.ix_outside.specs.FilesState.{FilesState, OnlyFaults};

use crate::LoadFault;
use std::alloc::Global;

/// Files under names.
pub trait Files {
    /// What a proof knows of the object.
    ghost state: { Self → FilesState };

    /// The bytes of the file of this name, at most `limit` of them. The files stay as they were.
    fn load(&mut self, alloc: Global, name: &str, limit: usize) -> Result<Vec<u8>, LoadFault>
        ensures bytes { IfOk result
            (λ bytes. HasFile (state self.old).contents name.now bytes.items) }
        ensures within { IfOk result (λ bytes. length bytes.items ≤ limit) }
        ensures too_long { IsErrOf result LoadFault.TooLong
            → HasLonger (state self.old).contents name.now limit }
        ensures failed { IsErrOf result LoadFault.Failed
            → Rose (state self.old).faults (state self.new).faults }
        ensures rest { OnlyFaults (state self.old) (state self.new) };
}
