//! Loads a file of given values.
ghost use Rattle.std.specs.Prelude.{◌<◌, IfOk, IfErr, length};
ghost use Rattle.ix_lines.specs.TextLines.{lines_of};
ghost use Rattle.ix_next.specs.Lists.{AreGood};
ghost use Rattle.ix_outside.specs.FilesState.{OnlyFaults};
ghost use Rattle.ix_manage.specs.Desk.{ReadsValues};
ghost use Rattle.ix_manage.specs.inside.Values.{RefusesBytes, RefusesValues};

use crate::refusal::{Input, Refusal};
use ix_next::{Given, LineFault};
use ix_outside::{Files, LoadFault};
use std::alloc::Global;

/// The most bytes of a file of given values.
const MOST_BYTES: usize = 67_108_864;

/// The given values of the file, one on each line.
pub(crate) fn load_values<F: Files>(
    alloc: Global,
    files: &mut F,
    name: &str,
) -> Result<Vec<Given>, Refusal>
    ensures ok { IfOk result
        (λ given. ReadsValues (F.state files.old).contents name.now given.items) }
    ensures err { IfErr result
        (RefusesValues (F.state files.old) (F.state files.new) name.now) }
    ensures files { OnlyFaults (F.state files.old) (F.state files.new) }
{
    match files.load(alloc, name, MOST_BYTES) {
        Ok(bytes) => read_values(alloc, &bytes),
        Err(LoadFault::Failed) => Err(Refusal::Lost(Input::Values)),
        Err(LoadFault::TooLong) => Err(Refusal::Bad {
            file: Input::Values,
            code: 71,
            at: MOST_BYTES,
        }),
        Err(LoadFault::Memory) => Err(Refusal::Memory),
    }
}

fn read_values(alloc: Global, bytes: &[u8]) -> Result<Vec<Given>, Refusal>
    ensures good { IfOk result (λ given. AreGood (lines_of bytes.now) given.items) }
    ensures some { IfOk result (λ given. 0 < length given.items) }
    ensures err { IfErr result (RefusesBytes bytes.now) }
{
    match ix_next::read_values(alloc, bytes) {
        Ok(given) => Ok(given),
        Err(LineFault::Bad { code, at }) => Err(Refusal::Bad {
            file: Input::Values,
            code,
            at,
        }),
        Err(LineFault::Memory) => Err(Refusal::Memory),
    }
}
