//! One run of `work`, up to the last line that a refusal puts.
ghost use Rattle.std.specs.Prelude.{◌≡◌, ◌≤◌, [], IfOk};
ghost use Rattle.ix_cli.specs.Commands.{most_asks, most_nodes};
ghost use Rattle.ix_outside.specs.SinkState.{OnlyPuts};
ghost use Rattle.ix_manage.specs.inside.Leaves.{LeavesOutput};
ghost use Rattle.ix_manage.specs.inside.Working.{AsksNext, Sums, WorkEnds};

use crate::early_end::EarlyEnd;
use crate::job::WorkWords;
use crate::start::start_workload;
use arrayvec::ArrayVec;
use ix_engine::{Engine, PrepareFault};
use ix_generate::Workload;
use ix_lines::{append, append_number};
use ix_outside::Sink;
use std::alloc::{AllocError, Global};

/// How many asks there were, were granted and were refused, and the Size of the tree behind them.
#[derive(Clone, Copy)]
struct Summary {
    asked: u64,
    granted: u64,
    refused: u64,
    nodes: usize,
}

impl Summary {
    ghost use Rattle.ix_manage.specs.Work.{work_line};

    fn line(self) -> ArrayVec<u8, 128>
        ensures { result.items ≡ work_line self.asked self.granted self.refused self.nodes }
    {
        let mut line = ArrayVec::new();
        append(&mut line, b"asked ");
        append_number(&mut line, self.asked);
        append(&mut line, b" granted ");
        append_number(&mut line, self.granted);
        append(&mut line, b" refused ");
        append_number(&mut line, self.refused);
        append(&mut line, b" nodes ");
        append_number(&mut line, self.nodes as u64);
        append(&mut line, b"\n");
        line
    }
}

/// Makes the asks of the workload, and puts the line that sums them up.
pub(crate) fn work<K: Sink>(alloc: Global, names: WorkWords, out: &mut K) -> Result<(), EarlyEnd>
    requires least { 1 ≤ names.limit }
    requires most { names.limit ≤ most_nodes }
    requires count { names.count ≤ most_asks }

    ensures leaves { LeavesOutput (WorkEnds names) (K.state out.old) (K.state out.new) result }
    ensures puts { OnlyPuts (K.state out.old) (K.state out.new) }
{
    let mut engine = start_workload(alloc, names.limit)?;
    let summary = ask_all(alloc, &mut engine, names)?;
    out.put(&summary.line())?;
    Ok(())
}

/// Makes the asks, of an engine whose history is empty.
fn ask_all(alloc: Global, engine: &mut Engine, names: WorkWords) -> Result<Summary, AllocError>
    requires count { names.count ≤ most_asks }
    requires limit { engine.old.limit ≡ names.limit }
    requires empty { engine.old.history ≡ [] }

    ensures { IfOk result (Sums engine.old.form names) }
{
    let mut workload = Workload::new(names.seed);
    let mut granted = 0;
    let mut refused = 0;
    for _ask in 0..names.count {
        if ask_next(alloc, engine, &mut workload)? {
            granted += 1;
        } else {
            refused += 1;
        }
    }
    Ok(Summary {
        asked: names.count,
        granted,
        refused,
        nodes: engine.nodes(),
    })
}

/// Whether the next ask is granted; it joins the history then.
fn ask_next(alloc: Global, engine: &mut Engine, workload: &mut Workload) -> Result<bool, AllocError>
    ensures asks { IfOk result
        (λ granted. AsksNext engine.old workload.old granted engine.new.history workload.new) }
    ensures form { engine.new.form ≡ engine.old.form }
    ensures limit { engine.new.limit ≡ engine.old.limit }
{
    let action = workload.draw();
    match engine.take(alloc, &action) {
        Ok(()) => {
            workload.granted(&action);
            Ok(true)
        }
        Err(PrepareFault::Memory) => Err(AllocError),
        Err(PrepareFault::NotPartial) => Ok(false),
        Err(PrepareFault::Full) => Ok(false),
        Err(PrepareFault::Over { .. }) => Ok(false),
    }
}
