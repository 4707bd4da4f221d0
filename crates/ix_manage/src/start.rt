//! The engines that a trace and a work begin with, and the follower that a follow begins with.
ghost use Rattle.std.specs.Prelude.{◌≡◌, ◌≤◌, [], IfOk, IfErr, OnOk};
ghost use Rattle.ix_cli.specs.Commands.{most_nodes};
ghost use Rattle.ix_can.specs.TreeOf.{tree_size};
ghost use Rattle.ix_generate.specs.Workload.{examinations};
ghost use Rattle.ix_parse.specs.Faults.{StandsFor};
ghost use Rattle.ix_outside.specs.FilesState.{OnlyFaults};
ghost use Rattle.ix_manage.specs.inside.Refusal.{RefusesForm, RefusesStart, RefusesWorkload};
ghost use Rattle.ix_manage.specs.Trace.{Starts};

use crate::load::{load_expression, read_expression};
use crate::refusal::Refusal;
use ix_engine::Engine;
use ix_expr::Expression;
use ix_follow::Follower;
use ix_generate::EXAMINATIONS;
use ix_outside::Files;
use ix_step::BuildFault;
use std::alloc::Global;

pub(crate) fn start<F: Files>(
    alloc: Global,
    files: &mut F,
    name: &str,
    limit: usize,
) -> Result<Engine, Refusal>
    requires least { 1 ≤ limit }
    requires most { limit ≤ most_nodes }

    ensures starts { IfOk result
        (λ engine. Starts (F.state files.old).contents name.now limit engine.form) }
    ensures limit { IfOk result (λ engine. engine.limit ≡ limit) }
    ensures history { IfOk result (λ engine. engine.history ≡ []) }
    ensures err { IfErr result
        (RefusesStart (F.state files.old) (F.state files.new) name.now limit) }

    ensures files { OnlyFaults (F.state files.old) (F.state files.new) }
{
    let expression = load_expression(alloc, files, name)?;
    engine_of(alloc, expression, limit)
}

pub(crate) fn start_follower<F: Files>(
    alloc: Global,
    files: &mut F,
    name: &str,
    limit: usize,
) -> Result<Follower, Refusal>
    requires least { 1 ≤ limit }
    requires most { limit ≤ most_nodes }

    ensures starts { IfOk result
        (λ follower. Starts (F.state files.old).contents name.now limit follower.form) }
    ensures limit { IfOk result (λ follower. follower.limit ≡ limit) }
    ensures history { IfOk result (λ follower. follower.history ≡ []) }
    ensures err { IfErr result
        (RefusesStart (F.state files.old) (F.state files.new) name.now limit) }

    ensures files { OnlyFaults (F.state files.old) (F.state files.new) }
{
    let expression = load_expression(alloc, files, name)?;
    follower_of(alloc, expression, limit)
}

/// The engine that a work begins with.
pub(crate) fn start_workload(alloc: Global, limit: usize) -> Result<Engine, Refusal>
    requires least { 1 ≤ limit }
    requires most { limit ≤ most_nodes }

    ensures stands { IfOk result (λ engine. StandsFor examinations engine.form) }
    ensures small { IfOk result (λ engine. tree_size engine.form [] ≤ limit) }
    ensures limit { IfOk result (λ engine. engine.limit ≡ limit) }
    ensures history { IfOk result (λ engine. engine.history ≡ []) }
    ensures err { IfErr result (RefusesWorkload limit) }
{
    let expression = read_expression(alloc, EXAMINATIONS)?;
    engine_of(alloc, expression, limit)
}

pub(crate) fn engine_of(
    alloc: Global,
    expression: Expression,
    limit: usize,
) -> Result<Engine, Refusal>
    requires least { 1 ≤ limit }
    requires most { limit ≤ most_nodes }

    ensures form { IfOk result (λ engine. engine.form ≡ expression) }
    ensures small { OnOk result (tree_size expression [] ≤ limit) }
    ensures limit { IfOk result (λ engine. engine.limit ≡ limit) }
    ensures history { IfOk result (λ engine. engine.history ≡ []) }
    ensures err { IfErr result (RefusesForm expression limit) }
{
    match Engine::new(alloc, expression, limit) {
        Ok(engine) => Ok(engine),
        Err(BuildFault::Over { limit }) => Err(Refusal::Large { limit }),
        Err(BuildFault::Memory) => Err(Refusal::Memory),
    }
}

fn follower_of(alloc: Global, expression: Expression, limit: usize) -> Result<Follower, Refusal>
    requires least { 1 ≤ limit }
    requires most { limit ≤ most_nodes }

    ensures form { IfOk result (λ follower. follower.form ≡ expression) }
    ensures small { OnOk result (tree_size expression [] ≤ limit) }
    ensures limit { IfOk result (λ follower. follower.limit ≡ limit) }
    ensures history { IfOk result (λ follower. follower.history ≡ []) }
    ensures err { IfErr result (RefusesForm expression limit) }
{
    match Follower::new(alloc, expression, limit) {
        Ok(follower) => Ok(follower),
        Err(BuildFault::Over { limit }) => Err(Refusal::Large { limit }),
        Err(BuildFault::Memory) => Err(Refusal::Memory),
    }
}
