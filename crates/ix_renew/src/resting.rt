//! A journal that rests, read from the bytes of its file.

ghost use Rattle.std.specs.Prelude.{◌≡◌, ◌+◌, ◌<◌, ◌≤◌, ◌^◌, ◌++◌, length, IfOk, IfErr, OnOk};
ghost use Rattle.std.specs.Prelude.{MatchResult};
ghost use Rattle.ix_can.specs.TreeOf.{tree_size};
ghost use Rattle.ix_expr.specs.CanonicalText.{canonical_text};
ghost use Rattle.ix_step.specs.inside.Limits.{most_size};
ghost use Rattle.ix_journal.specs.Entries.{pair_of, renewed_of};
ghost use Rattle.ix_journal.specs.History.{actions_of};
ghost use Rattle.ix_journal.specs.inside.Counting.{AreNotMany, AreSound};
ghost use Rattle.ix_renew.specs.inside.Renewing.{TellsActions, IsOfOther, ReadsAs, RefusesRead};
ghost use Rattle.ix_renew.specs.inside.Renewing.{RefusesHistory, RestsAs, StopsAtRecord};

use crate::RenewalFault;
use ix_engine::Engine;
use ix_expr::Expression;
use ix_journal::{Entry, Head, Marks, Records, header_of};
use ix_values::Action;
use std::alloc::{AllocError, Global};

/// The most actions and boots that a renewal may say: 2^63.
const MOST_COUNT: u64 = 1 << 63;

/// What the open records of a journal tell.
#[derive(Drop)]
struct Kept {
    actions: Vec<Action>,
    marks: Marks,
}

/// The engine of a journal's history, its count and the number of its last boot.
#[derive(Drop)]
pub(crate) struct Resting {
    pub(crate) engine: Engine,
    pub(crate) actions: u64,
    pub(crate) boots: u64,
}

/// Takes the history of a journal, whose expression has this text.
pub(crate) fn rest(
    alloc: Global,
    expression: Expression,
    limit: usize,
    journal: &[u8],
    text: &[u8],
) -> Result<Resting, RenewalFault>
    requires least { 1 ≤ limit }
    requires most { limit ≤ most_size }
    requires text { text.now ≡ canonical_text expression }
    ensures { MatchResult result
        (λ resting. RestsAs expression limit journal.now resting.engine resting.actions
        resting.boots)
        (RefusesHistory expression limit journal.now) }
{
    let engine = Engine::new(alloc, expression, limit)?;
    let kept = read_journal(alloc, journal, text)?;
    let actions = count(&kept.marks);
    let boots = kept.marks.boots;
    if actions > MOST_COUNT || boots > MOST_COUNT {
        return Err(RenewalFault::Many);
    }
    let engine = engine.resume(alloc, kept.actions)?;
    Ok(Resting {
        engine,
        actions,
        boots,
    })
}

/// How many actions were confirmed: those of the journals before among them.
fn count(marks: &Marks) -> u64
    requires sound { AreSound marks.now }
    requires few { AreNotMany marks.now }
    ensures { result + (renewed_of marks.now).carried
        ≡ (renewed_of marks.now).actions + marks.now.actions }
{
    let renewed = marks.renewed();
    renewed.actions - renewed.carried + marks.actions
}

/// What the open records of the journal of this text tell.
fn read_journal(alloc: Global, journal: &[u8], text: &[u8]) -> Result<Kept, RenewalFault>
    ensures { MatchResult result
        (λ kept. ReadsAs journal.now text.now kept.actions.items kept.marks)
        (RefusesRead text.now journal.now) }
{
    match header_of(journal) {
        Head::Unfinished => Err(RenewalFault::Unopened),
        Head::Foreign => Err(RenewalFault::Foreign),
        Head::Unopened { text: kept } => {
            if kept != text {
                return Err(other_expression(alloc, kept));
            }
            Err(RenewalFault::Unopened)
        }
        Head::Ready { text: kept, gate } => {
            if kept != text {
                return Err(other_expression(alloc, kept));
            }
            read_records(alloc, journal, gate)
        }
    }
}

/// The fault of a file that keeps another text.
fn other_expression(alloc: Global, kept: &[u8]) -> RenewalFault
    ensures { IsOfOther kept.now result }
{
    match Vec::from_slice(alloc, kept) {
        Ok(kept) => RenewalFault::Other { kept },
        Err(_) => RenewalFault::Memory,
    }
}

/// What the open records tell from this gate on.
fn read_records(alloc: Global, journal: &[u8], first: usize) -> Result<Kept, RenewalFault>
    requires { first < length journal.now }
    ensures { MatchResult result
        (λ kept. TellsActions journal.now first kept.actions.items kept.marks)
        (StopsAtRecord journal.now first) }
{
    let mut records = Records::new(journal, first);
    let mut actions = Vec::new(alloc);
    while let Some(item) = records.next() {
        let text = match item {
            Ok(text) => text,
            Err(damaged) => return Err(RenewalFault::Damaged { at: damaged.at }),
        };
        if records.marks().are_many() {
            return Err(RenewalFault::Many);
        }
        keep(&mut actions, Entry::of_text(text))?;
    }
    let marks = records.marks();
    Ok(Kept { actions, marks })
}

/// Keeps the action that a record tells, if it tells one.
fn keep(actions: &mut Vec<Action>, entry: Entry) -> Result<(), AllocError>
    ensures { OnOk result (actions.new.items ≡ actions.old.items ++ actions_of (pair_of entry)) }
{
    let action = match entry {
        Entry::Renewed { .. } | Entry::Boot(_) => return Ok(()),
        Entry::Spent { action, .. } | Entry::Plain(action) => action,
    };
    actions.push(action)?;
    Ok(())
}
