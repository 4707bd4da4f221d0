//! What is open while a text is read: parentheses, prefixes, quantifiers, `times` with its number,
//! and operators with their left operands.

ghost use Rattle.std.specs.Prelude.{◌≡◌, ◌≤◌, List, ◌++◌, ◌∷◌, [], false, IfOk, MatchOption};
ghost use Rattle.std.specs.Prelude.{count_by, length, ◌-◌, slice_get};
ghost use Rattle.ix_parse.specs.Symbols as spec;
ghost use Rattle.ix_parse.specs.inside.StackMachine as machine;
ghost use Rattle.ix_parse.specs.inside.Stack.{stack_of, is_prefix_inmost, is_left_inmost, entry_of};
ghost use Rattle.ix_parse.specs.inside.Stack.{is_counted};
ghost use Rattle.ix_parse.specs.inside.Operands.{meaning_of};

use crate::operand::Operand;
use crate::signs::{Operator, Prefix, Quantifier};
use ix_values::Name;
use std::alloc::{AllocError, Global};

/// What stands in front of an operand and takes it alone.
#[derive(Clone, Copy)]
pub(crate) enum Taking {
    Sign(usize, Prefix),
    Binder(usize, Quantifier, Name),
    Counter(usize, u8),
}

/// An operator with its left operand.
#[derive(Drop)]
pub(crate) struct Left {
    pub at: usize,
    pub operator: Operator,
    pub operand: Operand,
}

/// What is open: a group, what takes an operand alone, or an operator with its left operand.
#[derive(Drop)]
pub(crate) enum Entry {
    Group,
    Taking(Taking),
    Left(Left),
}

/// How tightly an operator binds, the weakest first.
pub(crate) fn level(operator: Operator) -> u8
    ensures { result ≡ spec.level operator }
{
    match operator {
        Operator::Or => 1,
        Operator::And => 2,
        Operator::Couple => 3,
        Operator::Par => 4,
        Operator::Seq => 5,
    }
}

fn taking_inmost(stack: &[Entry]) -> Option<Taking>
    ensures { MatchOption result
        (is_prefix_inmost (stack_of stack.now) ≡ false)
        (λ taking. slice_get stack.now (length stack.now - 1) ≡ Some (Entry.Taking taking)) }
{
    match stack.last() {
        Some(Entry::Taking(taking)) => Some(*taking),
        Some(Entry::Left(_)) => None,
        Some(Entry::Group) => None,
        None => None,
    }
}

/// Whether the inmost is an operator that binds at least as tightly as the level.
fn binds_inmost(stack: &[Entry], lowest: u8) -> bool
    ensures { result ≡ is_left_inmost lowest (stack_of stack.now) }
{
    match stack.last() {
        Some(Entry::Left(left)) => lowest <= level(left.operator),
        Some(Entry::Taking(_)) => false,
        Some(Entry::Group) => false,
        None => false,
    }
}

fn pop_left(stack: &mut Vec<Entry>, lowest: u8) -> Option<Left>
    ensures { MatchOption result
        ((stack.new.items ≡ stack.old.items)
        × (is_left_inmost lowest (stack_of stack.old.items) ≡ false))
        (λ left. (stack.old.items ≡ stack.new.items ++ Entry.Left left ∷ [])
        × (lowest ≤ spec.level left.operator)) }
{
    if !binds_inmost(stack.as_slice(), lowest) {
        return None;
    }
    match stack.pop() {
        Some(Entry::Left(left)) => Some(left),
        Some(Entry::Taking(_)) => unreachable!(),
        Some(Entry::Group) => unreachable!(),
        None => unreachable!(),
    }
}

fn with_taking(alloc: Global, taking: Taking, operand: Operand) -> Result<Operand, AllocError>
    ensures { IfOk result
        (λ x. (s : List machine.Entry)
        → machine.closed (entry_of (Entry.Taking taking) ∷ s) (meaning_of operand)
        ≡ machine.closed s (meaning_of x)) }
{
    match taking {
        Taking::Sign(at, prefix) => operand.prefixed(alloc, prefix, at),
        Taking::Binder(at, quantifier, param) => {
            operand.quantified(alloc, quantifier, at, param)
        }
        Taking::Counter(at, number) => operand.counted(alloc, number, at),
    }
}

/// The operand with the prefixes in front of it, which are open no more.
pub(crate) fn closed(
    alloc: Global,
    stack: &mut Vec<Entry>,
    operand: Operand,
) -> Result<Operand, AllocError>
    ensures { IfOk result (λ x. machine.closed (stack_of stack.old.items) (meaning_of operand)
        ≡ machine.operand_held (stack_of stack.new.items) (meaning_of x)) }
{
    let mut operand = operand;
    while let Some(taking) = taking_inmost(stack.as_slice()) {
        let _ = stack.pop();
        operand = with_taking(alloc, taking, operand)?;
    }
    Ok(operand)
}

/// The operand joined to the left operands of operators that bind at least as tightly as the level.
pub(crate) fn reduced(
    alloc: Global,
    stack: &mut Vec<Entry>,
    lowest: u8,
    operand: Operand,
) -> Result<Operand, AllocError>
    ensures { IfOk result
        (λ x. machine.reduced lowest (stack_of stack.old.items) (meaning_of operand)
        ≡ machine.operand_held (stack_of stack.new.items) (meaning_of x)) }
{
    let mut operand = operand;
    while let Some(left) = pop_left(stack, lowest) {
        let Left {
            at,
            operator,
            operand: left,
        } = left;
        operand = left.joined(alloc, operator, at, operand)?;
    }
    Ok(operand)
}

pub(crate) fn levels(stack: &[Entry]) -> usize
    ensures { result ≡ machine.levels (stack_of stack.now) }
{
    count_of(stack, true)
}

pub(crate) fn groups(stack: &[Entry]) -> usize
    ensures { result ≡ machine.groups (stack_of stack.now) }
{
    count_of(stack, false)
}

/// How many groups are open, and with `takings` also what takes an operand alone.
fn count_of(stack: &[Entry], takings: bool) -> usize
    ensures { result ≡ count_by (λ e. is_counted takings e) stack.now }
{
    stack
        .iter()
        .filter(|entry| is_counted(entry, takings))
        .count()
}

fn is_counted(entry: &Entry, takings: bool) -> bool
    ensures { result ≡ is_counted takings entry.now }
{
    match entry {
        Entry::Group => true,
        Entry::Taking(_) => takings,
        Entry::Left(_) => false,
    }
}
