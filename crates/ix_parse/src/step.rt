//! The steps of the reader, by what was read last. A token that can't come gives no reader.

ghost use Rattle.std.specs.Prelude.{◌≡◌, ℕ, ◌≤◌, true, [], length, List, Some, IfOk};
ghost use Rattle.std.specs.Prelude.{option_map};
ghost use Rattle.ix_values.specs.Texts.{IsValue};
ghost use Rattle.ix_parse.specs.Symbols as spec;
ghost use Rattle.ix_parse.specs.inside.StackMachine as machine;
ghost use Rattle.ix_parse.specs.inside.Operands.{meaning_of};
ghost use Rattle.ix_parse.specs.inside.Stack.{stack_of};
ghost use Rattle.ix_parse.specs.inside.Views.{symbol_at};
ghost use Rattle.ix_parse.specs.inside.Configs.{config_of, mode_of, IsModeSound, IsReadable};
ghost use Rattle.ix_parse.specs.declared.signs.WordClass.TheVariants.{Names};

use crate::operand::Operand;
use crate::reader::{Mode, Reader};
use crate::signs::{Operator, Quantifier, WordClass};
use crate::stack::{Entry, Left, Taking, closed, level, reduced};
use crate::symbols::Sign;
use crate::words::{class_of, number_of};
use ix_expr::Arg;
use ix_values::{Name, Value};
use std::alloc::{AllocError, Global};

#[tactic(auto, using(crate::proofs::Stacks::pushed))]
fn step_wanted(stack: Vec<Entry>, at: usize, sign: Sign<'_>) -> Result<Option<Reader>, AllocError>
    requires { IsReadable (symbol_at at sign) }
    ensures { IfOk result (λ r. option_map config_of r
        ≡ machine.step_wanted (stack_of stack.items) (symbol_at at sign.entry)) }
{
    let mut stack = stack;
    match sign {
        Sign::Word(word) => match word_mode(at, word) {
            Some(mode) => Ok(Some(Reader { stack, mode })),
            None => Ok(None),
        },
        Sign::Opening => {
            stack.push(Entry::Group)?;
            Ok(Some(wanting(stack)))
        }
        Sign::Before(prefix) => {
            stack.push(Entry::Taking(Taking::Sign(at, prefix)))?;
            Ok(Some(wanting(stack)))
        }
        _ => Ok(None),
    }
}

/// A reader that wants an operand.
fn wanting(stack: Vec<Entry>) -> Reader
    ensures { config_of result ≡ machine.config (stack_of stack.items) machine.wanted }
{
    Reader {
        stack,
        mode: Mode::Wanted,
    }
}

fn word_mode(at: usize, word: &[u8]) -> Option<Mode>
    requires { IsValue word.now }
    ensures { (s : List machine.Entry)
        → option_map (λ mode. machine.config s (mode_of mode)) result
        ≡ machine.step_word s at word.now (spec.class_of word.now) }
{
    match class_of(word) {
        WordClass::Quantifies(quantifier) => Some(Mode::QuantifierRead(at, quantifier)),
        WordClass::Names => Some(Mode::NameRead(at, Name::of_text(word))),
        WordClass::Counts => Some(Mode::TimesRead(at)),
        WordClass::Other => None,
    }
}

fn step_name(
    alloc: Global,
    stack: Vec<Entry>,
    name_at: usize,
    name: Name,
    at: usize,
    sign: Sign<'_>,
) -> Result<Option<Reader>, AllocError>
    requires { spec.class_of name ≡ Names }
    ensures { IfOk result (λ r. option_map config_of r
        ≡ machine.step_name (stack_of stack.items) name_at name (symbol_at at sign.entry)) }
{
    let mut stack = stack;
    match sign {
        Sign::Opening => Ok(Some(Reader {
            stack,
            mode: Mode::ArgumentWanted(name_at, name, Vec::new(alloc)),
        })),
        Sign::Closing => {
            let atom = Operand::atom(alloc, name_at, name, &[])?;
            let operand = closed(alloc, &mut stack, atom)?;
            leave(alloc, stack, operand)
        }
        Sign::Between(operator) => {
            let atom = Operand::atom(alloc, name_at, name, &[])?;
            let operand = closed(alloc, &mut stack, atom)?;
            Ok(Some(join(alloc, stack, operand, at, operator)?))
        }
        _ => Ok(None),
    }
}

fn step_operand(
    alloc: Global,
    stack: Vec<Entry>,
    operand: Operand,
    at: usize,
    sign: Sign<'_>,
) -> Result<Option<Reader>, AllocError>
    ensures { IfOk result (λ r. option_map config_of r
        ≡ machine.step_operand (stack_of stack.items) (meaning_of operand)
        (symbol_at at sign.entry)) }
{
    match sign {
        Sign::Closing => leave(alloc, stack, operand),
        Sign::Between(operator) => Ok(Some(join(alloc, stack, operand, at, operator)?)),
        _ => Ok(None),
    }
}

#[tactic(auto, using(crate::proofs::Stacks::pushed))]
fn join(
    alloc: Global,
    stack: Vec<Entry>,
    operand: Operand,
    at: usize,
    operator: Operator,
) -> Result<Reader, AllocError>
    ensures { IfOk result (λ r. Some (config_of r)
        ≡ machine.step_operand (stack_of stack.items) (meaning_of operand)
        (spec.between at operator)) }
{
    let mut stack = stack;
    let operand = reduced(alloc, &mut stack, level(operator), operand)?;
    stack.push(Entry::Left(Left {
        at,
        operator,
        operand,
    }))?;
    Ok(wanting(stack))
}

/// A closing parenthesis behind an operand, which leaves the group that is inmost.
fn leave(alloc: Global, stack: Vec<Entry>, operand: Operand) -> Result<Option<Reader>, AllocError>
    ensures { IfOk result (λ r. option_map config_of r
        ≡ machine.step_operand (stack_of stack.items) (meaning_of operand) spec.closing) }
{
    let mut stack = stack;
    let inner = reduced(alloc, &mut stack, 1, operand)?;
    match stack.pop() {
        Some(Entry::Group) => {
            let group = closed(alloc, &mut stack, inner)?;
            Ok(Some(behind(stack, group)))
        }
        Some(Entry::Taking(_)) => Ok(None),
        Some(Entry::Left(_)) => Ok(None),
        None => Ok(None),
    }
}

/// A reader behind an operand.
fn behind(stack: Vec<Entry>, operand: Operand) -> Reader
    ensures { config_of result
        ≡ machine.with_operand (machine.operand_held (stack_of stack.items) (meaning_of operand)) }
{
    Reader {
        stack,
        mode: Mode::OperandRead(operand),
    }
}

fn step_argument(
    stack: Vec<Entry>,
    name_at: usize,
    name: Name,
    args: Vec<Arg>,
    at: usize,
    sign: Sign<'_>,
) -> Result<Option<Reader>, AllocError>
    requires { IsReadable (symbol_at at sign) }
    ensures { IfOk result (λ r. option_map config_of r
        ≡ machine.with_argument (stack_of stack.items) name_at name args.items
        (spec.argument_of (symbol_at at sign.entry))) }
{
    let mut args = args;
    let arg = match sign {
        Sign::Word(word) => Arg::Fixed(Value::of_text(word)),
        Sign::Param(param) => Arg::Param(Name::of_text(param)),
        _ => return Ok(None),
    };
    args.push(arg)?;
    Ok(Some(Reader {
        stack,
        mode: Mode::ArgumentRead(name_at, name, args),
    }))
}

fn step_behind_argument(
    alloc: Global,
    stack: Vec<Entry>,
    name_at: usize,
    name: Name,
    args: Vec<Arg>,
    sign: Sign<'_>,
) -> Result<Option<Reader>, AllocError>
    requires named { spec.class_of name ≡ Names }
    requires few { length args.items ≤ 4 }
    ensures { IfOk result (λ r. (at : ℕ) → option_map config_of r
        ≡ machine.step_argument (stack_of stack.items) name_at name args.items
        (symbol_at at sign.entry)) }
{
    let mut stack = stack;
    match sign {
        Sign::Comma if args.len() < 4 => Ok(Some(Reader {
            stack,
            mode: Mode::ArgumentWanted(name_at, name, args),
        })),
        Sign::Closing => {
            let atom = Operand::atom(alloc, name_at, name, args.as_slice())?;
            let operand = closed(alloc, &mut stack, atom)?;
            Ok(Some(behind(stack, operand)))
        }
        _ => Ok(None),
    }
}

#[tactic(auto, using(crate::proofs::Stacks::pushed))]
fn step_quantifier(
    stack: Vec<Entry>,
    word_at: usize,
    quantifier: Quantifier,
    at: usize,
    sign: Sign<'_>,
) -> Result<Option<Reader>, AllocError>
    requires { IsReadable (symbol_at at sign) }
    ensures { IfOk result (λ r. option_map config_of r
        ≡ machine.step_quantifier (stack_of stack.items) word_at quantifier
        (symbol_at at sign.entry)) }
{
    let Sign::Param(param) = sign else {
        return Ok(None);
    };
    let mut stack = stack;
    let taking = Taking::Binder(word_at, quantifier, Name::of_text(param));
    stack.push(Entry::Taking(taking))?;
    Ok(Some(wanting(stack)))
}

#[tactic(auto, using(crate::proofs::Stacks::pushed))]
fn step_times(
    stack: Vec<Entry>,
    word_at: usize,
    sign: Sign<'_>,
) -> Result<Option<Reader>, AllocError>
    ensures { IfOk result (λ r. (at : ℕ) → option_map config_of r
        ≡ machine.step_times (stack_of stack.items) word_at (symbol_at at sign.entry)) }
{
    let Sign::Word(word) = sign else {
        return Ok(None);
    };
    let Some(number) = number_of(word) else {
        return Ok(None);
    };
    let mut stack = stack;
    stack.push(Entry::Taking(Taking::Counter(word_at, number)))?;
    Ok(Some(wanting(stack)))
}

/// The reader behind the token, or None where the token can't come.
pub(crate) fn step(
    alloc: Global,
    reader: Reader,
    at: usize,
    sign: Sign<'_>,
) -> Result<Option<Reader>, AllocError>
    requires sound { IsModeSound (mode_of reader.mode) }
    requires readable { IsReadable (symbol_at at sign) }
    ensures { IfOk result (λ r. option_map config_of r
        ≡ machine.step (config_of reader) (symbol_at at sign.entry)) }
{
    let Reader { stack, mode } = reader;
    match mode {
        Mode::Wanted => step_wanted(stack, at, sign),
        Mode::NameRead(name_at, name) => step_name(alloc, stack, name_at, name, at, sign),
        Mode::ArgumentWanted(name_at, name, args) => {
            step_argument(stack, name_at, name, args, at, sign)
        }
        Mode::ArgumentRead(name_at, name, args) => {
            step_behind_argument(alloc, stack, name_at, name, args, sign)
        }
        Mode::QuantifierRead(word_at, quantifier) => {
            step_quantifier(stack, word_at, quantifier, at, sign)
        }
        Mode::TimesRead(word_at) => step_times(stack, word_at, sign),
        Mode::OperandRead(operand) => step_operand(alloc, stack, operand, at, sign),
    }
}

/// The operand that was read, or None where the text isn't whole.
pub(crate) fn whole(alloc: Global, reader: Reader) -> Result<Option<Operand>, AllocError>
    requires { IsModeSound (mode_of reader.mode) }
    ensures { IfOk result (λ x. option_map meaning_of x ≡ machine.whole (config_of reader)) }
{
    let Reader { stack, mode } = reader;
    match mode {
        Mode::NameRead(at, name) => {
            let mut stack = stack;
            let atom = Operand::atom(alloc, at, name, &[])?;
            let operand = closed(alloc, &mut stack, atom)?;
            whole_operand(alloc, stack, operand)
        }
        Mode::OperandRead(operand) => whole_operand(alloc, stack, operand),
        Mode::Wanted => Ok(None),
        Mode::ArgumentWanted(_, _, _) => Ok(None),
        Mode::ArgumentRead(_, _, _) => Ok(None),
        Mode::QuantifierRead(_, _) => Ok(None),
        Mode::TimesRead(_) => Ok(None),
    }
}

fn whole_operand(
    alloc: Global,
    stack: Vec<Entry>,
    operand: Operand,
) -> Result<Option<Operand>, AllocError>
    ensures { IfOk result
        (λ x. option_map meaning_of x
        ≡ machine.joined_all
        (Some (machine.operand_held (stack_of stack.items) (meaning_of operand)))) }
{
    let mut stack = stack;
    let whole = reduced(alloc, &mut stack, 1, operand)?;
    if stack.as_slice().is_empty() {
        return Ok(Some(whole));
    }
    Ok(None)
}
