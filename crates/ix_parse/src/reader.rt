//! The reader of operands: a stack machine that takes one token after the other.

ghost use Rattle.std.specs.Prelude.{◌≡◌, ℕ, ◌≤◌, ◌<◌, true, false, length, List, Some, IfOk};
ghost use Rattle.std.specs.Prelude.{IsSome, option_map};
ghost use Rattle.ix_parse.specs.Symbols as spec;
ghost use Rattle.ix_parse.specs.inside.StackMachine as machine;
ghost use Rattle.ix_parse.specs.inside.Judged as judging;
ghost use Rattle.ix_parse.specs.inside.Operands.{meaning_of};
ghost use Rattle.ix_parse.specs.inside.Stack.{stack_of};
ghost use Rattle.ix_parse.specs.inside.Views.{symbol_at};
ghost use Rattle.ix_parse.specs.inside.Configs.{config_of, mode_of, IsModeSound, IsReadable};
ghost use Rattle.ix_parse.specs.declared.signs.WordClass.TheVariants.{Names};

use crate::faults::Fault;
use crate::operand::Operand;
use crate::signs::{Follower, Quantifier, WordClass};
use crate::stack::{Entry, Left, Taking, closed, groups, level, levels, reduced};
use crate::symbols::Sign;
use crate::words::{class_of, number_of};
use ix_expr::Arg;
use ix_values::Name;
use std::alloc::{AllocError, Global};

/// What was read last. Beside the name of an atom, the word of a quantifier and `times` stands its
/// place.
#[derive(Drop)]
pub(crate) enum Mode {
    /// Nothing that an operand could follow: one is wanted.
    Wanted,
    NameRead(usize, Name),
    /// The parenthesis of an atom's arguments, or a comma in them.
    ArgumentWanted(usize, Name, Vec<Arg>),
    ArgumentRead(usize, Name, Vec<Arg>),
    QuantifierRead(usize, Quantifier),
    TimesRead(usize),
    OperandRead(Operand),
}

/// What is open, and what was read last.
#[derive(Drop)]
pub(crate) struct Reader {
    pub stack: Vec<Entry>,
    pub mode: Mode,
}

impl Reader {
    pub(crate) fn new(alloc: Global) -> Reader
        ensures { config_of result ≡ machine.start }
    {
        Reader {
            stack: Vec::new(alloc),
            mode: Mode::Wanted,
        }
    }

    /// The fault that the next token meets, if any, where `nodes` is how many tokens before it
    /// were nodes'. `next` tells what follows it: without a parameter a quantifier's word is
    /// reserved, without a word `times`.
    pub(crate) fn fault_of(
        &self,
        nodes: usize,
        at: usize,
        sign: Sign<'_>,
        next: Follower,
    ) -> Option<Fault>
        ensures { result
            ≡ judging.judged (config_of self.now) nodes (symbol_at at sign.entry) next }
    {
        if self.wants_operand() && is_reserved_word(sign, next) {
            Some(Fault::Reserved)
        } else if self.wants_number() && is_no_number(sign) {
            Some(Fault::NoNumber)
        } else if self.has_four_arguments() && matches!(sign, Sign::Comma) {
            Some(Fault::FifthArgument)
        } else if !self.may_come(sign) {
            Some(Fault::Unexpected)
        } else if is_long(sign) {
            Some(Fault::LongName)
        } else if self.wants_operand() && opens_level(sign) && levels(self.stack.as_slice()) == 64 {
            Some(Fault::TooDeep)
        } else if is_node(self.wants_operand(), sign) && nodes == 512 {
            Some(Fault::TooManyNodes)
        } else {
            None
        }
    }

    pub(crate) fn wants_operand(&self) -> bool
        ensures { result ≡ judging.is_wanted (mode_of self.now.mode) }
    {
        matches!(&self.mode, Mode::Wanted)
    }

    fn wants_number(&self) -> bool
        ensures { result ≡ judging.is_times (mode_of self.now.mode) }
    {
        matches!(&self.mode, Mode::TimesRead(_))
    }

    fn has_four_arguments(&self) -> bool
        ensures { result ≡ judging.has_four (mode_of self.now.mode) }
    {
        match &self.mode {
            Mode::ArgumentRead(_, _, args) => args.len() >= 4,
            _ => false,
        }
    }

    /// Whether some text goes on with the token.
    fn may_come(&self, sign: Sign<'_>) -> bool
        ensures { (at : ℕ)
            → result ≡ judging.may_come (config_of self.now) (symbol_at at sign.entry) }
    {
        let in_group = groups(self.stack.as_slice()) > 0;
        match &self.mode {
            Mode::Wanted => may_begin(sign),
            Mode::NameRead(_, _) => matches!(sign, Sign::Opening) || may_follow(in_group, sign),
            Mode::ArgumentWanted(_, _, _) => matches!(sign, Sign::Word(_) | Sign::Param(_)),
            Mode::ArgumentRead(_, _, args) => may_follow_argument(args.len(), sign),
            Mode::QuantifierRead(_, _) => matches!(sign, Sign::Param(_)),
            Mode::TimesRead(_) => is_number(sign),
            Mode::OperandRead(_) => may_follow(in_group, sign),
        }
    }
}

fn is_reserved_word(sign: Sign<'_>, next: Follower) -> bool
    ensures { (at : ℕ) → result ≡ judging.is_reserved_word (symbol_at at sign.entry) next }
{
    let Sign::Word(word) = sign else { return false };
    match class_of(word) {
        WordClass::Quantifies(_) => !matches!(next, Follower::Param),
        WordClass::Counts => !matches!(next, Follower::Word),
        WordClass::Names => false,
        WordClass::Other => false,
    }
}

fn is_number(sign: Sign<'_>) -> bool
    ensures { (at : ℕ) → result ≡ judging.is_number (symbol_at at sign.entry) }
{
    match sign {
        Sign::Word(word) => number_of(word).is_some(),
        _ => false,
    }
}

fn is_no_number(sign: Sign<'_>) -> bool
    ensures { (at : ℕ) → result ≡ judging.is_no_number (symbol_at at sign.entry) }
{
    match sign {
        Sign::Word(word) => number_of(word).is_none(),
        _ => false,
    }
}

fn may_begin(sign: Sign<'_>) -> bool
    ensures { (at : ℕ) → result ≡ judging.may_begin (symbol_at at sign.entry) }
{
    match sign {
        Sign::Word(word) => begins_operand(class_of(word)),
        Sign::Opening => true,
        Sign::Before(_) => true,
        _ => false,
    }
}

fn begins_operand(class: WordClass) -> bool
    ensures { result ≡ judging.begins_operand class }
{
    match class {
        WordClass::Quantifies(_) => true,
        WordClass::Counts => true,
        WordClass::Names => true,
        WordClass::Other => false,
    }
}

fn may_follow(in_group: bool, sign: Sign<'_>) -> bool
    ensures { (at : ℕ) → result ≡ judging.may_follow in_group (symbol_at at sign.entry) }
{
    match sign {
        Sign::Closing => in_group,
        Sign::Between(_) => true,
        _ => false,
    }
}

fn may_follow_argument(count: usize, sign: Sign<'_>) -> bool
    ensures { (at : ℕ) → result ≡ judging.may_follow_argument count (symbol_at at sign.entry) }
{
    match sign {
        Sign::Closing => true,
        Sign::Comma => count < 4,
        _ => false,
    }
}

fn is_long(sign: Sign<'_>) -> bool
    ensures { (at : ℕ) → result ≡ judging.is_long (symbol_at at sign.entry) }
{
    match sign {
        Sign::Word(word) => word.len() > 32,
        Sign::Param(name) => name.len() > 32,
        _ => false,
    }
}

fn opens_level(sign: Sign<'_>) -> bool
    ensures { (at : ℕ) → result ≡ judging.opens_level (symbol_at at sign.entry) }
{
    match sign {
        Sign::Word(word) => takes_operand(class_of(word)),
        Sign::Opening => true,
        Sign::Before(_) => true,
        _ => false,
    }
}

fn takes_operand(class: WordClass) -> bool
    ensures { result ≡ judging.takes_operand class }
{
    match class {
        WordClass::Quantifies(_) => true,
        WordClass::Counts => true,
        WordClass::Names => false,
        WordClass::Other => false,
    }
}

/// A word is a node's only where an operand is wanted: an argument is no node.
pub(crate) fn is_node(wants_operand: bool, sign: Sign<'_>) -> bool
    ensures { (at : ℕ) → result ≡ judging.is_node wants_operand (symbol_at at sign.entry) }
{
    match sign {
        Sign::Word(_) => wants_operand,
        Sign::Before(_) => true,
        Sign::Between(_) => true,
        _ => false,
    }
}
