//! The reader's loop over the tokens of a text.

ghost use Rattle.std.specs.Prelude.{◌≡◌, ℕ, ◌≤◌, length, IsSome, MatchResult, None, Some, ◌+◌};
ghost use Rattle.std.specs.Prelude.{if◌then◌else◌};
ghost use Rattle.ix_lex.specs.inside.Items.{plain_token};
ghost use Rattle.ix_parse.specs.Symbols.{symbol_of};
ghost use Rattle.ix_parse.specs.inside.StackMachine as machine;
ghost use Rattle.ix_parse.specs.inside.Judged as judging;
ghost use Rattle.ix_parse.specs.inside.Operands.{meaning_of};
ghost use Rattle.ix_parse.specs.inside.Configs.{config_of, mode_of, IsModeSound, IsReadable};
ghost use Rattle.ix_parse.specs.inside.Outcomes.{IsStepTaken, IsMeaning, IsEnded, piece_follower};

use crate::faults::Fault;
use crate::operand::Operand;
use crate::reader::{Reader, is_node};
use crate::signs::Follower;
use crate::step::{step, whole};
use crate::symbols::sign_of;
use crate::{MOST_BYTES, TextFault, fault_at};
use ix_lex::{LexFault, Token, TokenKind, Tokens};
use std::alloc::Global;

/// What was read, and how many nodes' tokens came.
#[derive(Drop)]
pub(crate) struct Reading {
    pub reader: Reader,
    pub nodes: usize,
}

fn follower(ahead: &Option<Result<Token<'_>, LexFault>>) -> Follower
    ensures { result ≡ piece_follower ahead.now }
{
    match ahead {
        Some(Ok(token)) => match token.kind {
            TokenKind::Word => Follower::Word,
            TokenKind::Param => Follower::Param,
            _ => Follower::Neither,
        },
        Some(Err(_)) => Follower::Neither,
        None => Follower::Neither,
    }
}

fn take(
    alloc: Global,
    reading: Reading,
    token: &Token<'_>,
    next: Follower,
) -> Result<Reading, TextFault>
    requires may { judging.judged (config_of reading.reader) reading.nodes
        (symbol_of (plain_token token.now)) next ≡ None
        → IsSome (machine.step (config_of reading.reader) (symbol_of (plain_token token.now))) }
    requires readable { judging.judged (config_of reading.reader) reading.nodes
        (symbol_of (plain_token token.now)) next ≡ None
        → IsReadable (symbol_of (plain_token token.now)) }
    requires sound { IsModeSound (mode_of reading.reader.mode) }
    requires few { reading.nodes ≤ 512 }
    ensures { IsStepTaken (config_of reading.reader) reading.nodes
        (plain_token token.now) next result }
{
    let Reading { reader, nodes } = reading;
    let at = token.start;
    let sign = sign_of(token);
    if let Some(fault) = reader.fault_of(nodes, at, sign, next) {
        return Err(fault_at(fault, at));
    }
    let more = with_node(nodes, is_node(reader.wants_operand(), sign));
    match step(alloc, reader, at, sign) {
        Ok(Some(reader)) => Ok(Reading {
            reader,
            nodes: more,
        }),
        Ok(None) => Err(fault_at(Fault::Unexpected, at)),
        Err(_) => Err(TextFault::Memory),
    }
}

fn with_node(nodes: usize, is_one: bool) -> usize
    requires { nodes ≤ 512 }
    ensures { result ≡ (if is_one then nodes + 1 else nodes) }
{
    if is_one { nodes + 1 } else { nodes }
}

pub(crate) fn read_operand(alloc: Global, text: &[u8]) -> Result<Operand, TextFault>
    requires { length text.now ≤ MOST_BYTES }
    ensures { IsMeaning text.now result }
{
    let mut tokens = Tokens::new(text);
    let mut ahead = tokens.next();
    let mut reading = Reading {
        reader: Reader::new(alloc),
        nodes: 0,
    };
    while let Some(piece) = ahead {
        ahead = tokens.next();
        let token = match piece {
            Ok(token) => token,
            Err(fault) => return Err(fault_at(Fault::NoToken, fault.at)),
        };
        reading = match take(alloc, reading, &token, follower(&ahead)) {
            Ok(reading) => reading,
            Err(fault) => return Err(fault),
        };
    }
    finish(alloc, reading.reader, text.len())
}

fn finish(alloc: Global, reader: Reader, end: usize) -> Result<Operand, TextFault>
    requires { IsModeSound (mode_of reader.mode) }
    ensures { MatchResult result
        (λ x. machine.whole (config_of reader) ≡ Some (meaning_of x))
        (λ fault. IsEnded (config_of reader) end fault) }
{
    match whole(alloc, reader) {
        Ok(Some(operand)) => Ok(operand),
        Ok(None) => Err(fault_at(Fault::Ended, end)),
        Err(_) => Err(TextFault::Memory),
    }
}
