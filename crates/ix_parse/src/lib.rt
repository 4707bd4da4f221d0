//! Reads expressions from their texts, and tells the first fault of a text that is none.
#![tactic(auto)]

ghost use Rattle.std.specs.Prelude.{◌≡◌, IfOk, IfErr};
ghost use Rattle.ix_parse.specs.Faults as spec;
ghost use Rattle.ix_parse.specs.inside.Outcomes.{IsFaultOf, HasPlaces, IsPlacedOr};
ghost use Rattle.ix_parse.specs.inside.Operands.{meaning_of};
ghost use Rattle.ix_expr.specs.FormFaults.{HasNumbers};
ghost use Rattle.ix_expr.specs.inside.FormOf.{form_of};

mod faults;
pub mod laws;
mod operand;
mod reader;
mod signs;
mod stack;
mod step;
mod symbols;
mod taking;
mod words;

use crate::faults::Fault;
use crate::operand::Operand;
use crate::taking::read_operand;
use ix_expr::Expression;
use std::alloc::Global;

/// The most bytes of an expression's text.
pub(crate) const MOST_BYTES: usize = 16384;

/// Why a text is no expression: its first fault, by its code and the place where it is
/// met, or want of memory.
#[derive(Clone, Copy, Debug, PartialEq, Eq)]
pub enum TextFault {
    Bad { code: u8, at: usize },
    Memory,
}

/// An expression, and where each of its nodes starts in the text that it was read from, the nodes
/// in pre-order: an atom at its name, any other node at its operator, its prefix, its quantifier's
/// word or its `times`.
#[derive(Drop)]
pub struct Placed {
    pub expression: Expression,
    pub places: Vec<usize>,
}

fn fault_at(fault: Fault, at: usize) -> TextFault
    ensures { result ≡ TextFault.Bad (spec.code_of fault) at }
{
    let code = match fault {
        Fault::NoToken => 2,
        Fault::Reserved => 12,
        Fault::NoNumber => 16,
        Fault::FifthArgument => 10,
        Fault::Unexpected => 3,
        Fault::LongName => 11,
        Fault::TooDeep => 9,
        Fault::TooManyNodes => 8,
        Fault::Ended => 4,
    };
    TextFault::Bad { code, at }
}

/// The expression that a text stands for, or the first fault of the text.
///
/// The codes, and where each is met:
/// - 1, at 16384: the text has more than 16,384 bytes. This fault comes before all others.
/// - 2: a byte that begins no token.
/// - 12: in the place of an operand `times` with no word behind it, or another reserved word with
///   no parameter behind it.
/// - 16: the word behind `times`, where it isn't a number from 2 to 64 in decimal without leading
///   zeros.
/// - 10: the comma after a fourth argument.
/// - 3: a token with which no text of the grammar could go on.
/// - 11: a word, or a parameter without its `$`, of more than 32 bytes.
/// - 9: a parenthesis of a group, a prefix, a quantifier's word or `times` that opens the 65th
///   level.
/// - 8: the token of the 513th node.
/// - 4, at the text's end: the text isn't whole.
///
/// Of these the one at the least place is given, and at one place the first of this list. Where
/// none is met, the first form fault is given (5, 6, 7, 8, 9 and 13, as `ix_expr` tells them), at
/// the start of its node's token: an atom's name, an operator, a prefix, a quantifier's word or
/// `times`.
pub fn read(alloc: Global, text: &[u8]) -> Result<Expression, TextFault>
    ensures ok { IfOk result (λ x. spec.StandsFor text.now x) }
    ensures fault { IfErr result (λ fault. IsFaultOf text.now fault) }
{
    let Placed { expression, .. } = read_placed(alloc, text)?;
    Ok(expression)
}

/// The same, with the places of the expression's nodes; of any other text the same fault.
pub fn read_placed(alloc: Global, text: &[u8]) -> Result<Placed, TextFault>
    ensures ok { IfOk result
        (λ x. spec.IsPlaced text.now (record { form = x.expression; places = x.places.items })) }
    ensures fault { IfErr result (λ fault. IsFaultOf text.now fault) }
{
    if text.len() > MOST_BYTES {
        return Err(TextFault::Bad {
            code: 1,
            at: MOST_BYTES,
        });
    }
    match read_operand(alloc, text) {
        Ok(operand) => checked(operand),
        Err(fault) => Err(fault),
    }
}

/// A form fault is told at the token of its node.
fn checked(operand: Operand) -> Result<Placed, TextFault>
    requires places { HasPlaces (meaning_of operand) }
    requires numbers { HasNumbers (form_of operand.expr) }
    ensures { IsPlacedOr (meaning_of operand) result }
{
    let Operand { expr, places } = operand;
    match Expression::new(expr) {
        Ok(expression) => Ok(Placed { expression, places }),
        Err(fault) => Err(TextFault::Bad {
            code: fault.code,
            at: places[fault.node],
        }),
    }
}
