//! Tokens as the reader sees them.

ghost use Rattle.std.specs.Prelude.{◌≡◌, drop};

use crate::signs::{Operator, Prefix};
use ix_lex::{Token, TokenKind};

/// A token without its place: a word, the name of a parameter, or a sign by what it does.
#[derive(Clone, Copy)]
pub(crate) enum Sign<'a> {
    Word(&'a [u8]),
    Param(&'a [u8]),
    Opening,
    Closing,
    Comma,
    Before(Prefix),
    Between(Operator),
}

ghost use Rattle.ix_lex.specs.inside.Items.{plain_token};
ghost use Rattle.ix_parse.specs.Symbols.{symbol_of};
ghost use Rattle.ix_parse.specs.inside.Views.{symbol_at};

pub(crate) fn sign_of<'a>(token: &Token<'a>) -> Sign<'a>
    ensures { symbol_at token.now.start result ≡ symbol_of (plain_token token.now) }
{
    match token.kind {
        TokenKind::Word => Sign::Word(token.text),
        TokenKind::Param => Sign::Param(without_dollar(token.text)),
        TokenKind::Open => Sign::Opening,
        TokenKind::Close => Sign::Closing,
        TokenKind::Comma => Sign::Comma,
        TokenKind::Question => Sign::Before(Prefix::Opt),
        TokenKind::Star => Sign::Before(Prefix::Star),
        TokenKind::Hash => Sign::Before(Prefix::ParStar),
        TokenKind::Bar => Sign::Between(Operator::Or),
        TokenKind::Amp => Sign::Between(Operator::And),
        TokenKind::At => Sign::Between(Operator::Couple),
        TokenKind::Plus => Sign::Between(Operator::Par),
        TokenKind::Minus => Sign::Between(Operator::Seq),
    }
}

fn without_dollar(text: &[u8]) -> &[u8]
    ensures { result.now ≡ drop 1 text.now }
{
    match text {
        [_, name @ ..] => name,
        [] => text,
    }
}
