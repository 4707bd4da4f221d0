//! Cuts the text of an expression into tokens, which are lent slices of the text.
#![tactic(auto)]

ghost use Rattle.std.specs.Prelude.{◌≡◌, false, ◌≤◌, ◌∷◌, length, take_while, MatchOption};
ghost use Rattle.ix_lex.specs.WordBytes.{begins, is_blank, sign_of};
ghost use Rattle.ix_lines.specs.Bytes.{is_letter, is_word_byte};
ghost use Rattle.ix_lex.specs.Lexing.{BeginsNothing};
ghost use Rattle.ix_lex.specs.inside.FirstToken.{FirstToken};

use ix_lines::is_word_byte;

/// What a token is: a word, a parameter, or one of eleven signs.
#[derive(Clone, Copy, Debug, PartialEq, Eq, Hash)]
pub enum TokenKind {
    /// A longest run of letters, digits and `_`.
    Word,
    /// `$` directly followed by a longest run of letters, digits and `_` whose first is a letter.
    Param,
    /// `(`
    Open,
    /// `)`
    Close,
    /// `,`
    Comma,
    /// `?`
    Question,
    /// `*`
    Star,
    /// `#`
    Hash,
    /// `+`
    Plus,
    /// `|`
    Bar,
    /// `&`
    Amp,
    /// `@`
    At,
    /// `-`
    Minus,
}

/// A token: the bytes of the text from `start` up to `end`. The text of a `Param`
/// begins with its `$`.
#[derive(Clone, Copy, Debug)]
pub struct Token<'a> {
    pub kind: TokenKind,
    pub text: &'a [u8],
    pub start: usize,
    pub end: usize,
}

/// The place of the first byte that begins no token: neither a blank (bytes 10 and 32), nor a
/// letter, a digit, `_` or one of the eleven signs, nor a `$` that a letter follows.
#[derive(Clone, Copy, Debug, PartialEq, Eq)]
pub struct LexFault {
    pub at: usize,
}

/// The tokens of a text, from its start to its end or to the first byte that begins no token. That
/// byte's place is the last item. Nothing is copied, and no memory is taken.
#[derive(Clone, Copy, Debug)]
pub struct Tokens<'a> {
    text: &'a [u8],
    place: usize,
    ghost in_range: { place ≤ length text.now },
}

fn is_blank(byte: u8) -> bool
    ensures { result ≡ is_blank byte }
{
    byte == b'\n' || byte == b' '
}

fn sign_of(byte: u8) -> Option<TokenKind>
    ensures { result ≡ sign_of byte }
{
    let kind = match byte {
        b'(' => TokenKind::Open,
        b')' => TokenKind::Close,
        b',' => TokenKind::Comma,
        b'?' => TokenKind::Question,
        b'*' => TokenKind::Star,
        b'#' => TokenKind::Hash,
        b'+' => TokenKind::Plus,
        b'|' => TokenKind::Bar,
        b'&' => TokenKind::Amp,
        b'@' => TokenKind::At,
        b'-' => TokenKind::Minus,
        _ => return None,
    };
    Some(kind)
}

fn begins_with_letter(bytes: &[u8]) -> bool
    ensures { result ≡ begins is_letter bytes.now }
{
    match bytes {
        [first, ..] => first.is_ascii_alphabetic(),
        [] => false,
    }
}

fn blanks_len(bytes: &[u8]) -> usize
    ensures { result ≡ length (take_while is_blank bytes.now) }
{
    bytes.iter().take_while(|byte| is_blank(**byte)).count()
}

fn word_len(bytes: &[u8]) -> usize
    ensures { result ≡ length (take_while is_word_byte bytes.now) }
{
    bytes.iter().take_while(|byte| is_word_byte(**byte)).count()
}

/// The kind and the length of the token that a text begins with, if it begins with one.
fn first_token(first: u8, after: &[u8]) -> Option<(TokenKind, usize)>
    requires { is_blank first ≡ false }
    ensures { MatchOption result (BeginsNothing first after.now)
        (λ found. FirstToken found.0 found.1 (first ∷ after.now)) }
{
    if is_word_byte(first) {
        Some((TokenKind::Word, 1 + word_len(after)))
    } else if first == b'$' {
        if begins_with_letter(after) {
            Some((TokenKind::Param, 1 + word_len(after)))
        } else {
            None
        }
    } else {
        Some((sign_of(first)?, 1))
    }
}

impl<'a> Tokens<'a> {
    ghost use Rattle.ix_lex.specs.inside.Items.{pieces_left};
    ghost use Rattle.ix_lex.specs.Lexing.{Pieces};

    /// All tokens of the text, none of them given yet.
    pub fn new(text: &'a [u8]) -> Tokens<'a>
        ensures { Pieces 0 text.now (pieces_left result) }
    {
        Tokens { text, place: 0 }
    }
}

impl<'a> Iterator for Tokens<'a> {
    ghost use Rattle.std.specs.Iterator.{YieldsFirstBy, item_count};
    ghost use Rattle.ix_lex.specs.inside.Items.{pieces_left, item_piece};

    type Item = Result<Token<'a>, LexFault>;

    ghost next_gives = { YieldsFirstBy item_piece pieces_left };

    ghost remaining = { item_count pieces_left };

    fn next(&mut self) -> Option<Result<Token<'a>, LexFault>> {
        let start = self.place + blanks_len(&self.text[self.place..]);
        let rest = &self.text[start..];
        let Some((first, after)) = rest.split_first() else {
            self.place = start;
            return None;
        };
        match first_token(*first, after) {
            Some((kind, length)) => {
                let end = start + length;
                self.place = end;
                let text = &self.text[start..end];
                Some(Ok(Token {
                    kind,
                    text,
                    start,
                    end,
                }))
            }
            None => {
                self.place = self.text.len();
                Some(Err(LexFault { at: start }))
            }
        }
    }
}
