//! One line of a script.
ghost use Rattle.std.specs.Prelude.{◌≡◌, ◌++◌, MatchResult};
ghost use Rattle.ix_script.specs.Events.{is_close as tells_close, text_bytes};
ghost use Rattle.ix_script.specs.Grammar.{InGrammar, IsScriptLine, IsLineFault};
ghost use Rattle.ix_script.specs.inside.Progress.{end_bytes};

use ix_lines::number_and;

const LAST_CONNECTION: u64 = 63;

/// The parts of a line: its moment in milliseconds, its connection from 0 to 63, and its text.
#[derive(Clone, Copy)]
pub(crate) struct ScriptLine<'a> {
    pub moment: u64,
    pub conn: u8,
    pub text: &'a [u8],
}

/// The parts of a line without its byte 10, or the code of its first fault.
pub(crate) fn read_line(line: &[u8]) -> Result<ScriptLine<'_>, u8>
    ensures { MatchResult result
        (λ parts. IsScriptLine line.now parts.moment parts.conn parts.text.now)
        (λ code. IsLineFault line.now code) }
{
    let Some(moment) = number_and(line, u64::MAX) else {
        return Err(31);
    };
    let Some(conn) = number_and(moment.rest, LAST_CONNECTION) else {
        return Err(32);
    };
    if conn.rest == b"\\".as_slice() {
        return Err(33);
    }
    Ok(ScriptLine {
        moment: moment.number,
        conn: conn.number as u8,
        text: conn.rest,
    })
}

pub(crate) fn checked_line(line: &[u8]) -> ScriptLine<'_>
    requires { ∥ InGrammar line.now ∥₁ }
    ensures { IsScriptLine line.now result.moment result.conn result.text.now }
{
    match read_line(line) {
        Ok(parts) => parts,
        Err(_) => unreachable!(),
    }
}

/// Whether a line's text is `!` alone.
pub(crate) fn is_close(text: &[u8]) -> bool
    ensures { result ≡ tells_close text.now }
{
    match text {
        [byte] => *byte == b'!',
        _ => false,
    }
}

/// The bytes that a line's text stands for: a front of the text, and whether a byte 10 follows.
#[derive(Clone, Copy)]
pub(crate) struct OpenText<'a> {
    pub text: &'a [u8],
    pub line_end: bool,
}

pub(crate) fn open_text(text: &[u8]) -> OpenText<'_>
    ensures { result.text.now ++ end_bytes result.line_end ≡ text_bytes text.now }
{
    let Some((last, front)) = text.split_last() else {
        return OpenText {
            text,
            line_end: true,
        };
    };
    if *last == b'\\' {
        return OpenText {
            text: front,
            line_end: false,
        };
    }
    OpenText {
        text,
        line_end: true,
    }
}
