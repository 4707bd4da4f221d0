//! Lists of given values.

ghost use Rattle.std.specs.Prelude.{◌≡◌, ◌≢◌, ◌<◌, ◌≤◌, ◌↔◌, [], IsTrue, List, IfOk, IfErr, length};
ghost use Rattle.std.specs.Prelude.{map};
ghost use Rattle.std.specs.Prelude.{MatchResult, string_bytes};
ghost use Rattle.ix_words.specs.Each.{Each, Member};
ghost use Rattle.ix_lines.specs.TextLines.{lines_of};
ghost use Rattle.ix_next.specs.Given.{IsGivenText};
ghost use Rattle.ix_next.specs.Lists.{AreGiven, AreGood, IsBadLine, IsGiven};
ghost use Rattle.ix_next.specs.inside.Refusing.{RefusesList};
ghost use Rattle.ix_next.specs.declared.list.LineFault.TheVariants.{Memory};

use crate::given::{Given, read_given};
use ix_lines::first_line;
use ix_values::{Name, Value};
use std::alloc::{AllocError, AllocFailed, Global};

/// The most given values of a file.
pub const VALUE_LIMIT: usize = 64;

/// Why lines aren't a list of given values.
#[derive(Clone, Copy, Debug, PartialEq, Eq)]
pub enum LineFault {
    /// The line that begins at this byte isn't one more given value: 72, it is none; 73, it stands
    /// before; 74, it is the 65th. 75 at 0: there is no line.
    Bad { code: u8, at: usize },
    /// Memory ran out.
    Memory,
}

impl<T: Drop> From<AllocFailed<T>> for LineFault {
    ghost from_gives = { λ _ fault. fault ≡ Memory };

    fn from(_: AllocFailed<T>) -> LineFault {
        LineFault::Memory
    }
}

/// Whether each text is that of a given value.
pub fn are_given(texts: &[String]) -> bool
    ensures { IsTrue result ↔ Each IsGiven (map string_bytes texts.now) }
{
    for text in texts {
        match read_given(text.as_bytes()) {
            Some(_) => {}
            None => return false,
        }
    }
    true
}

/// The given values of their texts. Want of memory is the one error.
pub fn given_values(alloc: Global, texts: &[String]) -> Result<Vec<Given>, AllocError>
    requires { Each IsGiven (map string_bytes texts.now) }
    ensures { IfOk result (λ given. AreGiven (map string_bytes texts.now) given.items) }
{
    let mut given = Vec::new(alloc);
    for text in texts {
        given.push(read_given(text.as_bytes()).unwrap())?;
    }
    Ok(given)
}

/// The given values of the lines of a file: 1 to 64, none of them twice.
pub fn read_values(alloc: Global, bytes: &[u8]) -> Result<Vec<Given>, LineFault>
    ensures good { IfOk result (λ given. AreGood (lines_of bytes.now) given.items) }
    ensures some { IfOk result (λ given. 0 < length given.items) }
    ensures refused { IfErr result (RefusesList bytes.now) }
{
    if bytes.is_empty() {
        return Err(LineFault::Bad { code: 75, at: 0 });
    }
    let mut before = Vec::new(alloc);
    let mut given = Vec::new(alloc);
    let mut rest = bytes;
    while !rest.is_empty() {
        let first = first_line(rest);
        match next_value(before.as_slice(), first.line) {
            Ok(value) => given.push(value)?,
            Err(code) => {
                let at = bytes.len() - rest.len();
                return Err(LineFault::Bad { code, at });
            }
        }
        before.push(first.line)?;
        rest = first.rest;
    }
    Ok(given)
}

/// The given value of the line, or the code that says why it isn't one more behind those before it.
fn next_value(before: &[&[u8]], line: &[u8]) -> Result<Given, u8>
    requires { length before.now ≤ VALUE_LIMIT }
    ensures { MatchResult result
        (λ value. IsGivenText line.now value × (¬ Member line.now (map (λ l. l.now) before.now))
        × (length before.now < VALUE_LIMIT))
        (IsBadLine (map (λ l. l.now) before.now) line.now) }
{
    let Some(value) = read_given(line) else {
        return Err(72);
    };
    if stands_in(before, line) {
        return Err(73);
    }
    if before.len() == VALUE_LIMIT {
        return Err(74);
    }
    Ok(value)
}

/// Whether the line stands among these.
fn stands_in(lines: &[&[u8]], line: &[u8]) -> bool
    ensures { IsTrue result ↔ Member line.now (map (λ l. l.now) lines.now) }
{
    for other in lines {
        if *other == line {
            return true;
        }
    }
    false
}
