//! The first line of a text that isn't in a grammar.

ghost use Rattle.std.specs.Prelude.{◌≡◌, ◌≤◌, ℕ, List, length, MatchOption, IfSome};
ghost use Rattle.std.specs.List.{AllByRecursion};
ghost use Rattle.ix_lines.specs.TextLines.{lines_of};
ghost use Rattle.ix_lines.specs.LineFaults.{IsFirstLineFault};

use crate::text_lines::first_line;

/// Why a line isn't in its grammar: a code, and the place of the fault.
#[derive(Clone, Copy, Debug, PartialEq, Eq)]
pub struct LineFault {
    pub code: u8,
    pub at: usize,
}

/// A grammar of lines.
pub trait LineGrammar {
    /// The line is in the grammar.
    ghost holds: { List ℕ → Type 0 };

    /// The line fails with this code, at this place in it.
    ghost fails: { List ℕ → ℕ → ℕ → Type 0 };

    /// The first fault of a line, or None where the line is in the grammar.
    fn fault(line: &[u8]) -> Option<LineFault>
        ensures told { MatchOption result
            (holds line.now)
            (λ fault. fails line.now fault.code fault.at) }
        ensures within { IfSome result (λ fault. fault.at ≤ length line.now) };
}

/// The fault of the first line that isn't in the grammar, its place counted from the front of the
/// text, or None where each line is in it. Takes no memory.
pub fn first_fault<G: LineGrammar>(bytes: &[u8]) -> Option<LineFault>
    ensures { MatchOption result
        (AllByRecursion G.holds (lines_of bytes.now))
        (λ fault. IsFirstLineFault G.holds G.fails bytes.now fault.code fault.at) }
{
    let mut rest = bytes;
    while !rest.is_empty() {
        let first = first_line(rest);
        if let Some(fault) = G::fault(first.line) {
            return Some(LineFault {
                code: fault.code,
                at: bytes.len() - rest.len() + fault.at,
            });
        }
        rest = first.rest;
    }
    None
}
