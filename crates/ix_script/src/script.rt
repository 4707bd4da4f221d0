//! A script that was checked.
ghost use Rattle.std.specs.Prelude.{◌≡◌, List, IfOk, IfErr};
ghost use Rattle.ix_outside.specs.Contents.{GivenEvent};
ghost use Rattle.ix_script.specs.Events.{HasEvents};
ghost use Rattle.ix_script.specs.Grammar.{InGrammar, IsFaultAtFront, IsFirstScriptFault};

use crate::line::read_line;
use ix_lines::{LineFault, LineGrammar, first_fault};
use std::marker::Model;

/// Why a text is no script: the code 31, 32 or 33 of the first fault of its first line that has
/// one, and the place of that line's first byte.
#[derive(Clone, Copy, Debug, PartialEq, Eq)]
pub struct ScriptFault {
    pub code: u8,
    pub at: usize,
}

/// A text each of whose lines is in the grammar of scripts. Contracts see it as its bytes.
#[derive(Drop)]
pub struct Script<'a> {
    pub(crate) bytes: &'a [u8],
}

impl<'a> Model for Script<'a> {
    ghost use Rattle.std.specs.Prelude.{ℕ, List};
    ghost use Rattle.std.specs.List.{AllByRecursion};
    ghost use Rattle.ix_lines.specs.TextLines.{lines_of};
    ghost use Rattle.ix_script.specs.Grammar.{InGrammar};

    ghost Value = { List ℕ };

    ghost view = { λ script. script.bytes.now };

    ghost invariant = { λ script. ∥ AllByRecursion InGrammar (lines_of script.bytes.now) ∥₁ };
}

impl<'a> Script<'a> {
    /// The script of these bytes, which it keeps lent, or its first fault. Takes no memory.
    pub fn read(bytes: &'a [u8]) -> Result<Script<'a>, ScriptFault>
        ensures same { IfOk result (λ script. script ≡ bytes.now) }
        ensures events { IfOk result
            (λ script. (events : List GivenEvent) × HasEvents bytes.now events) }
        ensures fault { IfErr result (λ fault. IsFirstScriptFault bytes.now fault.code fault.at) }
    {
        match first_fault::<ScriptLines>(bytes) {
            None => Ok(Script { bytes }),
            Some(fault) => Err(ScriptFault {
                code: fault.code,
                at: fault.at,
            }),
        }
    }
}

/// The grammar of a script's lines. A fault of a line is told at its first byte.
struct ScriptLines;

impl LineGrammar for ScriptLines {
    ghost holds = { InGrammar };

    ghost fails = { IsFaultAtFront };

    fn fault(line: &[u8]) -> Option<LineFault> {
        match read_line(line) {
            Ok(_) => None,
            Err(code) => Some(LineFault { code, at: 0 }),
        }
    }
}
