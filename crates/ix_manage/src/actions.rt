//! The lines of an actions file, each of them an action's text.
ghost use Rattle.ix_values.specs.Faults.{IsActionText, IsFault};

use ix_lines::{LineFault, LineGrammar};
use ix_values::Action;

/// The most bytes of an actions file.
pub(crate) const MOST_BYTES: usize = 67_108_864;

/// The grammar of an actions file's lines.
pub(crate) struct ActionLines;

impl LineGrammar for ActionLines {
    ghost holds = { IsActionText };

    ghost fails = { IsFault };

    fn fault(line: &[u8]) -> Option<LineFault> {
        match Action::read(line) {
            Ok(_) => None,
            Err(fault) => Some(LineFault {
                code: fault.code,
                at: fault.at,
            }),
        }
    }
}
