//! Why words weren't read.
ghost use Rattle.std.specs.Prelude.{◌≡◌};
ghost use Rattle.ix_cli.specs.declared.fault.WordsFault.TheVariants.{Memory};

use clap::Error;
use std::alloc::{AllocError, Global};

/// Why words weren't read.
#[derive(Debug, Drop)]
pub enum WordsFault {
    /// The words name no job.
    Bad {
        /// What is told to people: one line or more, each with a newline at its end.
        text: String,
    },
    /// There was no memory for the job, for reading the words or for a text.
    Memory,
}

impl From<AllocError> for WordsFault {
    ghost from_gives = { λ _ fault. fault ≡ Memory };

    fn from(_: AllocError) -> Self {
        WordsFault::Memory
    }
}

/// The commands and the words of each.
const COMMANDS: &str = "Usage: ixm COMMAND WORDS

Commands:
  trace EXPR ACTIONS [--nodes N]
  replay EXPR JOURNAL SCRIPT [--nodes N] [--turns N]
  serve EXPR JOURNAL SOCKET [--nodes N] [--turns N]
  work N SEED [--nodes N]
  simplify EXPR
  bound EXPR K
  follow EXPR LINES [--nodes N]
  lint EXPR
  why EXPR ACTIONS ACTION [--nodes N]
  next EXPR ACTIONS [VALUE..] [--nodes N]
  stuck EXPR VALUES [--nodes N] [--states N]
  renew EXPR JOURNAL NEW [--nodes N]

For more information on a command, put '--help' behind its name.
";

/// The fault of words that begin with no command's name: it tells the commands.
pub(crate) fn no_command(alloc: Global) -> WordsFault {
    match String::from_str(alloc, COMMANDS) {
        Ok(text) => WordsFault::Bad { text },
        Err(_) => WordsFault::Memory,
    }
}

/// The fault of words that `clap` refuses with this error, which isn't want of memory.
pub(crate) fn refused(alloc: Global, error: &Error) -> WordsFault {
    match error.to_string(alloc) {
        Ok(text) => WordsFault::Bad { text },
        Err(_) => WordsFault::Memory,
    }
}
