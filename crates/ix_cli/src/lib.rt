//! The words of the command line, and the job that they name, read by `clap`.
#![tactic(auto)]

ghost use Rattle.std.specs.Prelude.{map, string_bytes, MatchResult};
ghost use Rattle.ix_cli.specs.Words.{Names};
ghost use Rattle.ix_cli.specs.inside.Jobs.{Explains, job_of};

mod commands;
mod fault;
mod job;
pub mod laws;
mod matches;

pub use fault::WordsFault;
use fault::no_command;
pub use job::Job;
use std::alloc::Global;

/// The job that the words after the program's name name.
///
/// The first word is the command's name, and the words behind it are those that `clap` takes for
/// this command; the fields of the job are what it matches. Otherwise the answer is a text for
/// people, which ends with a newline: without a first word, and with one that is no command's name,
/// it tells the commands, and behind a command's name it is that of `clap`, also where the words
/// ask for help. Want of memory is a fault of its own.
pub fn read_words(alloc: Global, words: &[String]) -> Result<Job, WordsFault>
    ensures { MatchResult result
        (λ job. Names (map string_bytes words.now) (job_of job))
        (Explains (map string_bytes words.now)) }
{
    let Some(command) = words.first() else {
        return Err(no_command(alloc));
    };
    match command.as_str() {
        "trace" => job::read_trace(alloc, words),
        "replay" => job::read_replay(alloc, words),
        "serve" => job::read_serve(alloc, words),
        "work" => job::read_work(alloc, words),
        "simplify" => job::read_simplify(alloc, words),
        "bound" => job::read_bound(alloc, words),
        "follow" => job::read_follow(alloc, words),
        "lint" => job::read_lint(alloc, words),
        "why" => job::read_why(alloc, words),
        "next" => job::read_next(alloc, words),
        "stuck" => job::read_stuck(alloc, words),
        "renew" => job::read_renew(alloc, words),
        _ => Err(no_command(alloc)),
    }
}
