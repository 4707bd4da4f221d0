//! The jobs of the program, and how each is read.
ghost use Rattle.std.specs.Prelude.{◌≡◌, Some, codes, map, slice_get, string_bytes, MatchResult};
ghost use Rattle.ix_cli.specs.Words.{Names};
ghost use Rattle.ix_cli.specs.inside.Jobs.{Explains, job_of};

use crate::commands;
use crate::fault::WordsFault;
use crate::matches::{number, parse, text, texts};
use std::alloc::Global;

/// What the program is to do. Files and sockets are told by their names; `nodes` is the greatest
/// Size of a state, from 1 to 1,000,000, `turns` the most events that are taken, from 1 to
/// 1,000,000,000, and `states` the most states that are visited, from 1 to 1,000,000.
#[derive(Drop)]
pub enum Job {
    /// Trace the actions of a file.
    Trace {
        expr: String,
        actions: String,
        nodes: usize,
    },
    /// Run a manager over the events of a script.
    Replay {
        expr: String,
        journal: String,
        script: String,
        nodes: usize,
        turns: u64,
    },
    /// Run a manager over the connections of a socket.
    Serve {
        expr: String,
        journal: String,
        socket: String,
        nodes: usize,
        turns: u64,
    },
    /// Ask for `count` actions, from 0 to 1,000,000, of the workload of a seed.
    Work {
        count: u64,
        seed: u64,
        nodes: usize,
    },
    /// Put an expression rewritten by laws.
    Simplify {
        expr: String,
    },
    /// Tell the bound of an expression over `count` different values, from 0 to 1,000,000.
    Bound {
        expr: String,
        count: u64,
    },
    /// Follow a log by the lines of a file.
    Follow {
        expr: String,
        lines: String,
        nodes: usize,
    },
    /// Tell what looks wrong in an expression.
    Lint {
        expr: String,
    },
    /// Tell which parts of an expression refuse an action behind the actions of a file. The action
    /// may be any text.
    Why {
        expr: String,
        actions: String,
        action: String,
        nodes: usize,
    },
    /// Tell what may come behind the actions of a file, over at most 16 given values, each of which
    /// may be any text.
    Next {
        expr: String,
        actions: String,
        values: Vec<String>,
        nodes: usize,
    },
    /// Tell whether a history over the given values of a file can get stuck.
    Stuck {
        expr: String,
        values: String,
        nodes: usize,
        states: u64,
    },
    /// Make a new journal in place of one, behind which the answers stay the same.
    Renew {
        expr: String,
        journal: String,
        new: String,
        nodes: usize,
    },
}

/// The job of words that begin with `trace`.
pub(crate) fn read_trace(alloc: Global, words: &[String]) -> Result<Job, WordsFault>
    requires { slice_get (map string_bytes words.now) 0 ≡ Some (codes "trace") }
    ensures { MatchResult result
        (λ job. Names (map string_bytes words.now) (job_of job))
        (Explains (map string_bytes words.now)) }
{
    let matches = parse(alloc, commands::trace(alloc)?, words)?;
    Ok(Job::Trace {
        expr: text(alloc, &matches, "EXPR")?,
        actions: text(alloc, &matches, "ACTIONS")?,
        nodes: number(&matches, "nodes") as usize,
    })
}

/// The job of words that begin with `replay`.
pub(crate) fn read_replay(alloc: Global, words: &[String]) -> Result<Job, WordsFault>
    requires { slice_get (map string_bytes words.now) 0 ≡ Some (codes "replay") }
    ensures { MatchResult result
        (λ job. Names (map string_bytes words.now) (job_of job))
        (Explains (map string_bytes words.now)) }
{
    let matches = parse(alloc, commands::replay(alloc)?, words)?;
    Ok(Job::Replay {
        expr: text(alloc, &matches, "EXPR")?,
        journal: text(alloc, &matches, "JOURNAL")?,
        script: text(alloc, &matches, "SCRIPT")?,
        nodes: number(&matches, "nodes") as usize,
        turns: number(&matches, "turns"),
    })
}

/// The job of words that begin with `serve`.
pub(crate) fn read_serve(alloc: Global, words: &[String]) -> Result<Job, WordsFault>
    requires { slice_get (map string_bytes words.now) 0 ≡ Some (codes "serve") }
    ensures { MatchResult result
        (λ job. Names (map string_bytes words.now) (job_of job))
        (Explains (map string_bytes words.now)) }
{
    let matches = parse(alloc, commands::serve(alloc)?, words)?;
    Ok(Job::Serve {
        expr: text(alloc, &matches, "EXPR")?,
        journal: text(alloc, &matches, "JOURNAL")?,
        socket: text(alloc, &matches, "SOCKET")?,
        nodes: number(&matches, "nodes") as usize,
        turns: number(&matches, "turns"),
    })
}

/// The job of words that begin with `work`.
pub(crate) fn read_work(alloc: Global, words: &[String]) -> Result<Job, WordsFault>
    requires { slice_get (map string_bytes words.now) 0 ≡ Some (codes "work") }
    ensures { MatchResult result
        (λ job. Names (map string_bytes words.now) (job_of job))
        (Explains (map string_bytes words.now)) }
{
    let matches = parse(alloc, commands::work(alloc)?, words)?;
    Ok(Job::Work {
        count: number(&matches, "N"),
        seed: number(&matches, "SEED"),
        nodes: number(&matches, "nodes") as usize,
    })
}

/// The job of words that begin with `simplify`.
pub(crate) fn read_simplify(alloc: Global, words: &[String]) -> Result<Job, WordsFault>
    requires { slice_get (map string_bytes words.now) 0 ≡ Some (codes "simplify") }
    ensures { MatchResult result
        (λ job. Names (map string_bytes words.now) (job_of job))
        (Explains (map string_bytes words.now)) }
{
    let matches = parse(alloc, commands::simplify(alloc)?, words)?;
    Ok(Job::Simplify {
        expr: text(alloc, &matches, "EXPR")?,
    })
}

/// The job of words that begin with `bound`.
pub(crate) fn read_bound(alloc: Global, words: &[String]) -> Result<Job, WordsFault>
    requires { slice_get (map string_bytes words.now) 0 ≡ Some (codes "bound") }
    ensures { MatchResult result
        (λ job. Names (map string_bytes words.now) (job_of job))
        (Explains (map string_bytes words.now)) }
{
    let matches = parse(alloc, commands::bound(alloc)?, words)?;
    Ok(Job::Bound {
        expr: text(alloc, &matches, "EXPR")?,
        count: number(&matches, "K"),
    })
}

/// The job of words that begin with `follow`.
pub(crate) fn read_follow(alloc: Global, words: &[String]) -> Result<Job, WordsFault>
    requires { slice_get (map string_bytes words.now) 0 ≡ Some (codes "follow") }
    ensures { MatchResult result
        (λ job. Names (map string_bytes words.now) (job_of job))
        (Explains (map string_bytes words.now)) }
{
    let matches = parse(alloc, commands::follow(alloc)?, words)?;
    Ok(Job::Follow {
        expr: text(alloc, &matches, "EXPR")?,
        lines: text(alloc, &matches, "LINES")?,
        nodes: number(&matches, "nodes") as usize,
    })
}

/// The job of words that begin with `lint`.
pub(crate) fn read_lint(alloc: Global, words: &[String]) -> Result<Job, WordsFault>
    requires { slice_get (map string_bytes words.now) 0 ≡ Some (codes "lint") }
    ensures { MatchResult result
        (λ job. Names (map string_bytes words.now) (job_of job))
        (Explains (map string_bytes words.now)) }
{
    let matches = parse(alloc, commands::lint(alloc)?, words)?;
    Ok(Job::Lint {
        expr: text(alloc, &matches, "EXPR")?,
    })
}

/// The job of words that begin with `why`.
pub(crate) fn read_why(alloc: Global, words: &[String]) -> Result<Job, WordsFault>
    requires { slice_get (map string_bytes words.now) 0 ≡ Some (codes "why") }
    ensures { MatchResult result
        (λ job. Names (map string_bytes words.now) (job_of job))
        (Explains (map string_bytes words.now)) }
{
    let matches = parse(alloc, commands::why(alloc)?, words)?;
    Ok(Job::Why {
        expr: text(alloc, &matches, "EXPR")?,
        actions: text(alloc, &matches, "ACTIONS")?,
        action: text(alloc, &matches, "ACTION")?,
        nodes: number(&matches, "nodes") as usize,
    })
}

/// The job of words that begin with `next`.
pub(crate) fn read_next(alloc: Global, words: &[String]) -> Result<Job, WordsFault>
    requires { slice_get (map string_bytes words.now) 0 ≡ Some (codes "next") }
    ensures { MatchResult result
        (λ job. Names (map string_bytes words.now) (job_of job))
        (Explains (map string_bytes words.now)) }
{
    let matches = parse(alloc, commands::next(alloc)?, words)?;
    Ok(Job::Next {
        expr: text(alloc, &matches, "EXPR")?,
        actions: text(alloc, &matches, "ACTIONS")?,
        values: texts(alloc, &matches, "VALUE")?,
        nodes: number(&matches, "nodes") as usize,
    })
}

/// The job of words that begin with `stuck`.
pub(crate) fn read_stuck(alloc: Global, words: &[String]) -> Result<Job, WordsFault>
    requires { slice_get (map string_bytes words.now) 0 ≡ Some (codes "stuck") }
    ensures { MatchResult result
        (λ job. Names (map string_bytes words.now) (job_of job))
        (Explains (map string_bytes words.now)) }
{
    let matches = parse(alloc, commands::stuck(alloc)?, words)?;
    Ok(Job::Stuck {
        expr: text(alloc, &matches, "EXPR")?,
        values: text(alloc, &matches, "VALUES")?,
        nodes: number(&matches, "nodes") as usize,
        states: number(&matches, "states"),
    })
}

/// The job of words that begin with `renew`.
pub(crate) fn read_renew(alloc: Global, words: &[String]) -> Result<Job, WordsFault>
    requires { slice_get (map string_bytes words.now) 0 ≡ Some (codes "renew") }
    ensures { MatchResult result
        (λ job. Names (map string_bytes words.now) (job_of job))
        (Explains (map string_bytes words.now)) }
{
    let matches = parse(alloc, commands::renew(alloc)?, words)?;
    Ok(Job::Renew {
        expr: text(alloc, &matches, "EXPR")?,
        journal: text(alloc, &matches, "JOURNAL")?,
        new: text(alloc, &matches, "NEW")?,
        nodes: number(&matches, "nodes") as usize,
    })
}
