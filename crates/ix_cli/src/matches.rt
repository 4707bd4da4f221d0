//! What `clap` matches.
ghost use Rattle.std.specs.Prelude.{◌≡◌, ℕ, List, Some, IfOk, map, string_bytes, true, is_some};
ghost use Rattle.std.specs.Prelude.{MatchResult, [], unwrap_or};
ghost use Rattle.std.specs.Str.Parse.{digits_value, without_leading_plus};
ghost use Rattle.clap.specs.Words.{all_of, app_of, first_of, fault_of, found_of, one_of, rows_of};
ghost use Rattle.ix_cli.specs.inside.Matches.{HasNumber, IsPlainCommand, MatchesWords, Blames};

use crate::fault::{WordsFault, refused};
use clap::error::ErrorKind;
use clap::{ArgMatches, Command};
use std::alloc::{AllocError, Global};

/// The matches of the words, of which the first is the command's name.
pub(crate) fn parse<'a>(
    alloc: Global,
    command: Command<'a>,
    words: &'a [String],
) -> Result<ArgMatches<'a>, WordsFault>
    requires { IsPlainCommand (app_of command) }
    ensures { MatchResult result
        (MatchesWords (app_of command.entry) (map string_bytes words.entry.now))
        (Blames (app_of command.entry) (map string_bytes words.entry.now)) }
{
    match command.try_get_matches_from(words) {
        Ok(matches) => Ok(matches),
        Err(error) => {
            if error.kind() == ErrorKind::OutOfMemory {
                return Err(WordsFault::Memory);
            }
            Err(refused(alloc, &error))
        }
    }
}

/// A copy of the text that was matched under a name.
pub(crate) fn text(
    alloc: Global,
    matches: &ArgMatches<'_>,
    name: &str,
) -> Result<String, AllocError>
    requires { is_some (first_of name.now (rows_of (found_of matches.now))) ≡ true }
    ensures { IfOk result (λ text.
        first_of name.now (rows_of (found_of matches.now)) ≡ Some (string_bytes text)) }
{
    String::from_str(alloc, matches.get_str(name).unwrap())
}

/// Copies of the texts that were matched under a name, none where there was none.
pub(crate) fn texts(
    alloc: Global,
    matches: &ArgMatches<'_>,
    name: &str,
) -> Result<Vec<String>, AllocError>
    ensures { IfOk result (λ texts. unwrap_or (all_of name.now (rows_of (found_of matches.now))) []
        ≡ map string_bytes texts.items) }
{
    match matches.get_strs(name) {
        Some(texts) => copies(alloc, texts),
        None => Ok(Vec::new(alloc)),
    }
}

fn copies(alloc: Global, texts: &[&str]) -> Result<Vec<String>, AllocError>
    ensures { IfOk result (λ copies. map string_bytes copies.items ≡ map (λ t. t.now) texts.now) }
{
    let mut copies = Vec::new(alloc);
    for text in texts {
        copies.push(String::from_str(alloc, text)?)?;
    }
    Ok(copies)
}

/// The number that was matched under a name.
pub(crate) fn number(matches: &ArgMatches<'_>, name: &str) -> u64
    requires { HasNumber (rows_of (found_of matches.now)) name.now }
    ensures { (text : List ℕ) → one_of name.now (rows_of (found_of matches.now)) ≡ Some text
        → result ≡ digits_value 10 (without_leading_plus text) }
{
    matches.get_one::<u64>(name).unwrap()
}
