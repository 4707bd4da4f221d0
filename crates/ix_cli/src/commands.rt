//! The commands, as `clap` reads them.
ghost use Rattle.std.specs.Prelude.{◌≡◌, codes, false, IfOk};
ghost use Rattle.clap.specs.Words.{App, Rule, app_of, new_app, rule_of, with_rule};
ghost use Rattle.ix_cli.specs.Commands.{word, number_word, number_option};
ghost use Rattle.ix_cli.specs.Commands.{nodes_option, turns_option};
ghost use Rattle.ix_cli.specs.Commands.{trace_command, replay_command, serve_command, work_command};
ghost use Rattle.ix_cli.specs.Commands.{simplify_command, bound_command, follow_command};
ghost use Rattle.ix_cli.specs.Commands.{lint_command, why_command, next_command, stuck_command};
ghost use Rattle.ix_cli.specs.Commands.{most_given, renew_command, states_option, words};

use clap::builder::ValueParser;
use clap::{Arg, ArgAction, Command};
use std::alloc::{AllocError, Global};

/// The greatest limit of Size.
const MOST_NODES: u64 = 1_000_000;

/// The most events of a run.
const MOST_TURNS: u64 = 1_000_000_000;

/// The most asks of a workload.
const MOST_ASKS: u64 = 1_000_000;

/// The most different values over which a bound is told.
const MOST_VALUES: u64 = 1_000_000;

/// The most values that are given.
const MOST_GIVEN: usize = 16;

/// The most states that a search visits.
const MOST_STATES: u64 = 1_000_000;

const EXPRESSION_HELP: &str = "The file of the expression";

const ACTIONS_HELP: &str = "The file of the actions, one a line";

const JOURNAL_HELP: &str = "The file of the journal, which is made where it is absent";

/// A word that has to be there.
fn word<'a>(alloc: Global, name: &'a str, help: &'a str) -> Arg<'a>
    ensures rule { rule_of result ≡ word name.entry.now }
    ensures local { result.global ≡ false }
{
    Arg::new(alloc, name)
        .required(true)
        .action(ArgAction::Set)
        .help(help)
}

/// A word that has to be there and is a number from 0 to the most.
fn number_word<'a>(alloc: Global, name: &'a str, most: u64, help: &'a str) -> Arg<'a>
    ensures rule { rule_of result ≡ number_word name.entry.now 0 most }
    ensures local { result.global ≡ false }
{
    word(alloc, name, help).value_parser(ValueParser::unsigned(0, most))
}

/// An option that is a number from 1 to the most, and what it is where it isn't given.
fn number_option<'a>(
    alloc: Global,
    name: &'a str,
    most: u64,
    usual: &'a str,
    help: &'a str,
) -> Arg<'a>
    ensures rule { rule_of result ≡ number_option name.entry.now 1 most usual.entry.now }
    ensures local { result.global ≡ false }
{
    Arg::new(alloc, name)
        .long(name)
        .action(ArgAction::Set)
        .value_parser(ValueParser::unsigned(1, most))
        .default_value(usual)
        .help(help)
}

/// The option `--nodes N`.
fn nodes_option<'a>(alloc: Global) -> Arg<'a>
    ensures rule { rule_of result ≡ nodes_option }
    ensures local { result.global ≡ false }
{
    let help = "The greatest Size of a state, from 1 to 1000000";
    number_option(alloc, "nodes", MOST_NODES, "100000", help)
}

/// The option `--turns N`.
fn turns_option<'a>(alloc: Global) -> Arg<'a>
    ensures rule { rule_of result ≡ turns_option }
    ensures local { result.global ≡ false }
{
    let help = "The most events that are taken, from 1 to 1000000000";
    number_option(alloc, "turns", MOST_TURNS, "1000000000", help)
}

/// The option `--states N`.
fn states_option<'a>(alloc: Global) -> Arg<'a>
    ensures rule { rule_of result ≡ states_option }
    ensures local { result.global ≡ false }
{
    let help = "The most states that are visited, from 1 to 1000000";
    number_option(alloc, "states", MOST_STATES, "100000", help)
}

/// The words `VALUE ..`, 16 at most.
fn given_words<'a>(alloc: Global) -> Arg<'a>
    ensures rule { rule_of result ≡ words (codes "VALUE") most_given }
    ensures local { result.global ≡ false }
{
    Arg::new(alloc, "VALUE")
        .action(ArgAction::Set)
        .num_args(0..=MOST_GIVEN)
        .help("A value for each parameter, or P=VALUE for the parameter P alone")
}

/// A command without an argument, which says this about itself.
fn begun<'a>(
    alloc: Global,
    name: &'a str,
    about: &'a str,
    bin_name: &'a str,
) -> Result<Command<'a>, AllocError>
    ensures { IfOk result (λ command. app_of command ≡ new_app name.entry.now) }
{
    Command::new(alloc, name).about(about).bin_name(bin_name)
}

/// The command with this argument behind its others.
fn with<'a>(
    command: Result<Command<'a>, AllocError>,
    arg: Arg<'a>,
) -> Result<Command<'a>, AllocError>
    requires { arg.global ≡ false }
    ensures { (app : App) (rule : Rule) → rule_of arg.entry ≡ rule
        → IfOk command.entry (λ c. app_of c ≡ app)
        → IfOk result (λ c. app_of c ≡ with_rule app rule) }
{
    command?.arg(arg)
}

/// A command whose first word is the file of the expression.
fn of_expression<'a>(
    alloc: Global,
    name: &'a str,
    about: &'a str,
    bin_name: &'a str,
) -> Result<Command<'a>, AllocError>
    ensures { IfOk result (λ command.
        app_of command ≡ with_rule (new_app name.entry.now) (word (codes "EXPR"))) }
{
    let command = begun(alloc, name, about, bin_name);
    with(command, word(alloc, "EXPR", EXPRESSION_HELP))
}

/// The command `trace`.
pub(crate) fn trace<'a>(alloc: Global) -> Result<Command<'a>, AllocError>
    ensures { IfOk result (λ command. app_of command ≡ trace_command) }
{
    let about = "Says of each action of a file whether the expression lets it be next";
    let command = of_expression(alloc, "trace", about, "ixm trace");
    let command = with(command, word(alloc, "ACTIONS", ACTIONS_HELP));
    with(command, nodes_option(alloc))
}

/// The command `replay`.
pub(crate) fn replay<'a>(alloc: Global) -> Result<Command<'a>, AllocError>
    ensures { IfOk result (λ command. app_of command ≡ replay_command) }
{
    let about = "Runs a manager over the events of a script";
    let command = of_expression(alloc, "replay", about, "ixm replay");
    let command = with(command, word(alloc, "JOURNAL", JOURNAL_HELP));
    let help = "The file of the events, one a line";
    let command = with(command, word(alloc, "SCRIPT", help));
    let command = with(command, nodes_option(alloc));
    with(command, turns_option(alloc))
}

/// The command `serve`.
pub(crate) fn serve<'a>(alloc: Global) -> Result<Command<'a>, AllocError>
    ensures { IfOk result (λ command. app_of command ≡ serve_command) }
{
    let about = "Runs a manager over the connections of a socket";
    let command = of_expression(alloc, "serve", about, "ixm serve");
    let command = with(command, word(alloc, "JOURNAL", JOURNAL_HELP));
    let help = "The name of the Unix socket, not there yet";
    let command = with(command, word(alloc, "SOCKET", help));
    let command = with(command, nodes_option(alloc));
    with(command, turns_option(alloc))
}

/// The command `work`.
pub(crate) fn work<'a>(alloc: Global) -> Result<Command<'a>, AllocError>
    ensures { IfOk result (λ command. app_of command ≡ work_command) }
{
    let about = "Asks for the actions of a generated workload, and counts the answers";
    let command = begun(alloc, "work", about, "ixm work");
    let help = "The number of asks, from 0 to 1000000";
    let command = with(command, number_word(alloc, "N", MOST_ASKS, help));
    let help = "The seed, any number below 2^64";
    let command = with(command, number_word(alloc, "SEED", u64::MAX, help));
    with(command, nodes_option(alloc))
}

/// The command `simplify`.
pub(crate) fn simplify<'a>(alloc: Global) -> Result<Command<'a>, AllocError>
    ensures { IfOk result (λ command. app_of command ≡ simplify_command) }
{
    let about = "Puts the expression, rewritten by laws that keep its meaning";
    of_expression(alloc, "simplify", about, "ixm simplify")
}

/// The command `bound`.
pub(crate) fn bound<'a>(alloc: Global) -> Result<Command<'a>, AllocError>
    ensures { IfOk result (λ command. app_of command ≡ bound_command) }
{
    let about = "Tells how large the tree of a history with at most K different values can get";
    let command = of_expression(alloc, "bound", about, "ixm bound");
    let help = "The number of different values, from 0 to 1000000";
    with(command, number_word(alloc, "K", MOST_VALUES, help))
}

/// The command `follow`.
pub(crate) fn follow<'a>(alloc: Global) -> Result<Command<'a>, AllocError>
    ensures { IfOk result (λ command. app_of command ≡ follow_command) }
{
    let about = "Keeps a copy of a manager's history by lines that answered 'log'";
    let command = of_expression(alloc, "follow", about, "ixm follow");
    let help = "The file of the lines that were read";
    let command = with(command, word(alloc, "LINES", help));
    with(command, nodes_option(alloc))
}

/// The command `lint`.
pub(crate) fn lint<'a>(alloc: Global) -> Result<Command<'a>, AllocError>
    ensures { IfOk result (λ command. app_of command ≡ lint_command) }
{
    let about = "Tells what looks wrong in the expression, with its place in the text";
    of_expression(alloc, "lint", about, "ixm lint")
}

/// The command `why`.
pub(crate) fn why<'a>(alloc: Global) -> Result<Command<'a>, AllocError>
    ensures { IfOk result (λ command. app_of command ≡ why_command) }
{
    let about = "Tells which parts of the expression refuse an action behind a history";
    let command = of_expression(alloc, "why", about, "ixm why");
    let command = with(command, word(alloc, "ACTIONS", ACTIONS_HELP));
    let command = with(command, word(alloc, "ACTION", "The action that is refused"));
    with(command, nodes_option(alloc))
}

/// The command `next`.
pub(crate) fn next<'a>(alloc: Global) -> Result<Command<'a>, AllocError>
    ensures { IfOk result (λ command. app_of command ≡ next_command) }
{
    let about = "Tells which actions may come behind a history";
    let command = of_expression(alloc, "next", about, "ixm next");
    let command = with(command, word(alloc, "ACTIONS", ACTIONS_HELP));
    let command = with(command, given_words(alloc));
    with(command, nodes_option(alloc))
}

/// The command `stuck`.
pub(crate) fn stuck<'a>(alloc: Global) -> Result<Command<'a>, AllocError>
    ensures { IfOk result (λ command. app_of command ≡ stuck_command) }
{
    let about = "Tells whether a history can get where no word completes it";
    let command = of_expression(alloc, "stuck", about, "ixm stuck");
    let help = "The file of the given values, one a line";
    let command = with(command, word(alloc, "VALUES", help));
    let command = with(command, nodes_option(alloc));
    with(command, states_option(alloc))
}

/// The command `renew`.
pub(crate) fn renew<'a>(alloc: Global) -> Result<Command<'a>, AllocError>
    ensures { IfOk result (λ command. app_of command ≡ renew_command) }
{
    let about = "Makes a short journal behind which a manager goes on as behind a long one";
    let command = of_expression(alloc, "renew", about, "ixm renew");
    let help = "The file of the journal, which no manager has open";
    let command = with(command, word(alloc, "JOURNAL", help));
    let help = "The file of the new journal, absent or without a byte";
    let command = with(command, word(alloc, "NEW", help));
    with(command, nodes_option(alloc))
}
