//! The command line.
ghost use Rattle.std.specs.Prelude.{◌≡◌, ◌⊎◌, ◌≤◌, false, [], true, IfErr, IfOk, OnOk, IfSome, map, string_bytes};
ghost use Rattle.clap.specs.Words.{app_of, subcommand_of, subcommand_rows_of, fault_of, takes, kind_of, new_app, rows_of, rule_of, found_of};
ghost use Rattle.clap.specs.declared.builder.command.Command.TheViews.{out-Command};
ghost use Rattle.tsumego.specs.CommandLine.{AsksForCommand, AsksForSolve, HasContradictingFlags, HasFlag, HasNumber, HasOptionalNumber, IsInRange};
ghost use Rattle.tsumego.specs.CommandLine.{check_app, flag_arg, number_arg, optional_number_arg, solve_app, tsumego_app};

use crate::request::Command;
use clap::error::ErrorKind;
use clap::{Arg, ArgAction, ArgMatches, Command as Parser, Error, value_parser};
use std::alloc::{AllocError, Global};
use std::num::ParseIntError;
use tt_dfpn::MOST_POSITIONS;
use tt_proof::MOST_DEPTH;
use tt_search::{Limits, MOST_EXPANDED};
use tt_share::MOST_WORKERS;
use tt_solve::MOST_TOTAL;

/// Why a command line was refused: the parser's text, empty where memory was refused or the words couldn't be read.
#[derive(Debug, Drop)]
pub struct ArgFault(pub String);

const BUDGET_HELP: &str = "How many nodes may be expanded after each first turn, 1 to 1000000";

const DEPTH_HELP: &str = "How many turns deep a search may go from the problem, 1 to 512";

const TOTAL_HELP: &str =
    "How many nodes may be expanded after all first turns together, 1 to 362000000";

const DFPN_HELP: &str =
    "How many positions df-pn may visit before the search begins, 1 to 100000000";

const WORKERS_HELP: &str = "How many threads search in parallel, 1 to 64";

const CHECK_PARTS_HELP: &str = "Read a certificate that may share parts";

const CERT_HELP: &str = "Write the certificate on a line of its own";

const SOLVE_PARTS_HELP: &str = "Write each shared part of the certificate once";

const PROGRESS_HELP: &str = "Write on standard error how far the search is";

const TURNS_HELP: &str = "Write a line for each legal turn: who wins after it";

/// What is said where flags are given that aren't taken together.
const TURNS_WITH_CERT: &str = "error: the argument '--turns' cannot be used with '--cert'

For more information, try 'tsumego solve --help'.
";

/// What is said where a flag is given without the one that it goes with.
const PARTS_WITHOUT_CERT: &str = "error: the argument '--parts' cannot be used without '--cert'

For more information, try 'tsumego solve --help'.
";

/// The version, which CHANGELOG, README and the manual page name too.
const VERSION: &str = "0.1.0";

/// What stands at the end of the program's help.
const TOOL_AFTER_HELP: &str = "Each command reads standard input to its end:
  tsumego solve < problem.sgf
Status: 0 all answered, 1 something refused or invalid, 2 these words or the run failed";

const SOLVE_AFTER_HELP: &str = "Reads problems from standard input:
  tsumego solve < problem.sgf
A problem has triangles (TR) on the target stones and squares (SQ) where plays are allowed.
Answers, where K counts the problems:
  K killed TURN    the attacker is to move and wins, by this turn
  K killed         the defender is to move, and the attacker wins
  K lives TURN     the defender is to move and wins, by this turn
  K lives          the attacker is to move, and the defender wins
  K unsettled WHY  a limit came first: budget, depth, total or memory
  K refused N      no problem, for the reason with this number
With --turns a line for each legal turn follows: the turn, and killed, lives or unsettled WHY
Status: 0 all answered, 1 something refused, 2 these words or the run failed";

const SCORE_AFTER_HELP: &str = "Reads game records from standard input:
  tsumego score < game.sgf
Answers, where K counts the records:
  K black X white Y finished    area scores; every stone counts where it stands
  K black X white Y unfinished  the same, and the record doesn't end with two passes
  K refused N                   no record, for the reason with this number
Status: 0 all answered, 1 something refused, 2 these words or the run failed";

const CHECK_AFTER_HELP: &str = "Reads a problem and the certificate behind it from standard input:
  cat problem.sgf certificate.txt | tsumego check
Answers: valid, invalid or refused N
Status: 0 valid, 1 invalid or refused, 2 these words or the run failed";

/// An option with a number from 1 to `most`.
fn number_option<'a>(
    alloc: Global,
    name: &'a str,
    most: u32,
    default: &'a str,
    help: &'a str,
) -> Arg<'a>
    requires { 1 ≤ most }
    ensures rule { rule_of result ≡ number_arg name.entry.now most default.entry.now }
    ensures local { result.global ≡ false }
{
    Arg::new(alloc, name)
        .long(name)
        .value_name("N")
        .help(help)
        .value_parser(value_parser!(u32).range(1..=i64::from(most)))
        .default_value(default)
}

/// An option with a number from 1 to `most` that may be left out.
fn optional_number_option<'a>(alloc: Global, name: &'a str, most: u32, help: &'a str) -> Arg<'a>
    requires { 1 ≤ most }
    ensures rule { rule_of result ≡ optional_number_arg name.entry.now most }
    ensures local { result.global ≡ false }
{
    Arg::new(alloc, name)
        .long(name)
        .value_name("N")
        .help(help)
        .value_parser(value_parser!(u32).range(1..=i64::from(most)))
}

/// A flag.
fn flag_option<'a>(alloc: Global, name: &'a str, help: &'a str) -> Arg<'a>
    ensures rule { rule_of result ≡ flag_arg name.entry.now }
    ensures local { result.global ≡ false }
{
    Arg::new(alloc, name)
        .long(name)
        .help(help)
        .action(ArgAction::SetTrue)
}

/// A parser without options, its text in the list of commands, and the end of its help.
fn bare_parser<'a>(alloc: Global, name: &'a str, about: &'a str, end: &'a str) -> Parser<'a>
    ensures app { app_of result ≡ new_app name.entry.now }
    ensures local { (out-Command result).has_globals ≡ false }
{
    Parser::new(alloc, name).about(about).after_help(end)
}

fn solve_parser<'a>(alloc: Global) -> Result<Parser<'a>, AllocError>
    ensures shape { IfOk result (λ r. app_of r ≡ solve_app) }
    ensures local { IfOk result (λ r. (out-Command r).has_globals ≡ false) }
{
    let budget = number_option(alloc, "budget", MOST_EXPANDED, "100000", BUDGET_HELP);
    let depth = number_option(alloc, "depth", MOST_DEPTH as u32, "512", DEPTH_HELP);
    let total = optional_number_option(alloc, "total", MOST_TOTAL, TOTAL_HELP);
    let dfpn = optional_number_option(alloc, "dfpn", MOST_POSITIONS, DFPN_HELP);
    let workers = number_option(alloc, "workers", MOST_WORKERS as u32, "1", WORKERS_HELP);
    let cert = flag_option(alloc, "cert", CERT_HELP);
    let parts = flag_option(alloc, "parts", SOLVE_PARTS_HELP);
    let turns = flag_option(alloc, "turns", TURNS_HELP);
    let progress = flag_option(alloc, "progress", PROGRESS_HELP);
    let one = bare_parser(alloc, "solve", "Solve problems", SOLVE_AFTER_HELP).arg(budget)?;
    let two = one.arg(depth)?;
    let three = two.arg(total)?;
    let four = three.arg(dfpn)?;
    let five = four.arg(workers)?;
    let six = five.arg(cert)?;
    let seven = six.arg(parts)?;
    let eight = seven.arg(turns)?;
    eight.arg(progress)
}

fn check_parser<'a>(alloc: Global) -> Result<Parser<'a>, AllocError>
    ensures shape { IfOk result (λ r. app_of r ≡ check_app) }
    ensures local { IfOk result (λ r. (out-Command r).has_globals ≡ false) }
{
    let about = "Check the certificate behind a problem";
    bare_parser(alloc, "check", about, CHECK_AFTER_HELP).arg(flag_option(
        alloc,
        "parts",
        CHECK_PARTS_HELP,
    ))
}

fn parser<'a>(alloc: Global) -> Result<Parser<'a>, AllocError>
    ensures { IfOk result (λ r. app_of r ≡ tsumego_app) }
{
    let score = bare_parser(
        alloc,
        "score",
        "Score game records by area",
        SCORE_AFTER_HELP,
    );
    let check = check_parser(alloc)?;
    let solve = solve_parser(alloc)?;
    let about = "Life-and-death problems of Go, read from standard input";
    let plain = bare_parser(alloc, "tsumego", about, TOOL_AFTER_HELP).version(VERSION);
    let top = plain.subcommand_required(true);
    let two = top.subcommand(score)?.subcommand(check)?;
    two.subcommand(solve)
}

/// The text of a refusal, empty where memory was refused.
fn to_arg_fault(alloc: Global, error: &Error) -> ArgFault
    ensures { kind_of error.now ≡ ErrorKind.OutOfMemory → string_bytes result.0 ≡ [] }
{
    if error.kind() == ErrorKind::OutOfMemory {
        return ArgFault(String::new(alloc));
    }
    match error.to_string(alloc) {
        Ok(text) => ArgFault(text),
        Err(AllocError) => ArgFault(String::new(alloc)),
    }
}

/// The number of an option.
fn number_of(matches: &ArgMatches<'_>, name: &str) -> Option<u32>
    ensures { IfSome result (HasNumber name.now (rows_of (found_of matches.now))) }
{
    matches.get_one::<u32>(name)
}

/// The number of an option that may be left out: none where it was, and an error where it isn't a number.
fn optional_number_of(matches: &ArgMatches<'_>, name: &str) -> Result<Option<u32>, ParseIntError>
    ensures { IfOk result (HasOptionalNumber name.now (rows_of (found_of matches.now))) }
{
    matches.try_get_one::<u32>(name)
}

/// Whether a flag was given.
fn flag_of(matches: &ArgMatches<'_>, name: &str) -> Option<bool>
    ensures { IfSome result (HasFlag name.now (rows_of (found_of matches.now))) }
{
    matches.get_one::<bool>(name)
}

/// Whether a number lies in the range from 1 to `most`, where one was given.
fn is_in_range(given: Option<u32>, most: u32) -> bool
    ensures { result ≡ true → IfSome given (λ n. (1 ≤ n) × (n ≤ most)) }
{
    match given {
        Some(n) => n >= 1 && n <= most,
        None => true,
    }
}

/// What is said of flags that don't go together: a certificate has no lines on turns beside it, and only a certificate shares parts.
/// Nothing where they do.
fn contradiction_text(cert: bool, parts: bool, turns: bool) -> &'static str
    ensures none { result.now ≡ [] → (parts ≡ true → cert ≡ true) × (cert ≡ true → turns ≡ false) }
    ensures found { (result.now ≡ [])
        ⊎ ((cert ≡ true) × (turns ≡ true))
        ⊎ ((parts ≡ true) × (cert ≡ false)) }
{
    if cert && turns {
        TURNS_WITH_CERT
    } else if parts && !cert {
        PARTS_WITHOUT_CERT
    } else {
        ""
    }
}

/// The command `solve` with its options.
fn solve_of(matches: &ArgMatches<'_>) -> Option<Command>
    ensures asked { IfSome result (AsksForSolve (rows_of (found_of matches.now))) }
    ensures in_range { IfSome result IsInRange }
{
    let budget = number_of(matches, "budget")?;
    let depth = number_of(matches, "depth")?;
    let total = optional_number_of(matches, "total").ok()?;
    let dfpn = optional_number_of(matches, "dfpn").ok()?;
    let workers = number_of(matches, "workers")?;
    let cert = flag_of(matches, "cert")?;
    let parts = flag_of(matches, "parts")?;
    let turns = flag_of(matches, "turns")?;
    let progress = flag_of(matches, "progress")?;
    if depth < 1
        || depth > MOST_DEPTH as u32
        || workers < 1
        || workers > MOST_WORKERS as u32
        || !is_in_range(total, MOST_TOTAL)
        || !is_in_range(dfpn, MOST_POSITIONS)
        || !contradiction_text(cert, parts, turns).is_empty()
    {
        return None;
    }
    let limits = Limits::new(budget, depth as u16)?;
    let workers = workers as usize;
    Some(Command::Solve {
        limits,
        workers,
        cert,
        total,
        dfpn,
        parts,
        turns,
        progress,
    })
}

/// The command that a parse met.
fn command_of(matches: &ArgMatches<'_>) -> Option<Command>
    ensures asked { IfSome result (AsksForCommand (subcommand_rows_of matches.now)) }
    ensures in_range { IfSome result IsInRange }
{
    match matches.subcommand() {
        Some(("score", _)) => Some(Command::Score),
        Some(("check", matches)) => {
            let parts = flag_of(matches, "parts")?;
            Some(if parts {
                Command::CheckParts
            } else {
                Command::Check
            })
        }
        Some(("solve", matches)) => solve_of(matches),
        _ => None,
    }
}

/// The same of the flags that were given.
fn given_contradiction_text(matches: &ArgMatches<'_>) -> &'static str
    ensures { (result.now ≡ []) ⊎ HasContradictingFlags (subcommand_rows_of matches.now) }
{
    let Some(("solve", matches)) = matches.subcommand() else {
        return "";
    };
    let cert = flag_of(matches, "cert");
    let parts = flag_of(matches, "parts");
    let turns = flag_of(matches, "turns");
    match (cert, parts, turns) {
        (Some(cert), Some(parts), Some(turns)) => contradiction_text(cert, parts, turns),
        _ => "",
    }
}

/// The fault of flags that don't go together. The text is empty where memory was refused.
fn contradiction_fault(alloc: Global, matches: &ArgMatches<'_>) -> ArgFault
    ensures { (string_bytes result.0 ≡ [])
        ⊎ HasContradictingFlags (subcommand_rows_of matches.now) }
{
    match String::from_str(alloc, given_contradiction_text(matches)) {
        Ok(text) => ArgFault(text),
        Err(AllocError) => ArgFault(String::new(alloc)),
    }
}

/// Reads the command line. Its first word is the program's name; an empty line is read as that
/// name alone.
pub fn command(alloc: Global, words: &[String]) -> Result<Command, ArgFault>
    ensures asked { IfOk result (AsksForCommand (subcommand_of tsumego_app (map string_bytes words.now))) }
    ensures in_range { IfOk result IsInRange }
    ensures clean { OnOk result (fault_of tsumego_app (map string_bytes words.now) ≡ []) }
    ensures taken { takes tsumego_app (map string_bytes words.now) ≡ true
        → IfErr result (λ fault. (string_bytes fault.0 ≡ [])
        ⊎ HasContradictingFlags (subcommand_of tsumego_app (map string_bytes words.now))) }
{
    let Ok(parser) = parser(alloc) else {
        return Err(ArgFault(String::new(alloc)));
    };
    match parser.try_get_matches_from(words) {
        Ok(matches) => match command_of(&matches) {
            Some(command) => Ok(command),
            None => Err(contradiction_fault(alloc, &matches)),
        },
        Err(error) => Err(to_arg_fault(alloc, &error)),
    }
}
