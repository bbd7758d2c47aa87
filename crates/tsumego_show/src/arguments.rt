//! Reads the words behind the program's name.
ghost use Rattle.std.specs.Prelude.{◌≡◌, ◌≢◌, ◌⊎◌, ◌∷◌, ◌==◌, [], IfErr, IfOk, None, OnOk, Some, codes, false, true, map, option_map, string_bytes};
ghost use Rattle.clap.specs.Words.{all_of, app_of, fault_of, first_of, found_of, kind_of, matches_of, new_app, rows_of, rule_of, takes, IsAmong};
ghost use Rattle.clap.specs.declared.builder.command.Command.TheViews.{out-Command};
ghost use Rattle.std.specs.List.{position};
ghost use Rattle.tsumego_show.specs.CommandLine.{depth_arg, editor_name, files_behind_point, files_in, flag_word, is_given, mode_asked, mode_in, named_point, sgf_mode, sgf_name, show_app, word_arg, words_in};

use crate::mode::{Asked, Mode, PointName, WantedMarks};
use crate::picture::{EDITOR_LETTERS, SGF_LETTERS};
use clap::error::ErrorKind;
use clap::{Arg, ArgAction, ArgMatches, Command as Parser, Error, value_parser};
use std::alloc::{AllocError, Global};
use tt_proof::MOST_DEPTH;
use tt_sgf::number;

/// What is said in place of a text for an input: help and version with status 0, and why words were refused with 2. Then the text is empty
/// where memory was refused.
#[derive(Drop)]
pub struct Told {
    pub text: String,
    pub status: u8,
}

/// The version, which CHANGELOG, README and the manual page name too.
const VERSION: &str = "0.1.0";

const MARK_HELP: &str =
    "Write each tree with marks for the group of the stone on POINT, or for one that is enclosed";

const CLOSE_HELP: &str = "With --mark: add the stones that close an open wall";

const SVG_HELP: &str = "Write the diagram of a problem that is alone";

const SGF_HELP: &str = "Write game trees with the strategies as variations";

const DEPTH_HELP: &str = "With --sgf: how many turns deep the variations go, 1 to 512";

const WORDS_HELP: &str =
    "A stone of the group, as C18 or cb, with --mark and in front of the files; files to read";

/// What stands at the end of the help.
const AFTER_HELP: &str =
    "Reads FILEs, or standard input: problems, and perhaps certificates behind them:
  tsumego-show problem.sgf
  tsumego-show --mark C18 --close unmarked.sgf > problem.sgf
Without an option it writes each board, hints and the answer. With one it writes SVG or SGF,
and standard error says what else is to be said.
Status: 0 all written, 1 something refused, 2 these words or the run failed";

/// What is said of options that aren't taken together.
const APART: &str = "tsumego-show: take --svg alone, --sgf [--depth N], or --mark [POINT] [--close]
";

const CLOSE_ALONE: &str =
    "tsumego-show: --close goes with --mark: it adds the stones that close an open wall
";

/// The index of a letter among others.
fn index_among(letters: &[u8], letter: u8) -> Option<usize>
    ensures { result ≡ position (λ other. other == letter) letters.now }
{
    letters.iter().position(|other| *other == letter)
}

/// The place that a word names as SGF does.
fn sgf_name(word: &[u8]) -> Option<PointName>
    ensures { result ≡ sgf_name word.now }
{
    let [column, row] = word else {
        return None;
    };
    let column = index_among(SGF_LETTERS, *column)?;
    let row = index_among(SGF_LETTERS, *row)?;
    Some(PointName::FromAbove(column, row))
}

/// The place that a word names as editors do.
fn editor_name(word: &[u8]) -> Option<PointName>
    ensures { result ≡ editor_name word.now }
{
    let (letter, digits) = word.split_first()?;
    let column = index_among(EDITOR_LETTERS, letter.to_ascii_uppercase())?;
    let row = number(digits)?;
    if row == 0 || row > 19 {
        return None;
    }
    Some(PointName::FromBelow(column, usize::from(row)))
}

/// The point that the first word names, where marks are wanted.
fn named_point(mark: bool, words: &[&str]) -> Option<PointName>
    ensures { result ≡ named_point mark (map (λ w. w.now) words.now) }
{
    if !mark {
        return None;
    }
    let word = words.first()?.as_bytes();
    sgf_name(word).or(editor_name(word))
}

/// Variations to the number of turns that a word says, or to as many as there is room for.
fn sgf_mode(word: Option<&str>) -> Option<Mode>
    ensures { result ≡ sgf_mode (option_map (λ s. s.now) word.entry) }
{
    match word {
        Some(word) => {
            let depth = number(word.as_bytes())?;
            Some(Mode::Variations(Some(usize::from(depth))))
        }
        None => Some(Mode::Variations(None)),
    }
}

/// What flags, a depth and a point ask for together: one kind of text, with what goes with it.
fn mode_asked(
    svg: bool,
    sgf: bool,
    mark: bool,
    closes: bool,
    depth: Option<&str>,
    name: Option<PointName>,
) -> Option<Mode>
    ensures { result ≡ mode_asked svg sgf mark closes (option_map (λ s. s.now) depth.entry) name }
{
    match (svg, sgf, mark, closes, depth) {
        (false, false, false, false, None) => Some(Mode::Picture),
        (true, false, false, false, None) => Some(Mode::Diagram),
        (false, true, false, false, depth) => sgf_mode(depth),
        (false, false, true, closes, None) => Some(Mode::Marks(WantedMarks { name, closes })),
        _ => None,
    }
}

/// A flag.
fn flag_option<'a>(alloc: Global, name: &'a str, help: &'a str) -> Arg<'a>
    ensures rule { rule_of result ≡ flag_word name.entry.now }
    ensures local { result.global ≡ false }
{
    Arg::new(alloc, name)
        .long(name)
        .help(help)
        .action(ArgAction::SetTrue)
}

/// The option with a depth.
fn depth_option<'a>(alloc: Global) -> Arg<'a>
    ensures rule { rule_of result ≡ depth_arg }
    ensures local { result.global ≡ false }
{
    Arg::new(alloc, "depth")
        .long("depth")
        .value_name("N")
        .help(DEPTH_HELP)
        .value_parser(value_parser!(u32).range(1..=i64::from(MOST_DEPTH)))
}

/// The words that are no options.
fn plain_words<'a>(alloc: Global) -> Arg<'a>
    ensures rule { rule_of result ≡ word_arg }
    ensures local { result.global ≡ false }
{
    Arg::new(alloc, "words")
        .value_name("POINT|FILE")
        .help(WORDS_HELP)
        .action(ArgAction::Append)
}

/// A parser without options.
fn bare_parser<'a>(alloc: Global) -> Parser<'a>
    ensures { app_of result ≡ new_app (codes "tsumego-show") }
{
    Parser::new(alloc, "tsumego-show")
        .about("Shows problems of Go")
        .after_help(AFTER_HELP)
}

/// The program's words.
fn parser<'a>(alloc: Global) -> Result<Parser<'a>, AllocError>
    ensures { IfOk result (λ r. app_of r ≡ show_app) }
{
    let mark = flag_option(alloc, "mark", MARK_HELP);
    let close = flag_option(alloc, "close", CLOSE_HELP);
    let svg = flag_option(alloc, "svg", SVG_HELP);
    let sgf = flag_option(alloc, "sgf", SGF_HELP);
    let depth = depth_option(alloc);
    let words = plain_words(alloc);
    let plain = bare_parser(alloc).version(VERSION);
    let one = plain.arg(mark)?;
    let two = one.arg(words)?;
    let three = two.arg(close)?;
    let four = three.arg(svg)?;
    let five = four.arg(sgf)?;
    five.arg(depth)
}

/// The text of an option or a word, where there is one.
fn text_of<'a>(matches: &ArgMatches<'a>, name: &str) -> Option<&'a str>
    ensures { option_map (λ s. s.now) result ≡ first_of name.now (rows_of (found_of matches.now)) }
{
    matches.get_str(name)
}

/// Whether a flag was given.
fn flag_of(matches: &ArgMatches<'_>, name: &str) -> bool
    ensures { result ≡ is_given name.now (rows_of (found_of matches.now)) }
{
    match text_of(matches, name) {
        Some(text) => text.as_bytes() == b"true".as_slice(),
        None => false,
    }
}

/// The texts of a word that may stand more than once, where there is one.
fn texts_of<'m, 'a>(matches: &'m ArgMatches<'a>, name: &str) -> Option<&'m [&'a str]>
    ensures { all_of name.now (rows_of (found_of matches.now))
        ≡ option_map (λ s. map (λ w. w.now) s.now) result }
{
    matches.get_strs(name)
}

/// The words that are no options.
fn words_of<'a>(alloc: Global, matches: &ArgMatches<'a>) -> Result<Vec<&'a str>, AllocError>
    ensures { IfOk result
        (λ words. map (λ w. w.now) words.items ≡ words_in (rows_of (found_of matches.now))) }
{
    let mut words = Vec::new(alloc);
    let Some(found) = texts_of(matches, "words") else {
        return Ok(words);
    };
    words.extend_from_slice(found)?;
    Ok(words)
}

/// What a parse with these words that are no options asks for.
fn mode_of(matches: &ArgMatches<'_>, words: &[&str]) -> Option<Mode>
    requires { map (λ w. w.now) words.now ≡ words_in (rows_of (found_of matches.now)) }
    ensures { result ≡ mode_in (rows_of (found_of matches.now)) }
{
    let svg = flag_of(matches, "svg");
    let sgf = flag_of(matches, "sgf");
    let mark = flag_of(matches, "mark");
    let close = flag_of(matches, "close");
    let depth = text_of(matches, "depth");
    mode_asked(svg, sgf, mark, close, depth, named_point(mark, words))
}

/// The files among these words.
fn files_of<'a>(mark: bool, words: Vec<&'a str>) -> Vec<&'a str>
    ensures { let given = map (λ w. w.now) words.entry.items in map (λ f. f.now) result.items
        ≡ files_behind_point (named_point mark given) given }
{
    let mut files = words;
    if named_point(mark, files.as_slice()).is_none() {
        return files;
    }
    files.remove(0);
    files
}

/// What is said of an error of the parser: help and version were asked for, or words are refused.
fn told_of_error(alloc: Global, error: &Error) -> Told
    ensures status { (result.status ≡ 0) ⊎ (result.status ≡ 2) }
    ensures asked { result.status ≡ 0 → (kind_of error.now ≡ ErrorKind.DisplayHelp)
        ⊎ (kind_of error.now ≡ ErrorKind.DisplayVersion) }
    ensures said { (kind_of error.now ≡ ErrorKind.DisplayHelp)
        ⊎ (kind_of error.now ≡ ErrorKind.DisplayVersion)
        → (result.status ≡ 0) ⊎ (string_bytes result.text ≡ []) }
    ensures memory { kind_of error.now ≡ ErrorKind.OutOfMemory → string_bytes result.text ≡ [] }
    ensures text { result.status ≡ 0 → string_bytes result.text ≢ [] }
{
    if error.kind() == ErrorKind::OutOfMemory {
        return unsaid(alloc);
    }
    let is_asked = error.kind() == ErrorKind::DisplayHelp
        || error.kind() == ErrorKind::DisplayVersion;
    match error.to_string(alloc) {
        Ok(text) => {
            let status = if is_asked && !text.is_empty() { 0 } else { 2 };
            Told { text, status }
        }
        Err(AllocError) => unsaid(alloc),
    }
}

/// What is said of words that ask for nothing together.
fn told_apart(alloc: Global, matches: &ArgMatches<'_>) -> Told
    ensures { result.status ≡ 2 }
{
    let text = if flag_of(matches, "close") && !flag_of(matches, "mark") {
        CLOSE_ALONE
    } else {
        APART
    };
    match String::from_str(alloc, text) {
        Ok(text) => Told { text, status: 2 },
        Err(AllocError) => unsaid(alloc),
    }
}

/// What is said where memory was refused: nothing.
fn unsaid(alloc: Global) -> Told
    ensures status { result.status ≡ 2 }
    ensures text { string_bytes result.text ≡ [] }
{
    Told {
        text: String::new(alloc),
        status: 2,
    }
}

/// What a parse asks for; or what is said in its place.
fn asked_by_matches<'a>(alloc: Global, matches: &ArgMatches<'a>) -> Result<Asked<'a>, Told>
    ensures asked { IfOk result (λ a. mode_in (rows_of (found_of matches.now)) ≡ Some a.mode) }
    ensures files { IfOk result
        (λ a. map (λ f. f.now) a.files.items ≡ files_in (rows_of (found_of matches.now))) }
    ensures told { IfErr result (λ told. (told.status ≡ 2)
        × ((string_bytes told.text ≡ []) ⊎ (mode_in (rows_of (found_of matches.now)) ≡ None))) }
{
    let Ok(words) = words_of(alloc, matches) else {
        return Err(unsaid(alloc));
    };
    let Some(mode) = mode_of(matches, words.as_slice()) else {
        return Err(told_apart(alloc, matches));
    };
    let files = files_of(flag_of(matches, "mark"), words);
    Ok(Asked { mode, files })
}

/// What the words ask for, of which the first is the program's name; or what is said in its place.
pub fn asked_by_words<'a>(alloc: Global, words: &'a [String]) -> Result<Asked<'a>, Told>
    ensures asked { IfOk result
        (λ a. mode_in (matches_of show_app (map string_bytes words.now)) ≡ Some a.mode) }
    ensures files { IfOk result
        (λ a. map (λ f. f.now) a.files.items
        ≡ files_in (matches_of show_app (map string_bytes words.now))) }
    ensures clean { OnOk result (fault_of show_app (map string_bytes words.now) ≡ []) }
    ensures status { IfErr result (λ told. (told.status ≡ 0) ⊎ (told.status ≡ 2)) }
    ensures told { IfErr result (λ told. told.status ≡ 0
        → IsAmong ErrorKind.DisplayHelp (fault_of show_app (map string_bytes words.now))
        ⊎ IsAmong ErrorKind.DisplayVersion (fault_of show_app (map string_bytes words.now))) }
    ensures shown { IfErr result
        (λ told. (fault_of show_app (map string_bytes words.now) ≡ ErrorKind.DisplayHelp ∷ [])
        ⊎ (fault_of show_app (map string_bytes words.now) ≡ ErrorKind.DisplayVersion ∷ [])
        → (told.status ≡ 0) ⊎ (string_bytes told.text ≡ [])) }
    ensures text { IfErr result (λ told. told.status ≡ 0 → string_bytes told.text ≢ []) }
    ensures taken { takes show_app (map string_bytes words.now) ≡ true
        → IfErr result (λ told. (string_bytes told.text ≡ [])
        ⊎ (mode_in (matches_of show_app (map string_bytes words.now)) ≡ None)) }
{
    let Ok(parser) = parser(alloc) else {
        return Err(unsaid(alloc));
    };
    match parser.try_get_matches_from(words) {
        Ok(matches) => asked_by_matches(alloc, &matches),
        Err(error) => Err(told_of_error(alloc, &error)),
    }
}
