//! What people are told on standard error besides faults. No program should read it.

use crate::request::Command;
use std::alloc::{AllocError, Global};
use tt_dfpn::MOST_POSITIONS;
use tt_search::Reason;

/// What is said where the input comes from a terminal.
pub const READS_TERMINAL: &str =
    "tsumego: reading from the terminal until Ctrl-D; to read a file, put < FILE behind the command";

/// How many positions of df-pn are advised first.
const MANY_POSITIONS: u32 = 5_000_000;

/// The word that the parser didn't expect, by the text of its refusal.
fn unexpected_word(fault: &str) -> Option<&str> {
    let (_, behind) = match fault.split_once("unexpected argument '") {
        Some(parts) => parts,
        None => fault.split_once("unrecognized subcommand '")?,
    };
    let (word, _) = behind.split_once("'")?;
    Some(word)
}

/// Whether a word reads like the name of a file.
fn is_like_file(word: &str) -> bool {
    !word.starts_with("-") && (word.contains(".") || word.contains("/"))
}

/// The command that the first words name; `solve` where they name none.
fn named_command(words: &[String]) -> &str {
    match words.get(1) {
        Some(word) if matches!(word.as_str(), "score" | "check") => word.as_str(),
        _ => "solve",
    }
}

/// What is said behind the refusal of words among which the name of a file stands: how a file is read. Nothing for other refusals.
pub fn file_tips(alloc: Global, words: &[String], fault: &str) -> Result<String, AllocError> {
    match unexpected_word(fault) {
        Some(file) if is_like_file(file) => {
            let command = named_command(words);
            format!(in alloc;
                "\n  tip: the input comes on standard input: tsumego {command} < {file}\n  tip: tsumego-ask {file} answers in words\n"
            )
        }
        _ => Ok(String::new(alloc)),
    }
}

/// What may settle a problem that a command left unsettled for this reason.
pub fn unsettled_tip(
    alloc: Global,
    command: &Command,
    reason: Reason,
) -> Result<String, AllocError> {
    let positions = match command {
        Command::Solve { dfpn: Some(n), .. } => *n,
        _ => 0,
    };
    let more = if positions < MANY_POSITIONS {
        MANY_POSITIONS
    } else {
        MOST_POSITIONS
    };
    match reason {
        Reason::Memory if positions == 0 => {
            format!(in alloc; "try more memory, or fewer squares (SQ)")
        }
        Reason::Memory => {
            format!(in alloc; "try more memory, a smaller --dfpn, or fewer squares (SQ)")
        }
        Reason::Depth => format!(in alloc; "try a larger --depth, or fewer squares (SQ)"),
        Reason::Budget | Reason::Total if positions < more => {
            format!(in alloc; "try --dfpn {more}, or fewer squares (SQ)")
        }
        Reason::Budget | Reason::Total => format!(in alloc; "try fewer squares (SQ)"),
    }
}
