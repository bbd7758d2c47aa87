//! The program: shows the problems of its files, or of standard input, as they were read.
//!
//! | Module | What it has |
//! |---|---|
//! | `running` | `run`, which reads an input and writes its text |
//! | `arguments`, `mode` | the command line, and what it asks for |
//! | `showing`, `shown` | the text for an input, and what is said of it beside |
//! | `picture`, `hints` | the board as text, the hints |
//! | `refusals` | why a tree is refused, where to look |
//! | `certificates`, `answers` | what stands behind a problem, and its words |
//! | `main_lines`, `endings` | the main line of a strategy, and how it ends |
//! | `variations`, `depths` | the answer and its strategies as an SGF tree, the depth at which they are cut |
//! | `diagram`, `windows` | the diagram (SVG), and the points it shows |
//! | `marking` | `--mark`: the tree with marks, and with stones that close the wall |
//! | `unmarked` | why a tree has no marks, and how its wall may be closed |
//! | `reading_back` | sees that the game trees which are written read as the problems that are meant |
//! | `same_nodes` | sees that no node is lost, and only marks or a node with stones are added |
//! | `tree_bytes`, `points` | the bytes of a tree, points by number |
//! | `laws` | an input has one status, unless stones may be added |
#![tactic(auto)]

mod answers;
mod arguments;
mod certificates;
mod depths;
mod diagram;
mod endings;
mod hints;
mod laws;
mod main_lines;
mod marking;
mod mode;
mod picture;
mod points;
mod reading_back;
mod refusals;
mod running;
mod same_nodes;
mod showing;
mod shown;
mod tree_bytes;
mod unmarked;
mod variations;
mod windows;

use arguments::{Told, asked_by_words};
use devices::Watched;
use mode::{Asked, Mode};
use running::{MOST_READ, run};
use std::fs::File;
use std::io::{IsTerminal, Read, Write};
use std::process::ExitCode;
use std::{env, io};

/// What is said where the input comes from a terminal.
const READS_TERMINAL: &str =
    "tsumego-show: reading from the terminal until Ctrl-D; to read a file: tsumego-show FILE";

/// The program's name and the words behind it, where they are text and memory for them wasn't refused.
fn command_line_words(rt: &HostRuntime) -> Option<Vec<String>> {
    let mut words: Vec<String> = env::args(rt).ok()?.collect(rt.alloc()).ok()?;
    let name = String::from_str(rt.alloc(), "tsumego-show").ok()?;
    if !words.is_empty() {
        words[0] = name;
    }
    Some(words)
}

/// Says what is said in place of a text, and answers the status: help and version on standard output.
fn tell(rt: &HostRuntime, told: &Told) -> u8 {
    let text = told.text.as_str();
    if told.status == 0 {
        return if rt.print(text).is_ok() { 0 } else { 2 };
    }
    let _ = rt.eprint(if text.is_empty() { "\n" } else { text });
    told.status
}

/// Says why a file wasn't read.
fn tell_unread(rt: &HostRuntime, mode: Mode, file: &str, error: &io::Error) {
    let _ = eprintln!(rt; "tsumego-show: {file}: {error}");
    if matches!(mode, Mode::Marks(_)) {
        let _ = rt.eprintln(
            "  tip: a point is written as C18 (columns without I, rows 1 to 19) or cb, in front of the files",
        );
    }
}

/// Reads a file, up to as many bytes as tell that it is too long, and adds its bytes.
fn read_file(rt: &HostRuntime, file: &str, bytes: &mut Vec<u8>) -> io::Result<usize> {
    File::open(rt, file)?
        .take(MOST_READ as u64)
        .read_to_end(bytes)
}

/// The bytes of the files, one behind the other; none where one wasn't read, which is said.
fn bytes_of_files(rt: &HostRuntime, asked: &Asked) -> Option<Vec<u8>> {
    let mut bytes = Vec::new(rt.alloc());
    for file in asked.files.as_slice() {
        if let Err(error) = read_file(rt, file, &mut bytes) {
            tell_unread(rt, asked.mode, file, &error);
            return None;
        }
    }
    Some(bytes)
}

/// Writes what is asked for of an input on standard output, and what else is to be said on standard error. Answers the status.
fn show_input<R: Read + Drop>(rt: &HostRuntime, mode: Mode, input: R) -> u8 {
    let mut reader = Watched::new(input);
    let mut writer = Watched::new(rt.stdout());
    let mut said = Vec::new(rt.alloc());
    match run(rt.alloc(), mode, &mut reader, &mut writer, &mut said) {
        Ok(status) => {
            let _ = rt.stderr().write_all(said.as_slice());
            status
        }
        Err(fault) => {
            let _ = eprintln!(rt; "tsumego-show: {fault}");
            2
        }
    }
}

/// Shows the files, or standard input where none is asked for. Answers the status.
fn show_asked(rt: &HostRuntime, asked: &Asked) -> u8 {
    if asked.files.is_empty() {
        if rt.stdin().is_terminal() {
            let _ = rt.eprintln(READS_TERMINAL);
        }
        return show_input(rt, asked.mode, rt.stdin());
    }
    match bytes_of_files(rt, asked) {
        Some(bytes) => show_input(rt, asked.mode, bytes.as_slice()),
        None => 2,
    }
}

fn main(rt: HostRuntime) -> ExitCode {
    let Some(words) = command_line_words(&rt) else {
        let _ = rt.eprintln("");
        return ExitCode::from(2);
    };
    ExitCode::from(match asked_by_words(rt.alloc(), words.as_slice()) {
        Ok(asked) => show_asked(&rt, &asked),
        Err(told) => tell(&rt, &told),
    })
}
