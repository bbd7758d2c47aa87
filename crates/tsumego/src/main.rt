//! The program: reads its arguments, runs the command on the standard streams and ends with its status.
//!
//! | Module | What it has |
//! |---|---|
//! | `arguments`, `request` | the command line, and what it asks for |
//! | `answer`, `task` | the answer to an input, tree by tree |
//! | `progress`, `tips` | what stands on standard error meanwhile, and what people are told there |
//! | `laws` | what a run writes; `headline` |
//! | `command_tests`, `command_cases` | rows of words, input and answer |
#![tactic(auto)]

mod answer;
mod arguments;
#[cfg(test)]
mod command_cases;
#[cfg(test)]
mod command_tests;
mod laws;
mod progress;
mod request;
mod task;
mod tips;

ghost use Rattle.std.specs.Prelude.{IfOk};
ghost use Rattle.tsumego.specs.CommandLine.{IsInRange};

use answer::{run, run_telling};
use arguments::{ArgFault, command};
use devices::Watched;
use progress::ProgressLine;
use request::Command;
use std::alloc::AllocError;
use std::io::IsTerminal;
use std::process::ExitCode;
use std::{env, io};
use tips::{READS_TERMINAL, file_tips};

/// The words of the command line, where they are text and memory for them wasn't refused.
fn command_line_words(rt: &HostRuntime) -> Option<Vec<String>> {
    env::args(rt).ok()?.collect(rt.alloc()).ok()
}

/// Writes the text of a refusal on standard error, which ends its last line itself; an empty line where there is none.
fn print_fault(rt: &HostRuntime, text: &str) -> io::Result<()> {
    if text.is_empty() {
        return rt.eprintln("");
    }
    rt.eprint(text)?;
    match refused_file_tips(rt, text) {
        Ok(tips) => rt.eprint(tips.as_str()),
        Err(AllocError) => Ok(()),
    }
}

/// What is said behind the refusal of the command line's words.
fn refused_file_tips(rt: &HostRuntime, text: &str) -> Result<String, AllocError> {
    match command_line_words(rt) {
        Some(words) => file_tips(rt.alloc(), words.as_slice(), text),
        None => Ok(String::new(rt.alloc())),
    }
}

/// Whether a command shows how far it is: where that is asked for, or standard error is a terminal.
fn shows_progress(command: &Command, terminal: bool) -> bool {
    match command {
        Command::Solve { progress, .. } => *progress || terminal,
        Command::Score | Command::Check | Command::CheckParts => false,
    }
}

/// What the words of the command line ask for.
fn command_of_line(rt: &HostRuntime) -> Result<Command, ArgFault>
    ensures { IfOk result IsInRange }
{
    match command_line_words(rt) {
        Some(words) => command(rt.alloc(), words.as_slice()),
        None => Err(ArgFault(String::new(rt.alloc()))),
    }
}

fn main(rt: HostRuntime) -> ExitCode {
    let command = match command_of_line(&rt) {
        Ok(command) => command,
        Err(fault) => {
            let _ = print_fault(&rt, fault.0.as_str());
            return ExitCode::from(2);
        }
    };
    if rt.stdin().is_terminal() {
        let _ = rt.eprintln(READS_TERMINAL);
    }
    let mut reader = Watched::new(rt.stdin());
    let mut writer = Watched::new(rt.stdout());
    let alloc = rt.alloc();
    let terminal = rt.stderr().is_terminal();
    let ran = if shows_progress(&command, terminal) {
        let line = ProgressLine::new(&rt, alloc, &command, terminal);
        run_telling(&rt, alloc, &command, &mut reader, &mut writer, &line)
    } else {
        run(&rt, alloc, &command, &mut reader, &mut writer)
    };
    match ran {
        Ok(status) => ExitCode::from(status),
        Err(fault) => {
            let _ = eprintln!(rt; "tsumego: {fault}");
            ExitCode::from(2)
        }
    }
}
