//! How a program of your own reads, solves, prints and checks a problem through the crates. It reads SGF from standard
//! input, and writes the certificate of the first problem on standard output once it has read it again and found that it wins.
#![tactic(auto)]

mod solving;

ghost use Rattle.std.specs.Prelude.{◌≡◌, IfSome, None};
ghost use Rattle.tt_game.specs.Game.{winner_of};
ghost use Rattle.tt_game.specs.GameLaws.{IsWellFormedState};

use devices::{Watched, read_input};
use solving::{certificate, is_valid_certificate};
use std::alloc::Global;
use std::io::{self, Write};
use std::process::ExitCode;
use tt_game::{Line, problem};
use tt_sgf::{ItemList, MAX_BYTES, MainLine, read_tree};

/// One byte more than a text of game trees may have tells that it is too long.
const MOST_READ: usize = MAX_BYTES + 1;

/// The line of the problem that a main line is.
fn problem_line(alloc: Global, main: &MainLine) -> Option<Line>
    ensures open { IfSome result (λ line. winner_of line.frame line.state ≡ None) }
    ensures state { IfSome result (λ line. IsWellFormedState line.frame line.state) }
{
    match problem(alloc, main) {
        Ok(line) => Some(line),
        Err(_) => None,
    }
}

/// The certificate of the first problem of an input, where a proof is found for it.
fn solve_and_check(alloc: Global, input: &[u8]) -> Option<ItemList<u8>> {
    let (main, bytes) = read_tree(alloc, input).ok()?;
    let mut line = problem_line(alloc, &main)?;
    let text = certificate(alloc, &line, bytes)?;
    if is_valid_certificate(alloc, &mut line, text.as_slice()).ok()? {
        return Some(text);
    }
    None
}

fn main(rt: HostRuntime) -> io::Result<ExitCode> {
    let mut reader = Watched::new(rt.stdin());
    let Ok(input) = read_input(rt.alloc(), &mut reader, MOST_READ) else {
        return Ok(ExitCode::from(2));
    };
    match solve_and_check(rt.alloc(), input.as_slice()) {
        Some(text) => {
            rt.stdout().write_all(text.as_slice())?;
            println!(rt; "")?;
            Ok(ExitCode::SUCCESS)
        }
        None => Ok(ExitCode::from(1)),
    }
}
