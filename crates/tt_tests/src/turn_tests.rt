//! Turns of problems: histories, causes of refusal, ends and legal turns, with what they come to by a program written
//! from the rules alone.

use crate::drawings::is_drawn;
use crate::problem_tests::{has_turns, posed, turn};
use crate::rows::{cut, short_number};
use crate::turn_tables::TURNS;
use std::alloc::{AllocError, Global};
use std::sync::Arc;
use tt_board::{Board, BoardDeltas};
use tt_game::{Line, Side, Snapshot, Why};

/// Whether the boards of a history are those that are drawn, with a stroke between two.
fn is_history(boards: &[Board], drawn: &[u8]) -> bool {
    let mut rest = drawn;
    for board in boards {
        let count = board.size().point_count();
        let Some((letters, behind)) = rest.split_at_checked(count) else {
            return false;
        };
        if !is_drawn(board, letters) {
            return false;
        }
        rest = match behind.split_first() {
            Some((_, more)) => more,
            None => behind,
        };
    }
    rest.len() == 0
}

/// The letter of a cause, or a dash where the turn is legal.
fn letter(why: Option<Why>) -> u8 {
    match why {
        Some(Why::Over) => b'O',
        Some(Why::Occupied) => b'S',
        Some(Why::Outside) => b'X',
        Some(Why::Repeats) => b'R',
        None => b'-',
    }
}

/// Whether the turns of a line are refused as the letters say.
fn is_refused(line: &Line, letters: &[u8]) -> bool {
    let size = line.frame().size;
    let mut number = 0;
    for want in letters {
        if letter(line.refusal(turn(size, number))) != *want {
            return false;
        }
        if number < 361 {
            number += 1;
        }
    }
    usize::from(number) == size.point_count() + 1
}

/// Whether just the plays that superko alone refuses make a board of the history, where the game isn't over.
fn repeats(line: &Line, causes: &[u8]) -> bool {
    let size = line.frame().size;
    let mut number = 0;
    for cause in causes {
        if let (Some(p), false) = (size.point(number), *cause == b'O') {
            let has_been = match line.repeated_board(p) {
                Some(next) => line.history().iter().any(|board| board.same(&next)),
                None => false,
            };
            if has_been != (*cause == b'R') || has_been != line.repeated_board(p).is_some() {
                return false;
            }
        }
        if number < 361 {
            number += 1;
        }
    }
    true
}

/// The letters of who has won, if anybody, and of who moves, and the passes in a row.
fn outcome(line: &Line) -> [u8; 3] {
    let winner = match line.winner() {
        Some(Side::Attacker) => b'A',
        Some(Side::Defender) => b'D',
        None => b'-',
    };
    let mover = match line.to_move() {
        Side::Attacker => b'A',
        Side::Defender => b'D',
    };
    [winner, mover, b'0' + line.passes()]
}

/// A problem, the numbers of the turns that are made, the history then, the outcome, and each turn's cause.
#[derive(Clone, Copy)]
struct Case<'a> {
    problem: &'a [u8],
    pushes: &'a [u8],
    history: &'a [u8],
    ending: &'a [u8],
    causes: &'a [u8],
}

/// The case that a line of a table writes, with a bar behind each part but the last one.
fn case_of(row: &[u8]) -> Case<'_> {
    let (problem, rest) = cut(row, b'|');
    let (pushes, rest) = cut(rest, b'|');
    let (history, rest) = cut(rest, b'|');
    let (ending, causes) = cut(rest, b'|');
    Case {
        problem,
        pushes,
        history,
        ending,
        causes,
    }
}

/// The numbers that the text writes, with a comma between two.
fn numbers(alloc: Global, text: &[u8]) -> Result<Vec<u16>, AllocError> {
    let mut numbers = Vec::new(alloc);
    let mut rest = text;
    for _ in 0..text.len() {
        if !rest.is_empty() {
            let (first, behind) = cut(rest, b',');
            numbers.push(short_number(first))?;
            rest = behind;
        }
    }
    Ok(numbers)
}

/// Whether the history's boards are kept: they are all of them, and not without the first or the last.
fn keeps(alloc: Global, line: &Line) -> bool {
    let boards = line.history();
    if boards.is_empty() {
        return false;
    }
    let Ok(base) = Arc::new(alloc, line.present().copy()) else {
        return false;
    };
    let Ok(kept) = BoardDeltas::of(alloc, &base, boards) else {
        return false;
    };
    let Some(last) = kept.last() else {
        return false;
    };
    kept.equals_boards(boards)
        && last.same(line.present())
        && !kept.equals_boards(&boards[1..])
        && !kept.equals_boards(&boards[..boards.len() - 1])
}

/// Makes the turn of this number. Whether it is legal, and a kept past tells the line before it from the line after it.
fn goes_on(line: &mut Line, number: u16) -> bool {
    let Ok(snapshot) = line.snapshot() else {
        return false;
    };
    let t = turn(line.frame().size, number);
    snapshot.is_state_of(line) && line.push(t).is_ok() && !snapshot.is_state_of(line)
}

/// Makes the turns of these numbers. Whether all go so.
fn go_on(line: &mut Line, numbers: &[u16]) -> bool {
    for number in numbers {
        if !goes_on(line, *number) {
            return false;
        }
    }
    true
}

/// What isn't so of the past of a line, and of a copy of the line; nothing where all is.
fn wrong_past(snapshot: &Snapshot, line: &Line, copy: &Line) -> &'static str {
    if !snapshot.is_state_of(line) {
        return "the snapshot stands with the line";
    }
    if !snapshot.is_state_of(copy) {
        return "the snapshot stands with the copy";
    }
    if !snapshot.present().same(line.present()) {
        return "the snapshot has the line's board";
    }
    if snapshot.key() != line.key() {
        return "the snapshot has the line's key";
    }
    if line.key() != copy.key() {
        return "the copy has the line's key";
    }
    ""
}

/// What isn't so of what is kept of a line, and of a copy of it.
fn wrong_kept(line: &Line, copy: &Line) -> &'static str {
    match line.snapshot() {
        Ok(snapshot) => wrong_past(&snapshot, line, copy),
        Err(_) => "the line is kept",
    }
}

/// What isn't so of a copy of a line, and of what is kept of it.
fn wrong_copy(line: &Line) -> &'static str {
    match line.try_clone() {
        Ok(copy) => wrong_kept(line, &copy),
        Err(_) => "the line is copied",
    }
}

/// What isn't so of a case, once its turns are made; nothing where all is.
fn wrong_after(alloc: Global, line: &Line, case: Case<'_>) -> &'static str {
    if !is_history(line.history(), case.history) {
        return "the history is as drawn";
    }
    if outcome(line).as_slice() != case.ending {
        return "the outcome";
    }
    if !is_refused(line, case.causes) {
        return "the causes of refusal";
    }
    if !repeats(line, case.causes) {
        return "the plays that repeat a board";
    }
    if !has_turns(line, case.causes) {
        return "the legal turns";
    }
    if !keeps(alloc, line) {
        return "the boards are kept";
    }
    wrong_copy(line)
}

/// What isn't so of a case of these turns.
fn wrong_with(alloc: Global, numbers: &[u16], case: Case<'_>) -> &'static str {
    let Ok(mut line) = posed(alloc, case.problem) else {
        return "the problem is posed";
    };
    if !go_on(&mut line, numbers) {
        return "the turns are made";
    }
    wrong_after(alloc, &line, case)
}

/// What isn't so of a case.
fn wrong(alloc: Global, case: Case<'_>) -> &'static str {
    match numbers(alloc, case.pushes) {
        Ok(numbers) => wrong_with(alloc, &numbers, case),
        Err(AllocError) => "the turns are read",
    }
}

/// The first line of a table of so many that isn't so, and what of it isn't; no words where all is.
fn first_wrong(alloc: Global, table: &'static str, count: u8) -> (u8, &'static str) {
    let mut rest = table.as_bytes();
    for row in 0..count {
        let (line, behind) = cut(rest, b'\n');
        let fact = wrong(alloc, case_of(line));
        if !fact.is_empty() {
            return (row, fact);
        }
        rest = behind;
    }
    if rest.is_empty() {
        (count, "")
    } else {
        (count, "the table ends")
    }
}

#[test]
fn turns(rt: HostRuntime) {
    let (row, fact) = first_wrong(rt.alloc(), TURNS, 62);
    assert!(&rt; fact.is_empty(), "line {row}: {fact}");
}
