//! Records and games, with what they come to by a program written from the rules alone.

use crate::problem_tests::turn;
use crate::rows::{Table, cut, holding, short_number};
use crate::text_tables::RECORDS;
use std::alloc::Global;
use tt_game::{Game, Turn, play_record};
use tt_sgf::{Size, read_tree};

/// Black's and White's points and whether the game is over, or the number of the refusal.
fn score(alloc: Global, text: &[u8]) -> Result<(u16, u16, bool), u8> {
    let Ok((line, _)) = read_tree(alloc, text) else {
        return Err(1);
    };
    match play_record(alloc, &line) {
        Ok(record) => Ok((record.black, record.white, record.finished)),
        Err(fault) => Err(fault.code()),
    }
}

/// Whether a record's score is as it is written.
fn has_score(alloc: Global, text: &[u8], want: &[u8]) -> bool {
    let (black, rest) = cut(want, b' ');
    let (white, end) = cut(rest, b' ');
    match score(alloc, text) {
        Ok((of_black, of_white, true)) => {
            end == b"finished".as_slice()
                && of_black == short_number(black)
                && of_white == short_number(white)
        }
        Ok((of_black, of_white, false)) => {
            end == b"unfinished".as_slice()
                && of_black == short_number(black)
                && of_white == short_number(white)
        }
        Err(code) => rest.is_empty() && u16::from(code) == short_number(black),
    }
}

struct RecordTable;

impl Table for RecordTable {
    fn holds(alloc: Global, line: &[u8]) -> bool {
        let (want, text) = cut(line, b'|');
        has_score(alloc, text, want)
    }
}

#[test]
fn records(rt: HostRuntime) {
    assert_eq!(&rt; holding::<RecordTable>(rt.alloc(), RECORDS, b'~'), 28);
}

/// From an empty board of 2 by 2: a move, a move on its stone, and a pass.
fn plays_on(alloc: Global) -> bool {
    let Some(size) = Size::new(2, 2) else {
        return false;
    };
    let Ok(mut game) = Game::empty(alloc, size) else {
        return false;
    };
    let t = turn(size, 0);
    game.push(t).is_ok() && game.push(turn(size, 0)).is_err() && game.push(Turn::Pass).is_ok()
}

#[test]
fn games(rt: HostRuntime) {
    assert!(&rt; plays_on(rt.alloc()));
}
