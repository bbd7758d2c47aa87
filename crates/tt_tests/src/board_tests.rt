//! Boards and moves with their outcomes, as an independent program worked them out from the rules.

use crate::board_tables as tables;
use crate::drawings::{board_of, holders, is_drawn};
use crate::rows::{Table, cut, holding, short_number};
use std::alloc::Global;
use tt_board::{Board, Colour, CountedBoard, Lifeless};
use tt_sgf::{Point, PointSet, Size};

/// The size with which a line of a table begins, and what stands behind it.
pub(crate) fn sized(line: &[u8]) -> Option<(Size, &[u8])> {
    let (columns, rest) = cut(line, b'|');
    let (rows, rest) = cut(rest, b'|');
    let size = Size::new(short_number(columns), short_number(rows))?;
    Some((size, rest))
}

/// The number of the point of a turn in letters, column before row; past the board for `--`, a pass.
pub(crate) fn point_number(size: Size, word: &[u8]) -> u16 {
    if word.len() < 2 || word[0] < b'a' || word[1] < b'a' {
        return u16::MAX;
    }
    let column = u16::from(word[0] - b'a');
    let row = u16::from(word[1] - b'a');
    row.wrapping_mul(size.columns()).wrapping_add(column)
}

/// The board after the turns of a game; none where a point is taken.
fn played(size: Size, turns: &[u8]) -> Option<Board> {
    let mut board = Board::empty(size);
    let mut colour = Colour::Black;
    for word in turns.chunks(3) {
        if let Some(p) = board.size().point(point_number(size, word)) {
            board = board.play(colour, p).ok()?;
        }
        colour = colour.other();
    }
    Some(board)
}

/// Both scores, as they are written.
fn scores_of(text: &[u8]) -> (u16, u16) {
    let (black, white) = cut(text, b'|');
    (short_number(black), short_number(white))
}

/// Whether a board is drawn so, and has these scores.
fn is_scored(board: &Board, drawn: &[u8], scores: &[u8]) -> bool {
    is_drawn(board, drawn) && board.score() == scores_of(scores)
}

/// Whether a game ends as the line of the table says.
fn game_holds(line: &[u8]) -> bool {
    let Some((size, rest)) = sized(line) else {
        return false;
    };
    let (turns, rest) = cut(rest, b'|');
    let (drawn, scores) = cut(rest, b'|');
    match played(size, turns) {
        Some(board) => is_scored(&board, drawn, scores),
        None => false,
    }
}

/// Whether a board is drawn so, and is another one than that before, which is its own copy.
fn is_another(board: &Board, drawn: &[u8], before: &Board) -> bool {
    is_drawn(board, drawn) && !board.same(before) && before.copy().same(before)
}

/// Whether a move leads from one board to another one.
fn leads(before: &Board, colour: Colour, number: u16, after: &[u8]) -> bool {
    let Some(p) = before.size().point(number) else {
        return false;
    };
    match before.play(colour, p) {
        Ok(next) => is_another(&next, after, before),
        Err(_) => false,
    }
}

/// Whether a move makes what the line of the table says.
fn move_holds(line: &[u8]) -> bool {
    let Some((size, rest)) = sized(line) else {
        return false;
    };
    let (before, rest) = cut(rest, b'|');
    let (colour, rest) = cut(rest, b'|');
    let (number, after) = cut(rest, b'|');
    let colour = if colour == b"B".as_slice() {
        Colour::Black
    } else {
        Colour::White
    };
    match board_of(size, before) {
        Ok(before) => leads(&before, colour, short_number(number), after),
        Err(_) => false,
    }
}

/// Whether stones make a board, with its scores, or the least lifeless one is named, as the line of the table says.
fn set_up_holds(line: &[u8]) -> bool {
    let Some((size, rest)) = sized(line) else {
        return false;
    };
    let (drawn, rest) = cut(rest, b'|');
    let (lifeless, scores) = cut(rest, b'|');
    match board_of(size, drawn) {
        Ok(board) => lifeless == b"-".as_slice() && is_scored(&board, drawn, scores),
        Err(Lifeless(p)) => lifeless != b"-".as_slice() && p.number() == short_number(lifeless),
    }
}

/// Whether all empty points of a board, asked at once, are known as it is drawn for Black: `Q` where a play is known to be quiet.
fn tells(board: &Board, no_capture: &[u8]) -> bool {
    let size = board.size();
    let empty = board.empty_among(&PointSet::whole(size));
    let found = CountedBoard::of(board).some_noncapturing_plays(Colour::Black, &empty);
    found.same(holders(size, no_capture, b'Q').bits())
}

/// Whether the plays on a board are known to be quiet as the line of the table says.
fn no_capture_holds(line: &[u8]) -> bool {
    let Some((size, rest)) = sized(line) else {
        return false;
    };
    let (drawn, no_capture) = cut(rest, b'|');
    match board_of(size, drawn) {
        Ok(board) => tells(&board, no_capture),
        Err(_) => false,
    }
}

struct GameTable;

impl Table for GameTable {
    fn holds(_: Global, line: &[u8]) -> bool {
        game_holds(line)
    }
}

struct MoveTable;

impl Table for MoveTable {
    fn holds(_: Global, line: &[u8]) -> bool {
        move_holds(line)
    }
}

struct SetUpTable;

impl Table for SetUpTable {
    fn holds(_: Global, line: &[u8]) -> bool {
        set_up_holds(line)
    }
}

struct NoCaptureTable;

impl Table for NoCaptureTable {
    fn holds(_: Global, line: &[u8]) -> bool {
        no_capture_holds(line)
    }
}

#[test]
fn games(rt: HostRuntime) {
    assert_eq!(&rt; holding::<GameTable>(rt.alloc(), tables::GAMES, b'\n'), 26);
}

#[test]
fn moves(rt: HostRuntime) {
    assert_eq!(&rt; holding::<MoveTable>(rt.alloc(), tables::MOVES, b'\n'), 52);
}

/// Whether empty boards of two sizes are the same.
fn are_same(first: Size, second: Size) -> bool {
    Board::empty(first).same(&Board::empty(second))
}

/// Whether boards of as many points, but of two sizes, are not the same.
fn differ_in_size() -> bool {
    match (Size::new(3, 2), Size::new(2, 3)) {
        (Some(wide), Some(high)) => !are_same(wide, high),
        _ => false,
    }
}

/// Whether a board that an array shows begins with a stone of Black's and an empty point.
fn begins_black(entries: &[Option<Colour>; 361]) -> bool {
    entries[0] == Some(Colour::Black) && entries[1].is_none()
}

/// Whether a board is drawn so, once a point is cleared.
fn is_cleared(board: &Board, p: Point, drawn: &[u8]) -> bool {
    let corner = PointSet::empty().with(p);
    match board.set_up(&PointSet::empty(), &PointSet::empty(), &corner) {
        Ok(cleared) => is_drawn(&cleared, drawn),
        Err(Lifeless(_)) => false,
    }
}

/// Whether a stone is cleared from a board that an array shows.
fn clears(board: &Board, drawn: &[u8]) -> bool {
    match board.size().point(0) {
        Some(p) => begins_black(&board.entries()) && is_cleared(board, p, drawn),
        None => false,
    }
}

/// Whether the first stone is cleared from a board.
fn clears_first() -> Option<bool> {
    let board = board_of(Size::new(3, 2)?, b"B.W...").ok()?;
    Some(clears(&board, b"..W..."))
}

#[test]
fn set_ups(rt: HostRuntime) {
    assert_eq!(&rt;
        holding::<SetUpTable>(rt.alloc(), tables::SET_UPS, b'\n'),
        9
    );
    assert!(&rt; differ_in_size());
    assert!(&rt; clears_first() == Some(true));
}

#[test]
fn no_capture_plays(rt: HostRuntime) {
    assert_eq!(&rt;
        holding::<NoCaptureTable>(rt.alloc(), tables::QUIET_PLAYS, b'\n'),
        4
    );
}
