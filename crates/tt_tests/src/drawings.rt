//! Boards that are drawn point by point, row by row: `B`, `W` and `.`.

ghost use Rattle.std.specs.Prelude.{◌≡◌, IfOk};

use crate::rows::cut;
use std::alloc::Global;
use tt_board::{Board, Colour, Lifeless};
use tt_sgf::{PointSet, Size};

/// The points that have this letter.
pub(crate) fn holders(size: Size, drawn: &[u8], letter: u8) -> PointSet {
    let mut points = PointSet::empty();
    let mut number = 0;
    for found in drawn {
        let Some(p) = size.point(number) else {
            return points;
        };
        if *found == letter {
            points = points.with(p);
        }
        number += 1;
    }
    points
}

/// The board that is drawn, where each stone reaches empty.
pub(crate) fn board_of(size: Size, drawn: &[u8]) -> Result<Board, Lifeless>
    ensures { IfOk result (λ b. b.size ≡ size) }
{
    Board::empty(size).set_up(
        &holders(size, drawn, b'B'),
        &holders(size, drawn, b'W'),
        &PointSet::empty(),
    )
}

/// Adds the board that is drawn, unless it has a stone without a liberty: no game has such a board. None where the drawing is of
/// another size, or memory is refused.
fn put(boards: &mut Vec<Board>, size: Size, drawn: &[u8]) -> Option<()> {
    if drawn.len() != size.point_count() {
        return None;
    }
    match board_of(size, drawn) {
        Ok(board) => boards.push(board).ok(),
        Err(Lifeless(_)) => Some(()),
    }
}

/// The boards of a text, with a stroke between two.
pub(crate) fn boards_of(alloc: Global, size: Size, text: &[u8]) -> Option<Vec<Board>> {
    let mut boards = Vec::new(alloc);
    let mut rest = text;
    for _ in 0..text.len() {
        if rest.is_empty() {
            break;
        }
        let (drawn, behind) = cut(rest, b'/');
        put(&mut boards, size, drawn)?;
        rest = behind;
    }
    Some(boards)
}

/// The letter of what stands on a point.
fn letter(stone: Option<Colour>) -> u8 {
    match stone {
        Some(Colour::Black) => b'B',
        Some(Colour::White) => b'W',
        None => b'.',
    }
}

/// Whether a board is as it is drawn.
pub(crate) fn is_drawn(board: &Board, drawn: &[u8]) -> bool {
    let size = board.size();
    let mut number = 0;
    for found in drawn {
        let Some(p) = size.point(number) else {
            return false;
        };
        if *found != letter(board.at(p)) {
            return false;
        }
        number += 1;
    }
    usize::from(number) == size.point_count()
}
