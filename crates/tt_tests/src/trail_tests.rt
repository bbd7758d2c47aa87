//! Boards kept as a trail, on rows of five points worked out by hand.

ghost use Rattle.std.specs.Prelude.{◌≡◌};

use crate::drawings::{board_of, boards_of, is_drawn};
use std::alloc::Global;
use std::sync::Arc;
use tt_board::{Board, BoardDeltas};
use tt_sgf::Size;

/// A board that a row shows, in which each stone reaches empty.
fn row(size: Size, text: &[u8]) -> Board
    ensures { result.size ≡ size }
{
    match board_of(size, text) {
        Ok(board) => board,
        Err(_) => Board::empty(size),
    }
}

/// The trail of a stone put, one taken, the entries of the base again, and a board that is the one before it.
fn trail_of_four(alloc: Global, size: Size) -> Option<BoardDeltas> {
    let base = Arc::new(alloc, row(size, b".BW..")).ok()?;
    let boards = [
        row(size, b"B.W.."),
        row(size, b"B...W"),
        row(size, b".BW.."),
        row(size, b".BW.."),
    ];
    BoardDeltas::of(alloc, &base, &boards).ok()
}

/// The trail of no boards.
fn trail_of_none(alloc: Global, size: Size) -> Option<BoardDeltas> {
    let base = Arc::new(alloc, row(size, b".BW..")).ok()?;
    BoardDeltas::of(alloc, &base, &[]).ok()
}

/// Whether a trail's boards are those of the text, with a stroke between two.
fn are(alloc: Global, trail: &BoardDeltas, size: Size, text: &[u8]) -> Option<bool> {
    let boards = boards_of(alloc, size, text)?;
    Some(trail.equals_boards(&boards))
}

/// Whether a trail's last board is that of the row; none where it has no board.
fn is_last(trail: &BoardDeltas, drawn: &[u8]) -> Option<bool> {
    let last = trail.last()?;
    Some(is_drawn(&last, drawn))
}

/// Whether the trail of four boards is that of the text.
fn four_are(alloc: Global, text: &[u8]) -> Option<bool> {
    let size = Size::new(5, 1)?;
    let trail = trail_of_four(alloc, size)?;
    are(alloc, &trail, size, text)
}

/// Whether its last board is as it is drawn.
fn last_of_four(alloc: Global, drawn: &[u8]) -> Option<bool> {
    let trail = trail_of_four(alloc, Size::new(5, 1)?)?;
    is_last(&trail, drawn)
}

#[test]
fn a_trail_is_its_boards(rt: HostRuntime) {
    let alloc = rt.alloc();
    assert!(&rt; four_are(alloc, b"B.W../B...W/.BW../.BW..") == Some(true));
    assert!(&rt; four_are(alloc, b"B.W../B...W/.BW..") == Some(false));
    assert!(&rt; four_are(alloc, b"B.W../.BW../B...W/.BW..") == Some(false));
    assert!(&rt; four_are(alloc, b"") == Some(false));
    assert!(&rt; last_of_four(alloc, b".BW..") == Some(true));
}

/// Whether the trail of no boards is that of the text, and has no last board.
fn none_are(alloc: Global, text: &[u8]) -> Option<bool> {
    let size = Size::new(5, 1)?;
    let trail = trail_of_none(alloc, size)?;
    Some(are(alloc, &trail, size, text)? && trail.last().is_none())
}

#[test]
fn an_empty_trail_has_no_last_board(rt: HostRuntime) {
    let alloc = rt.alloc();
    assert!(&rt; none_are(alloc, b"") == Some(true));
    assert!(&rt; none_are(alloc, b".BW..") == Some(false));
}
