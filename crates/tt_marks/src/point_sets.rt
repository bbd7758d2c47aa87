//! The stones and chains of a board, and the points beside others, as sets: hints are made of them, so no contract says which they are.

use crate::filling::Grid;
use crate::regions::set_of;
use tt_board::{Board, Colour};
use tt_sgf::{PointSet, Size};

/// The stones of a colour.
pub fn stones_of_colour(board: &Board, colour: Colour) -> PointSet {
    set_of(board.size(), board.bits(colour))
}

/// The points of the board beside those of a set.
pub fn points_beside(size: Size, points: &PointSet) -> PointSet {
    set_of(size, &Grid::of(size).neighbours(points.bits()))
}

/// The chains of a colour that have a stone in a set.
pub fn chains(board: &Board, colour: Colour, points: &PointSet) -> PointSet {
    let stones = board.bits(colour);
    let first = stones.and(points.bits());
    set_of(board.size(), &Grid::of(board.size()).flood(stones, &first))
}
