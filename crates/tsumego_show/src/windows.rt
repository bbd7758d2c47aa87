//! The part of a board that a diagram shows.
ghost use Rattle.std.specs.Prelude.{◌≤◌};

use crate::picture::point_of_coordinates;
use tt_game::Frame;
use tt_sgf::Size;

/// The columns and rows that are drawn: the first of each, and the first behind that isn't.
#[derive(Clone, Copy)]
pub struct Window {
    pub left: u16,
    pub right: u16,
    pub top: u16,
    pub bottom: u16,
}

/// The part of the board that is drawn: targets and region, and two more columns and rows on each side; without them all.
pub fn window_of(frame: &Frame, size: Size) -> Window
    ensures columns { result.right ≤ size.columns }
    ensures rows { result.bottom ≤ size.rows }
{
    let points = frame.targets.or(&frame.region);
    let mut left = size.columns();
    let mut top = size.rows();
    let mut right: u16 = 0;
    let mut bottom: u16 = 0;
    for row in 0..size.rows() {
        for column in 0..size.columns() {
            if frame.region.count() == 0 || points.has(point_of_coordinates(size, column, row)) {
                left = left.min(column);
                right = right.max(column);
                top = top.min(row);
                bottom = bottom.max(row);
            }
        }
    }
    Window {
        left: left.saturating_sub(2),
        right: right.saturating_add(3).min(size.columns()),
        top: top.saturating_sub(2),
        bottom: bottom.saturating_add(3).min(size.rows()),
    }
}
