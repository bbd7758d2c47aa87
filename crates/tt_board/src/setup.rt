//! Stones and empty points put over a board.

ghost use Rattle.std.specs.Prelude.{◌≡◌, length, MatchOption};
ghost use Rattle.tt_sgf.specs.Sizes.{point_count};
ghost use Rattle.tt_board.specs.Setup.{placed, AllHaveLiberties, IsLeastWithoutLiberty};

use crate::Colour;
use crate::colouring::Colouring;
use crate::colouring::fill::{empty_points, reaching};
use tt_sgf::{Point, PointSet, Size};

/// Puts the points of the sets over what stands there.
pub(crate) fn place_stones(
    size: Size,
    points: &mut Colouring,
    black: &PointSet,
    white: &PointSet,
    clear: &PointSet,
)
    requires { length points.old ≡ point_count size }
    ensures { points.new ≡ placed size points.old black.now white.now clear.now }
{
    for index in 0..size.point_count() {
        if let Some(p) = size.point(index as u16) {
            if black.has(p) {
                points.set(index, Some(Colour::Black));
            } else if white.has(p) {
                points.set(index, Some(Colour::White));
            } else if clear.has(p) {
                points.set(index, None);
            }
        }
    }
}

/// The least point whose stone doesn't reach empty.
pub(crate) fn first_without_liberty(size: Size, points: &Colouring) -> Option<Point>
    requires { length points.now ≡ point_count size }
    ensures { MatchOption result (AllHaveLiberties size points.now) (IsLeastWithoutLiberty size points.now) }
{
    let black = points.bits(Colour::Black);
    let white = points.bits(Colour::White);
    let empty = empty_points(size, points);
    let black_alive = reaching(size, black, &empty);
    let white_alive = reaching(size, white, &empty);
    let lifeless = black.minus(&black_alive).or(&white.minus(&white_alive));
    size.point(lifeless.first_from(0) as u16)
}
