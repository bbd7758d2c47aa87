//! The least point at fault.

ghost use Rattle.std.specs.Prelude.{◌≡◌, ◌<◌};
ghost use Rattle.tt_board.specs.Reach.{entry_at};
ghost use Rattle.tt_board.specs.Stones.{IsSetOnBoard};
ghost use Rattle.tt_game.specs.Faults.{has_entry, least_point, least_with_entry};
ghost use Rattle.tt_sgf.specs.Sizes.{point_count};

use tt_board::{Board, Colour};
use tt_sgf::{Point, PointSet};

/// The least point of a set.
pub(crate) fn least_point(points: &PointSet) -> Option<Point>
    ensures { result ≡ least_point points.now }
{
    points.least()
}

/// Whether a point is empty, or has a stone of this colour.
fn has_entry(board: &Board, p: Point, entry: Option<Colour>) -> bool
    requires { p < point_count board.now.size }
    ensures { result ≡ has_entry entry (entry_at board.now.points p) }
{
    match entry {
        None => board.at(p).is_none(),
        Some(colour) => board.has_stone_of(colour, p),
    }
}

/// The least point of a set that is empty, or has a stone of this colour.
pub(crate) fn least_with_entry(
    points: &PointSet,
    board: &Board,
    entry: Option<Colour>,
) -> Option<Point>
    requires { IsSetOnBoard board.now.size points.now }
    ensures { result ≡ least_with_entry points.now board.now.points entry }
{
    let mut from = 0;
    while let Some(p) = points.least_from(from) {
        if has_entry(board, p, entry) {
            return Some(p);
        }
        from = p.number() + 1;
    }
    None
}
