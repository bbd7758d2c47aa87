//! The region of a group: what is within its wall.

ghost use Rattle.std.specs.Prelude.{◌≡◌, ℕ, ◌<◌, ◌≤◌, ◌↔◌, IsTrue};
ghost use Rattle.std.specs.FinSet as set;
ghost use Rattle.tt_sgf.specs.Points.{passing};
ghost use Rattle.tt_sgf.specs.Sizes.{point_count};
ghost use Rattle.tt_sgf.specs.MachineWords.{bit_in};
ghost use Rattle.tt_board.specs.Around.{AreOn};
ghost use Rattle.tt_board.specs.Stones.{IsSetOnBoard, PointNumberSet};
ghost use Rattle.tt_marks.specs.Reached.{Has};
ghost use Rattle.tt_marks.specs.Walls.{IsClosed, IsEnclosedGroup, IsFitCount, IsInner, IsOfGroup, IsRegion, IsWalledIn, IsWholeWall, empty_set};

use crate::walls::{group_bits, wall_bits, within};
use tt_board::{Board, Colour};
use tt_sgf::{Bits, Point, PointSet, Size};

/// The fewest points of a region that is closed: with fewer no question is worth asking.
pub const FEWEST_ENCLOSED_POINTS: u16 = 2;

/// The most points of a region that is closed: with more of them hardly any search comes to an end.
pub const MOST_ENCLOSED_POINTS: u16 = 40;

/// Whether a closed region may have so many points.
pub(crate) fn is_fit_count(points: usize) -> bool
    ensures { IsTrue result ↔ IsFitCount points }
{
    usize::from(FEWEST_ENCLOSED_POINTS) <= points && points <= usize::from(MOST_ENCLOSED_POINTS)
}

/// The points of a board that are kept as bits, as a set.
#[tactic(auto, using(crate::proofs::SetLemmas::passing_none, crate::proofs::SetLemmas::passing_more, crate::proofs::SetLemmas::passing_same))]
pub(crate) fn set_of(size: Size, bits: &Bits) -> PointSet
    ensures { result ≡ passing (bit_in bits.now.words) (point_count size) }
{
    let mut made = PointSet::empty();
    for number in 0..size.point_count() {
        if bits.has(number) {
            made = made.with(size.point_numbered(number));
        }
    }
    made
}

/// The group of a stone of this colour: its chain.
pub fn group(board: &Board, colour: Colour, stone: Point) -> PointSet
    requires { stone < point_count board.now.size }
    ensures those { (p : ℕ) → p < point_count board.now.size
        → Has (set.contains result) p ↔ IsOfGroup board.now.size board.now.points colour stone p }
    ensures on_board { IsSetOnBoard board.now.size result }
{
    set_of(board.size(), &group_bits(board, colour, stone))
}

/// A wall, and the region within.
#[derive(Drop)]
pub struct WalledRegion {
    /// The stones of the wall: of the other colour, and plays within them take none.
    pub wall: PointSet,
    /// The points within but those of the group.
    pub points: PointSet,
}

/// The region of the group of a stone of this colour, with its whole wall. Where plays can take each stone around it the wall has none,
/// and all of the board is within.
pub fn region(board: &Board, colour: Colour, stone: Point) -> WalledRegion
    requires { stone < point_count board.now.size }
    ensures wall { IsWholeWall board.now.size board.now.points colour stone (set.contains result.wall) }
    ensures points { IsRegion board.now.size board.now.points colour stone (set.contains result.wall) (set.contains result.points) }
    ensures wall_on_board { IsSetOnBoard board.now.size result.wall }
    ensures on_board { IsSetOnBoard board.now.size result.points }
    ensures only { (points : PointNumberSet)
        → IsEnclosedGroup board.now.size board.now.points colour stone points
        → IsClosed result.wall result.points × (points ≡ result.points) }
{
    let size = board.size();
    let wall = wall_bits(board, colour, stone);
    let inside = within(size, &wall, stone);
    let points = inside.minus(&group_bits(board, colour, stone));
    WalledRegion {
        wall: set_of(size, &wall),
        points: set_of(size, &points),
    }
}

impl WalledRegion {
    /// Whether it is closed: its wall has a stone, and it has `FEWEST_ENCLOSED_POINTS` to `MOST_ENCLOSED_POINTS` points.
    pub fn is_closed(&self) -> bool
        ensures { IsTrue result ↔ IsClosed self.now.wall self.now.points }
    {
        0 < self.wall.count() && is_fit_count(usize::from(self.points.count()))
    }
}

/// The empty points as a set.
pub fn empties(board: &Board) -> PointSet
    ensures { result ≡ empty_set board.now.size board.now.points }
{
    set_of(board.size(), &board.empty_points())
}

/// Whether no more empty points are in a region than outside: else the group seems to be the wall of what stands outside.
pub fn is_inner(board: &Board, points: &PointSet) -> bool
    ensures { IsTrue result ↔ IsInner board.now.size board.now.points points.now }
{
    let all = empties(board);
    points.and(&all).count() <= all.minus(points).count()
}

/// Whether the group of a stone of this colour is walled in: its whole wall has a stone, and its region is inner, however many points it
/// has.
pub fn is_walled_in(board: &Board, colour: Colour, stone: Point) -> bool
    requires { stone < point_count board.now.size }
    ensures { IsTrue result ↔ IsWalledIn board.now.size board.now.points colour stone }
{
    let found = region(board, colour, stone);
    0 < found.wall.count() && is_inner(board, &found.points)
}
