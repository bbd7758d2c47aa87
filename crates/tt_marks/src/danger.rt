//! Stones of a wall that can be taken.

ghost use Rattle.std.specs.Prelude.{◌≡◌, ℕ, ◌<◌, ◌↔◌};
ghost use Rattle.std.specs.FinSet as set;
ghost use Rattle.tt_sgf.specs.Sizes.{point_count};
ghost use Rattle.tt_board.specs.Play.{is_stone_of, other};
ghost use Rattle.tt_board.specs.Reach.{entry_at};
ghost use Rattle.tt_board.specs.Stones.{IsSetOnBoard};
ghost use Rattle.tt_marks.specs.Reached.{Has};
ghost use Rattle.tt_marks.specs.Walls.{HasOuterLiberty, HasStone, IsWithin};

use crate::filling::beside;
use crate::regions::{is_inner, set_of};
use crate::walls::{stones_with_liberty_outside, within};
use tt_board::{Board, Colour};
use tt_sgf::{Point, PointSet};

/// The stones of a wall's colour that plays in a region may take: those whose chains have no liberty outside.
pub fn stones_in_danger(board: &Board, wall_colour: Colour, region: &PointSet) -> PointSet
    ensures those { (p : ℕ) → p < point_count board.now.size → Has (set.contains result) p
        ↔ (HasStone board.now.size board.now.points wall_colour p
        × (HasOuterLiberty board.now.size board.now.points wall_colour (Has (set.contains region.now)) p → ⊥)) }
    ensures on_board { IsSetOnBoard board.now.size result }
{
    let safe = stones_with_liberty_outside(board, wall_colour, region.bits());
    set_of(board.size(), &board.bits(wall_colour).minus(&safe))
}

/// The stones around the group of a stone of this colour that plays within may take, where the stones of the other colour shut the group
/// in: then these stones are why its wall isn't closed.
pub fn wall_in_danger(board: &Board, colour: Colour, stone: Point) -> PointSet
    requires { stone < point_count board.now.size }
    ensures taken { (p : ℕ) → p < point_count board.now.size → Has (set.contains result) p
        → HasStone board.now.size board.now.points (other colour) p
        × (HasOuterLiberty board.now.size board.now.points (other colour)
        (IsWithin board.now.size stone
        (λ r. is_stone_of (entry_at board.now.points r) (other colour))) p → ⊥) }
    ensures on_board { IsSetOnBoard board.now.size result }
{
    let size = board.size();
    let attacker = colour.other();
    let stones = board.bits(attacker);
    let inside = within(size, stones, stone);
    if !is_inner(board, &set_of(size, &inside)) {
        return PointSet::empty();
    }
    let safe = stones_with_liberty_outside(board, attacker, &inside);
    let around = beside(size, &inside).and(stones);
    set_of(size, &around.minus(&safe))
}
