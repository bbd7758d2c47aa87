//! The group of a stone, the wall around it, and what is within.

ghost use Rattle.std.specs.Prelude.{◌≡◌, ℕ, ◌<◌, ◌↔◌};
ghost use Rattle.tt_sgf.specs.declared.size.Size.{Size};
ghost use Rattle.tt_sgf.specs.Sizes.{point_count};
ghost use Rattle.tt_sgf.specs.MachineWords.{bit_in};
ghost use Rattle.tt_board.specs.Around.{AreOn};
ghost use Rattle.tt_board.specs.Play.{other};
ghost use Rattle.tt_marks.specs.Reached.{Has};
ghost use Rattle.tt_marks.specs.Walls.{HasOuterLiberty, IsOfGroup, IsWholeWall, IsWithin};

use crate::filling::{beside, reached};
use tt_board::{Board, Colour};
use tt_sgf::{BITS, Bits, Point, Size};

/// The set of one point, which is on each board that has it.
fn alone(point: Point) -> Bits
    ensures those { (size : Size) (p : ℕ) → p < point_count size
        → Has (bit_in result.words) p ↔ (p ≡ point) }
    ensures on_board { (size : Size) → point < point_count size → AreOn size result.words }
{
    let mut made = Bits::none();
    made.set(usize::from(point.number()));
    made
}

/// The group of a stone of this colour: its chain.
pub(crate) fn group_bits(board: &Board, colour: Colour, stone: Point) -> Bits
    requires { stone < point_count board.now.size }
    ensures those { (p : ℕ) → p < point_count board.now.size
        → Has (bit_in result.words) p ↔ IsOfGroup board.now.size board.now.points colour stone p }
    ensures on_board { AreOn board.now.size result.words }
{
    reached(board.size(), board.bits(colour), &alone(stone))
}

/// What is reached from a point without passing one of these stones.
pub(crate) fn within(size: Size, stones: &Bits, point: Point) -> Bits
    requires { point < point_count size }
    ensures those { (p : ℕ) → p < point_count size
        → Has (bit_in result.words) p ↔ IsWithin size point (bit_in stones.now.words) p }
    ensures on_board { AreOn size result.words }
{
    reached(size, &Bits::whole(size).minus(stones), &alone(point))
}

/// The stones of a wall's colour whose chains have a liberty that isn't inside.
pub(crate) fn stones_with_liberty_outside(board: &Board, wall_colour: Colour, inside: &Bits) -> Bits
    ensures those { (p : ℕ) → p < point_count board.now.size → Has (bit_in result.words) p
        ↔ HasOuterLiberty board.now.size board.now.points wall_colour (Has (bit_in inside.now.words)) p }
    ensures on_board { AreOn board.now.size result.words }
{
    let stones = board.bits(wall_colour);
    let liberties = board.empty_points().minus(inside);
    reached(
        board.size(),
        stones,
        &beside(board.size(), &liberties).and(stones),
    )
}

/// The whole wall around the group of a stone of this colour: of the other colour's stones those are left that plays within what is
/// left don't take. Where all can be taken it has none.
pub(crate) fn wall_bits(board: &Board, colour: Colour, stone: Point) -> Bits
    requires { stone < point_count board.now.size }
    ensures { IsWholeWall board.now.size board.now.points colour stone (bit_in result.words) }
{
    let mut wall = *board.bits(colour.other());
    loop {
        let inside = within(board.size(), &wall, stone);
        let safe = stones_with_liberty_outside(board, colour.other(), &inside);
        let gone = wall.minus(&safe);
        if gone.first_from(0) == BITS {
            return wall;
        }
        wall = wall.and(&safe);
    }
}
