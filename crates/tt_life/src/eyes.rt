//! Two eyes of a target, for those who tell people why it lives.

ghost use Rattle.std.specs.Prelude.{◌<◌, IfSome};
ghost use Rattle.tt_sgf.specs.Sizes.{point_count};
ghost use Rattle.tt_life.specs.Life.{AreEyesOfTarget};

use crate::elimination::{eliminate, ground_of, linked_to, two_touched_eyes};
use tt_board::{adjacent_points, first_column};
use tt_game::Line;
use tt_sgf::Point;

/// Two eyes of the first target, by their least empty points. Stones that are unconditionally alive wall them in, and the target touches
/// each of their points. None where the target is no such stone, and where it has no two eyes.
pub fn two_eyes(line: &Line) -> Option<(Point, Point)>
    ensures on_board { IfSome result (λ eyes. (eyes.0 < point_count line.now.frame.size)
        × (eyes.1 < point_count line.now.frame.size)) }
    ensures eyes { IfSome result (λ eyes. AreEyesOfTarget line.now.frame line.now.state.present eyes.0 eyes.1) }
{
    let frame = line.frame();
    let size = frame.size;
    let board = line.present();
    let first = first_column(size);
    let ground = ground_of(frame, board);
    let stones = eliminate(frame, &ground, &first, board.bits(frame.defender));
    let target = frame.targets.bits().first_from(0);
    if target >= size.point_count() || !stones.has(target) {
        return None;
    }
    let chain = linked_to(size, &stones, target);
    let near = adjacent_points(size, &first, &chain);
    let (one, other) = two_touched_eyes(size, &ground, &first, &stones, &near)?;
    Some((size.point_numbered(one), size.point_numbered(other)))
}
