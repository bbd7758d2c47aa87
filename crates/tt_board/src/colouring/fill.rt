//! Which points reach a colour or empty, found for all of them at once: those beside it, then those beside these, as long as there are
//! more. Each step moves the words of a set, so a fill takes as many steps as its longest way has points.

ghost use Rattle.std.specs.Prelude.{◌≡◌, ◌≢◌, Option, None, length};
ghost use Rattle.tt_sgf.specs.Sizes.{point_count};
ghost use Rattle.tt_board.specs.declared.Colour.{Colour};
ghost use Rattle.tt_board.specs.Position.{Colouring as Entries};
ghost use Rattle.tt_board.specs.Around.{AreOn, AreThose, AreReaching};

use crate::Colour;
use crate::colouring::Colouring;
use crate::colouring::around::{adjacent_points, first_column};
use tt_sgf::{BITS, Bits, Size};

/// The empty points of the board.
pub(crate) fn empty_points(size: Size, points: &Colouring) -> Bits
    requires { length points.now ≡ point_count size }
    ensures those { AreThose size result.words points.now None }
    ensures on_board { AreOn size result.words }
{
    Bits::whole(size)
        .minus(points.bits(Colour::Black))
        .minus(points.bits(Colour::White))
}

/// Those of the points of `own`, which are all that hold one entry, that reach the entry of the points of `wanted`.
pub fn reaching(size: Size, own: &Bits, wanted: &Bits) -> Bits
    requires own_on_board { AreOn size own.now.words }
    requires wanted_on_board { AreOn size wanted.now.words }
    ensures reaching { (c : Entries) → (a e : Option Colour) → a ≢ e
        → AreThose size own.now.words c a → AreThose size wanted.now.words c e
        → AreReaching size result.words c a e }
    ensures on_board { AreOn size result.words }
{
    let first = first_column(size);
    let mut found = adjacent_points(size, &first, wanted).and(own);
    loop {
        let more = adjacent_points(size, &first, &found).and(own).minus(&found);
        if more.first_from(0) == BITS {
            return found;
        }
        found = found.or(&more);
    }
}
