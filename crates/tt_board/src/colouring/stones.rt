//! What stands on the points of a set, six words at a time: no board is made for it.

ghost use Rattle.std.specs.Prelude.{◌≡◌, ℕ, ◌<◌, ◌↔◌, true};
ghost use Rattle.tt_sgf.specs.Sizes.{point_count};
ghost use Rattle.tt_sgf.specs.MachineWords.{bit_in};

use crate::Colour;
use crate::board::Board;
use tt_sgf::{Bits, PointSet};

impl Board {
    ghost use Rattle.tt_board.specs.Stones.{IsSetOnBoard, any_empty, IsEmptyPointOfSet};

    /// Whether some of these points of the board is empty.
    pub fn has_some_empty(&self, points: &PointSet) -> bool
        requires { IsSetOnBoard self.now.size points.now }
        ensures { result ≡ any_empty points.now self.now.points }
    {
        let black = self.bits(Colour::Black);
        let white = self.bits(Colour::White);
        !points.bits().is_within_union(black, white)
    }

    /// The empty points of the board among these, as bits; numbers past the board may have theirs too.
    pub fn empty_among(&self, points: &PointSet) -> Bits
        ensures { (p : ℕ) → p < point_count self.now.size → (bit_in result.words p ≡ true)
            ↔ IsEmptyPointOfSet self.now.size points.now self.now.points p }
    {
        let left = points.bits().minus(self.bits(Colour::Black));
        left.minus(self.bits(Colour::White))
    }
}
