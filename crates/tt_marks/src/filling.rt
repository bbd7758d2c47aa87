//! What is reached over adjacent points, found for all of them at once.

ghost use Rattle.std.specs.Prelude.{◌≡◌, ℕ, ◌<◌, ◌↔◌};
ghost use Rattle.tt_sgf.specs.Sizes.{point_count};
ghost use Rattle.tt_sgf.specs.MachineWords.{bit_in};
ghost use Rattle.tt_board.specs.Around.{AreFirstColumn, AreOn, IsBesideSome};
ghost use Rattle.tt_marks.specs.Reached.{Has, IsReached};

use tt_board::{adjacent_points, first_column, reaching};
use tt_sgf::{Bits, Size};

/// The size of a board, and its first column, which each step over adjacent points asks for.
#[derive(Clone, Copy)]
pub(crate) struct Grid {
    pub size: Size,
    first: Bits,
    ghost fits: { AreFirstColumn size first.words },
}

impl Grid {
    /// The grid of a board of this size.
    pub(crate) fn of(size: Size) -> Grid {
        Grid {
            size,
            first: first_column(size),
        }
    }

    /// The points beside those of a set, with bits of no point.
    pub(crate) fn neighbours(&self, points: &Bits) -> Bits {
        let points = points.truncated_to(self.size.point_count());
        adjacent_points(self.size, &self.first, &points)
    }

    /// What is `reached`, of sets that may have bits of no point.
    pub(crate) fn flood(&self, free: &Bits, first: &Bits) -> Bits {
        let count = self.size.point_count();
        let first = first.truncated_to(count);
        reached(self.size, &free.truncated_to(count), &first)
    }
}

/// The points of the board beside those of a set.
pub(crate) fn beside(size: Size, points: &Bits) -> Bits
    requires { AreOn size points.now.words }
    ensures beside { (p : ℕ) → p < point_count size
        → Has (bit_in result.words) p ↔ IsBesideSome size points.now.words p }
    ensures on_board { AreOn size result.words }
{
    adjacent_points(size, &first_column(size), points).truncated_to(size.point_count())
}

/// The first points, and what is reached from them over free ones.
pub(crate) fn reached(size: Size, free: &Bits, first: &Bits) -> Bits
    requires free { AreOn size free.now.words }
    requires first { AreOn size first.now.words }
    ensures reached { (p : ℕ) → p < point_count size
        → Has (bit_in result.words) p
        ↔ IsReached size (Has (bit_in free.now.words)) (Has (bit_in first.now.words)) p }
    ensures on_board { AreOn size result.words }
{
    reaching(size, &free.minus(first), first).or(first)
}
