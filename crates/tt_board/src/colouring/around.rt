//! The points beside those of a set, all at once: six words are moved by a column and by a row.

ghost use Rattle.std.specs.Prelude.{◌≡◌, ℕ, ◌<◌, ◌≤◌, ◌↔◌, true, false};
ghost use Rattle.tt_sgf.specs.declared.bits.TheConstants.{BITS};
ghost use Rattle.tt_sgf.specs.Sizes.{point_count};
ghost use Rattle.tt_sgf.specs.MachineWords.{bit_in};
ghost use Rattle.tt_board.specs.Around.{AreFirstColumn, AreOn, IsBesideSome};

use tt_sgf::{Bits, Size};

/// The points of the first column.
pub fn first_column(size: Size) -> Bits
    ensures { AreFirstColumn size result.words }
{
    let count = size.point_count();
    let columns = usize::from(size.columns());
    let mut found = Bits::none();
    let mut p = 0;
    while p < count {
        found.set(p);
        p += columns;
    }
    found
}

/// The points of the board beside those of a set. A row ends where the first column begins, so no point is beside one of another row there.
pub fn adjacent_points(size: Size, first: &Bits, points: &Bits) -> Bits
    requires first { AreFirstColumn size first.now.words }
    requires on_board { AreOn size points.now.words }
    ensures { (p : ℕ) → p < point_count size
        → (bit_in result.words p ≡ true) ↔ IsBesideSome size points.now.words p }
{
    let columns = usize::from(size.columns());
    let left = points.minus(first).shift_to_lower(1);
    let right = points.shift_to_higher(1).minus(first);
    let above = points.shift_to_lower(columns);
    let below = points.shift_to_higher(columns);
    left.or(&right).or(&above.or(&below))
}
