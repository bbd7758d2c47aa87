//! The points beside a point.

ghost use Rattle.std.specs.Prelude.{◌≡◌, ℕ, ◌+◌, ◌-◌, ◌<◌, ◌≤◌, ◌↔◌, IsTrue};
ghost use Rattle.tt_sgf.specs.Sizes.{point_count};
ghost use Rattle.tt_board.specs.Near.{IsNeighbour};
ghost use Rattle.tt_board.specs.inside.Neighbours.{IsThere, IsOneOf, neighbours_there};
ghost use Rattle.tt_board.specs.inside.Chains.{IsEachOnce};

use tt_sgf::Size;

/// The four neighbours of a point, each where the board has it.
#[derive(Clone, Copy)]
pub(crate) struct Neighbours {
    pub(crate) above: Option<usize>,
    pub(crate) left: Option<usize>,
    pub(crate) right: Option<usize>,
    pub(crate) below: Option<usize>,
}

/// The point at a distance before `p`, where there is one.
fn point_before_if(there: bool, p: usize, distance: usize) -> Option<usize>
    requires { IsTrue there → distance ≤ p }
    ensures { IsThere result (IsTrue there) (p - distance) }
{
    if there { Some(p - distance) } else { None }
}

/// The point at a distance after `p`, where there is one.
fn point_after_if(there: bool, p: usize, distance: usize) -> Option<usize>
    requires { p + distance < 1000 }
    ensures { IsThere result (IsTrue there) (p + distance) }
{
    if there { Some(p + distance) } else { None }
}

/// The neighbours of `p` by their points, for those who look at each once and may stop early.
#[inline]
pub(crate) fn neighbours_of(size: Size, p: usize) -> Neighbours
    requires { p < point_count size }
    ensures all { (q : ℕ)
        → IsOneOf result.above result.left result.right result.below q ↔ IsNeighbour size p q }
    ensures once { IsEachOnce (neighbours_there result.above result.left result.right result.below) }
{
    let count = size.point_count();
    let columns = usize::from(size.columns());
    let column = p % columns;
    Neighbours {
        above: point_before_if(columns <= p, p, columns),
        left: point_before_if(0 < column, p, 1),
        right: point_after_if(column + 1 < columns, p, 1),
        below: point_after_if(p + columns < count, p, columns),
    }
}
