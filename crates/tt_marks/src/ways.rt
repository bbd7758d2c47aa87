//! The ways that lead from a group to what is far, over empty points and stones of its colour: what closes the wall shuts each of them.

ghost use Rattle.std.specs.Prelude.{◌<◌};
ghost use Rattle.tt_sgf.specs.Sizes.{point_count};

use crate::bit_sets::{count, has_none};
use crate::filling::Grid;
use crate::regions::{MOST_ENCLOSED_POINTS, set_of};
use crate::walls::group_bits;
use tt_board::{Board, Colour};
use tt_sgf::{BITS, Bits, NoMemory, Point, PointSet, Size};

/// What a wall shuts out is more than so many steps away. Steps are counted over empty points. The number was chosen without a
/// measurement.
const NEAR_STEPS: usize = 7;

/// The most steps of a way: a longer one counts as none. It bounds the room for the layers of a search. The number was chosen without a
/// measurement.
const MOST_STEPS: usize = 64;

/// What ways lead over.
#[derive(Clone, Copy)]
pub(crate) struct Ways {
    pub grid: Grid,
    /// The empty points.
    pub empty: Bits,
    /// These, and the stones of the group's colour.
    pub free: Bits,
    /// The stones of the other colour.
    pub others: Bits,
    pub group: Bits,
    far: Bits,
}

/// The set of the point of this number, if it is one.
fn alone(p: usize) -> Bits {
    let mut made = Bits::none();
    if p < BITS {
        made.set(p);
    }
    made
}

/// The empty points beside the group of a stone of this colour from which a way leads to what is far.
pub fn ways_out(board: &Board, colour: Colour, stone: Point) -> PointSet
    requires { stone < point_count board.now.size }
{
    let ways = Ways::of(board, colour, stone);
    let leading = ways.grid.flood(&ways.free, &ways.far);
    let out = ways.grid.neighbours(&ways.group).and(&leading);
    set_of(board.size(), &out.and(&ways.empty))
}

/// What is near a group: so many steps away at most, and no more empty points than are left.
fn near_points(grid: &Grid, empty: &Bits, own: &Bits, group: &Bits) -> Bits {
    let half = count(empty) / 2;
    let mut near = *group;
    for _step in 0..NEAR_STEPS {
        let more = near.or(&grid.neighbours(&near).and(empty));
        let more = grid.flood(own, &more);
        if half < count(&more.and(empty)) {
            return near;
        }
        near = more;
    }
    near
}

/// A shortest way to a point of the last of these layers, each of which is one step from the one before: a point of each.
fn way_back(grid: &Grid, layers: &[Bits; MOST_STEPS], last: usize, ends: Bits) -> Bits
    requires { last < MOST_STEPS }
{
    let mut way = Bits::none();
    let mut ends = ends;
    for back in 0..last + 1 {
        let at = alone(ends.first_from(0));
        way = way.or(&at);
        ends = grid
            .neighbours(&at)
            .and(&layers[(last - back).saturating_sub(1)]);
    }
    way
}

impl Ways {
    /// What leads from the group of a stone of this colour.
    pub(crate) fn of(board: &Board, colour: Colour, stone: Point) -> Ways
        requires { stone < point_count board.now.size }
    {
        let grid = Grid::of(board.size());
        let empty = board.empty_points();
        let own = board.bits(colour);
        let free = empty.or(own);
        let group = group_bits(board, colour, stone);
        let near = near_points(&grid, &empty, own, &group);
        Ways {
            grid,
            empty,
            free,
            others: *board.bits(colour.other()),
            group,
            far: grid.flood(&free, &group).minus(&near),
        }
    }

    /// The stones of the group's colour.
    pub(crate) fn own(&self) -> Bits {
        self.free.minus(&self.empty)
    }

    /// A shortest way to what is far, past points that are shut: none where there is no way.
    pub(crate) fn shortest(&self, shut: &Bits) -> Bits {
        let free = self.free.minus(shut);
        let mut layers = [Bits::none(); MOST_STEPS];
        let mut seen = self.group;
        let mut front = self.group;
        for step in 0..MOST_STEPS {
            front = self.grid.neighbours(&front).and(&free).minus(&seen);
            if has_none(&front) {
                return Bits::none();
            }
            layers[step] = front;
            let ends = front.and(&self.far);
            if !has_none(&ends) {
                return way_back(&self.grid, &layers, step, ends);
            }
            seen = seen.or(&front);
        }
        Bits::none()
    }

    /// The empty points of a shortest way past points that are shut each of which shuts all other ways too. It stops where more points are
    /// within than a region has.
    fn points_of_all_ways(&self, shut: &Bits, way: &Bits) -> Bits {
        let free = self.free.minus(shut);
        let mut found = Bits::none();
        let mut ahead = *way;
        let mut within = self.group;
        let mut at = self.grid.neighbours(&within).and(&ahead);
        // Points ahead that are known to be beside those within.
        let mut touched = at;
        for _step in 0..MOST_STEPS {
            if has_none(&at) {
                return found;
            }
            if touched.same(&at) {
                within = self.grid.flood(&free.minus(&ahead), &within);
                let room = count(&within.minus(&self.group));
                if !has_none(&within.and(&self.far)) || usize::from(MOST_ENCLOSED_POINTS) < room {
                    return found;
                }
                touched = self.grid.neighbours(&within).and(&ahead);
                if touched.same(&at) {
                    found = found.or(&at.and(&self.empty));
                }
            }
            ahead = ahead.minus(&at);
            within = within.or(&at);
            at = self.grid.neighbours(&at).and(&ahead);
            touched = touched.and(&ahead).or(&at);
        }
        found
    }

    /// Lists the sets of so many points more than these that shut all ways, but for those that leave more within than a region has. Each
    /// point is on a way that the others leave open; this is a shortest one past these or, for the last point, any.
    pub(crate) fn list_shutting(
        &self,
        shut: &Bits,
        left: usize,
        way: &Bits,
        found: &mut Vec<Bits>,
    ) -> Result<(), NoMemory> {
        if left == 0 {
            return Ok(());
        }
        if left == 1 {
            return self.list_with_each(shut, &self.points_of_all_ways(shut, way), found);
        }
        let points = way.and(&self.empty);
        let past = shut.or(&points);
        let other = self.shortest(&past);
        if self.separate(&past.or(&other.and(&self.empty)), left - 1) == left - 1 {
            return Ok(());
        }
        for p in 0..self.grid.size.point_count() {
            if points.has(p) {
                let more = shut.or(&alone(p));
                let next = if left == 2 && !has_none(&other) {
                    other
                } else {
                    self.shortest(&more)
                };
                self.list_shutting(&more, left - 1, &next, found)?;
            }
        }
        Ok(())
    }

    /// How many ways past these points have no empty point in common, as far as the shortest tell, up to a number: at least so many points
    /// shut them.
    pub(crate) fn separate(&self, past: &Bits, most: usize) -> usize {
        let mut shut = *past;
        for found in 0..most {
            let way = self.shortest(&shut);
            if has_none(&way) {
                return found;
            }
            shut = shut.or(&way.and(&self.empty));
        }
        most
    }

    /// Lists a set with each of these points.
    pub(crate) fn list_with_each(
        &self,
        shut: &Bits,
        points: &Bits,
        found: &mut Vec<Bits>,
    ) -> Result<(), NoMemory> {
        for p in 0..self.grid.size.point_count() {
            if points.has(p) {
                found.push(shut.or(&alone(p)))?;
            }
        }
        Ok(())
    }
}
