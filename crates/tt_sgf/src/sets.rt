//! Sets of points, as bits.

ghost use Rattle.std.specs.Prelude.{◌≡◌, ℕ, ◌<◌, ◌≤◌, ◌↔◌, true, false, IsTrue, MatchOption};
ghost use Rattle.std.specs.FinSet as set;
ghost use Rattle.tt_sgf.specs.Points.{passing};
ghost use Rattle.tt_sgf.specs.MachineWords.{AreBitsOf};
ghost use Rattle.tt_sgf.specs.Sizes.{point_count};

use crate::bits::{BITS, Bits};
use crate::size::{MOST_POINTS, Point, Size, point_from_number};
use std::marker::Model;

/// A set of points. Contracts see the finite set of their numbers, all below `MOST_POINTS`. No call takes memory.
#[derive(Drop)]
pub struct PointSet {
    bits: Bits,
}

impl Model for PointSet {
    ghost use Rattle.std.specs.Ordering.{nat_cmp};
    ghost use Rattle.std.specs.FinSet as set;
    ghost use Rattle.std.specs.Coded.{coded_ℕ};
    ghost use Rattle.tt_sgf.specs.MachineWords.{points_of, AreBitsOfPoints};

    ghost Value = { set.FinSet nat_cmp };

    ghost coded = { set.code coded_ℕ };

    ghost view = { λ s. points_of s.bits.words };

    ghost invariant = { λ s. AreBitsOfPoints s.bits.words };
}

impl PointSet {
    /// The set without points.
    pub fn empty() -> PointSet
        ensures { result ≡ set.empty }
    {
        PointSet { bits: Bits::none() }
    }

    /// All points of a board of this size: the numbers below its count of points.
    pub fn whole(size: Size) -> PointSet
        ensures { result ≡ passing (λ q. true) (point_count size) }
    {
        let mut made = PointSet::empty();
        for number in 0..size.columns() * size.rows() {
            made = made.with(point_from_number(number));
        }
        made
    }

    /// The same set again.
    pub fn copy(&self) -> PointSet
        ensures { result ≡ self.now }
    {
        PointSet { bits: self.bits }
    }

    /// The set with this point too.
    pub fn with(&self, p: Point) -> PointSet
        ensures { result ≡ set.insert self.now p }
    {
        let mut bits = self.bits;
        bits.set(usize::from(p.number()));
        PointSet { bits }
    }

    /// Whether the point is in the set.
    pub fn has(&self, p: Point) -> bool
        ensures { result ≡ set.contains self.now p }
    {
        self.bits.has(usize::from(p.number()))
    }

    /// How many points the set has, at most `MOST_POINTS`.
    pub fn count(&self) -> u16
        ensures { result ≡ set.len self.now }
    {
        self.bits.count_points()
    }

    /// The point of the set with the least number: none exactly where the set is empty.
    pub fn least(&self) -> Option<Point>
        ensures { MatchOption result (self.now ≡ set.empty)
            (λ p. (set.contains self.now p ≡ true)
            × ((q : ℕ) → set.contains self.now q ≡ true → p ≤ q)
            × (p < MOST_POINTS)) }
    {
        self.least_from(0)
    }

    /// The point of the set with the least number from `from` on: none exactly where the set has none from there on.
    pub fn least_from(&self, from: u16) -> Option<Point>
        ensures { MatchOption result ((q : ℕ) → from ≤ q → set.contains self.now q ≡ false)
            (λ p. (set.contains self.now p ≡ true) × (from ≤ p)
            × ((q : ℕ) → from ≤ q → q < p → set.contains self.now q ≡ false)
            × (p < MOST_POINTS)) }
    {
        let n = self.bits.first_from(usize::from(from).min(BITS));
        if n > 360 {
            return None;
        }
        Some(point_from_number(n as u16))
    }

    /// The points of the set that a board of this size has, as bits: that of the point `p` is bit `p % 64` of word
    /// `p / 64`, and bits of no point are 0.
    pub fn words_on_board(&self, size: Size) -> [u64; 6]
        ensures { AreBitsOf result (point_count size) (λ p. set.contains self.now p) }
    {
        self.bits.truncated_to(size.point_count()).words()
    }

    /// The points of the set as bits: that of the point `p` is bit `p % 64` of word `p / 64`, and bits of no point are 0.
    pub fn bits(&self) -> &Bits
        ensures { AreBitsOf result.now.words MOST_POINTS (λ p. set.contains self.now p) }
    {
        &self.bits
    }

    /// Whether both have the same points.
    pub fn same(&self, other: &PointSet) -> bool
        ensures { IsTrue result ↔ (self.now ≡ other.now) }
    {
        self.bits.same(&other.bits)
    }

    /// The points of this set that the other hasn't.
    pub fn minus(&self, other: &PointSet) -> PointSet
        ensures { result ≡ set.difference self.now other.now }
    {
        PointSet {
            bits: self.bits.minus(&other.bits),
        }
    }

    /// The points that are in both.
    pub fn and(&self, other: &PointSet) -> PointSet
        ensures { result ≡ set.intersection self.now other.now }
    {
        PointSet {
            bits: self.bits.and(&other.bits),
        }
    }

    /// The points that are in one or both.
    pub fn or(&self, other: &PointSet) -> PointSet
        ensures { result ≡ set.union self.now other.now }
    {
        PointSet {
            bits: self.bits.or(&other.bits),
        }
    }
}
