//! Sizes of boards, and points by their numbers.

ghost use Rattle.std.specs.Prelude.{◌≡◌, ℕ, ◌<◌, ◌≤◌, ◌↔◌, IsTrue, IsSome, IfSome, MatchOption};

use std::marker::Model;

/// How many columns, and how many rows, the largest board has.
pub const MOST_SIDE: u16 = 19;

/// How many points the largest board has.
pub const MOST_POINTS: u16 = 361;

/// The size of a board: 1 to 19 columns and 1 to 19 rows.
#[derive(Clone, Copy, Debug, PartialEq, Eq, Hash)]
pub struct Size {
    columns: u16,
    rows: u16,
    ghost columns_in: { (1 ≤ columns) × (columns ≤ 19) },
    ghost rows_in: { (1 ≤ rows) × (rows ≤ 19) },
}

/// A point by its number: row times columns plus column, both from 0 at the upper left. It is below `MOST_POINTS`;
/// whether a board has it, `Size::holds` says.
#[derive(Clone, Copy, Debug, PartialEq, Eq, PartialOrd, Ord, Hash)]
pub struct Point(u16);

impl Model for Point {
    ghost use Rattle.std.specs.Prelude.{ℕ, ◌<◌};
    ghost use Rattle.tt_sgf.specs.declared.size.TheConstants.{MOST_POINTS};

    ghost Value = { ℕ };

    ghost view = { λ p. p.0 };

    ghost invariant = { λ p. p.0 < MOST_POINTS };

    ghost inverse = { λ n. record { 0 = n } };
}

/// What the value of a move says.
#[derive(Clone, Copy, Debug, PartialEq, Eq)]
pub enum PointOrPass {
    /// A point of the board.
    On(Point),
    /// A pass.
    Pass,
}

impl Size {
    ghost use Rattle.tt_sgf.specs.Sizes.{point_count, sized};

    /// The size of so many columns and rows: one exactly where both are 1 to 19.
    pub fn new(columns: u16, rows: u16) -> Option<Size>
        ensures is { result ≡ sized columns rows }
        ensures made { IsSome result ↔ ((1 ≤ columns) × (columns ≤ 19) × (1 ≤ rows) × (rows ≤ 19)) }
        ensures sides { IfSome result (λ s. (s.columns ≡ columns) × (s.rows ≡ rows)) }
    {
        if columns >= 1 && columns <= MOST_SIDE && rows >= 1 && rows <= MOST_SIDE {
            Some(Size { columns, rows })
        } else {
            None
        }
    }

    /// How many columns the board has, 1 to 19.
    pub fn columns(self) -> u16
        ensures { result ≡ self.columns }
    {
        self.columns
    }

    /// How many rows the board has, 1 to 19.
    pub fn rows(self) -> u16
        ensures { result ≡ self.rows }
    {
        self.rows
    }

    /// How many points the board has: columns times rows, 1 to `MOST_POINTS`.
    pub fn point_count(self) -> usize
        ensures value { result ≡ point_count self }
        ensures some { 1 ≤ result }
        ensures most { result ≤ MOST_POINTS }
    {
        usize::from(self.columns) * usize::from(self.rows)
    }

    /// The point of this number: one exactly where the number is below `point_count`.
    pub fn point(self, number: u16) -> Option<Point>
        ensures { MatchOption result (point_count self ≤ number)
            (λ p. (p ≡ number) × (number < point_count self)) }
    {
        if number < self.columns * self.rows {
            Some(Point(number))
        } else {
            None
        }
    }

    /// The point of a number that is known to be below `point_count`.
    pub fn point_numbered(self, number: usize) -> Point
        requires { number < point_count self }
        ensures value { result ≡ number }
        ensures on_board { result < point_count self }
    {
        let Some(point) = self.point(number as u16) else {
            unreachable!();
        };
        point
    }

    /// Whether the point is on the board: whether its number is below `point_count`.
    pub fn holds(self, p: Point) -> bool
        ensures { IsTrue result ↔ (p < point_count self) }
    {
        p.0 < self.columns * self.rows
    }
}

impl Point {
    /// The point of this number: one exactly where the number is below `MOST_POINTS`.
    pub fn new(number: u16) -> Option<Point>
        ensures { MatchOption result (MOST_POINTS ≤ number)
            (λ p. (p ≡ number) × (number < MOST_POINTS)) }
    {
        if number < MOST_POINTS {
            Some(Point(number))
        } else {
            None
        }
    }

    /// The number of the point, below `MOST_POINTS`.
    pub fn number(self) -> u16
        ensures number { result ≡ self }
        ensures bound { result < MOST_POINTS }
    {
        self.0
    }
}

/// The point of a number that is known to be small enough.
pub(crate) fn point_from_number(number: u16) -> Point
    requires { number < MOST_POINTS }
    ensures { result ≡ number }
{
    Point(number)
}
