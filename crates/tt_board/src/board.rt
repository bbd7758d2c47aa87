//! The board: a colouring in which each stone reaches empty.

ghost use Rattle.std.specs.Prelude.{◌≡◌, ◌≢◌, ℕ, ◌<◌, ◌≤◌, ◌↔◌, length, take, replicate, slice_set, IsTrue, None, Some, MatchResult};
ghost use Rattle.tt_sgf.specs.declared.size.TheConstants.{MOST_POINTS};
ghost use Rattle.tt_sgf.specs.Sizes.{point_count};

use crate::Colour;
use crate::area::{count_area, empty_reaching};
use crate::colouring::Colouring;
use crate::colouring::fill::empty_points;
use crate::counted::CountedBoard;
use crate::setup::{first_without_liberty, place_stones};
use std::marker::Model;
use tt_sgf::{Bits, Point, PointSet, Size};

/// A board: a size, and a colouring of its points in which each stone reaches empty.
#[derive(Drop)]
pub struct Board {
    points: Colouring,
    size: Size,
}

impl Model for Board {
    ghost use Rattle.std.specs.Prelude.{◌≡◌, length, take};
    ghost use Rattle.tt_sgf.specs.Sizes.{point_count};
    ghost use Rattle.tt_board.specs.Position.{Position};
    ghost use Rattle.tt_board.specs.Setup.{AllHaveLiberties};

    ghost Value = { Position };

    ghost view = { λ b. record { size = b.size; points = b.points } };

    ghost invariant = { λ b. (length b.points ≡ point_count b.size) × AllHaveLiberties b.size b.points };
}

/// The point of a move has a stone already.
#[derive(Clone, Copy, PartialEq, Eq, Debug)]
pub struct Occupied;

/// A stone that doesn't reach empty stands on this point.
#[derive(Clone, Copy, PartialEq, Eq)]
pub struct Lifeless(pub Point);

impl Board {
    ghost use Rattle.tt_board.specs.declared.Colour.TheVariants.{Black, White};
    ghost use Rattle.tt_board.specs.Reach.{entry_at};
    ghost use Rattle.tt_board.specs.Around.{AreOn, AreThose};
    ghost use Rattle.tt_board.specs.Play.{play_of, is_stone_of};
    ghost use Rattle.tt_board.specs.Setup.{placed, AllHaveLiberties, IsLeastWithoutLiberty};
    ghost use Rattle.tt_board.specs.Score.{score_of};
    ghost use Rattle.tt_sgf.specs.MachineWords.{AreBitsOf};

    /// The board of this size without any stone.
    pub fn empty(size: Size) -> Board
        ensures { result ≡ record { size = size; points = replicate (point_count size) None } }
    {
        Board {
            size,
            points: Colouring::empty(size.point_count()),
        }
    }

    /// The board that shows this colouring, in which each stone reaches empty.
    pub(crate) fn from_colouring(size: Size, points: Colouring) -> Board
        requires fits { length points ≡ point_count size }
        requires alive { AllHaveLiberties size points }
        ensures { result ≡ record { size = size; points = points } }
    {
        Board { size, points }
    }

    /// Becomes the board that shows this colouring, in which each stone reaches empty. It is written in place.
    pub(crate) fn set_to_colouring(&mut self, size: Size, points: &Colouring)
        requires fits { length points.now ≡ point_count size }
        requires alive { AllHaveLiberties size points.now }
        ensures { self.new ≡ record { size = size; points = points.now } }
    {
        self.size = size;
        self.points.set_to(points);
    }

    /// The same board again: a copy of some hundred bytes, which takes no memory.
    pub fn copy(&self) -> Board
        ensures { result ≡ self.now }
    {
        Board {
            size: self.size,
            points: self.points.copy(),
        }
    }

    /// The size; the colouring has an entry for each of its points.
    pub fn size(&self) -> Size
        ensures value { result ≡ self.now.size }
        ensures fits { length self.now.points ≡ point_count self.now.size }
    {
        self.size
    }

    /// The colour of the stone on `p`, a point of the board; none where `p` is empty.
    pub fn at(&self, p: Point) -> Option<Colour>
        requires { p < point_count self.now.size }
        ensures { result ≡ entry_at self.now.points p }
    {
        self.points.at(usize::from(p.number()))
    }

    /// Whether a stone of this colour stands on `p`, a point of the board.
    pub fn has_stone_of(&self, colour: Colour, p: Point) -> bool
        requires { p < point_count self.now.size }
        ensures { result ≡ is_stone_of (entry_at self.now.points p) colour }
    {
        self.bits(colour).has(usize::from(p.number()))
    }

    /// The stones of a colour as bits, in place.
    pub fn bits(&self, colour: Colour) -> &Bits
        ensures { AreBitsOf result.now.words (point_count self.now.size)
            (λ p. is_stone_of (entry_at self.now.points p) colour) }
    {
        self.points.bits(colour)
    }

    /// The empty points as bits.
    pub fn empty_points(&self) -> Bits
        ensures those { AreThose self.now.size result.words self.now.points None }
        ensures on_board { AreOn self.now.size result.words }
    {
        empty_points(self.size, &self.points)
    }

    /// The stones of a colour as bits: that of the point `p` is bit `p % 64` of word `p / 64`, and bits of no point are 0.
    pub fn words(&self, colour: Colour) -> [u64; 6]
        ensures { AreBitsOf result (point_count self.now.size)
            (λ p. is_stone_of (entry_at self.now.points p) colour) }
    {
        self.bits(colour).words()
    }

    /// The board after a move of `colour` on `p`, a point of the board: the stone is put, then the other colour is cleared,
    /// then `colour` (the Tromp-Taylor rules of Go), so that suicide takes one's own stones off.
    /// `Occupied` exactly where `p` isn't empty. Whether a colouring repeats isn't looked at here.
    pub fn play(&self, colour: Colour, p: Point) -> Result<Board, Occupied>
        requires { p < point_count self.now.size }
        ensures { MatchResult result
            (λ b. (entry_at self.now.points p ≡ None)
            × (b ≡ record { size = self.now.size; points = play_of self.now.size self.now.points colour p }))
            (λ _. entry_at self.now.points p ≢ None) }
    {
        if self.at(p).is_some() {
            return Err(Occupied);
        }
        Ok(CountedBoard::of(self).after(colour, p))
    }

    /// Plays `colour` on `p`, an empty point, where the play takes nothing off: its stone is put, and that is all. It is written in place.
    pub fn put_stone(&mut self, colour: Colour, p: Point)
        requires on_board { p < point_count self.old.size }
        requires free { entry_at self.old.points p ≡ None }
        requires no_capture { play_of self.old.size self.old.points colour p
            ≡ slice_set self.old.points p (Some colour) }
        ensures { self.new
            ≡ record { size = self.old.size; points = play_of self.old.size self.old.points colour p } }
    {
        self.points.set(usize::from(p.number()), Some(colour));
    }

    /// The board with black stones, white stones and empty points put over whatever stands there; nothing is cleared.
    /// A point of several sets is black before it is white, and white before it is empty. Points past the board aren't looked at.
    /// `Lifeless` exactly where some stone doesn't reach empty then, with the least point of such a stone. Where nothing changes no
    /// stone is looked at.
    pub fn set_up(
        &self,
        black: &PointSet,
        white: &PointSet,
        clear: &PointSet,
    ) -> Result<Board, Lifeless>
        ensures { let points = placed self.now.size self.now.points black.now white.now clear.now in
            MatchResult result
            (λ b. (b ≡ record { size = self.now.size; points = points })
            × AllHaveLiberties self.now.size points)
            (λ e. IsLeastWithoutLiberty self.now.size points e.0) }
    {
        let mut points = self.points.copy();
        place_stones(self.size, &mut points, black, white, clear);
        if points.same(&self.points) {
            return Ok(self.copy());
        }
        if let Some(p) = first_without_liberty(self.size, &points) {
            return Err(Lifeless(p));
        }
        Ok(Board {
            size: self.size,
            points,
        })
    }

    /// Whether both boards have one size and one colouring.
    pub fn same(&self, other: &Board) -> bool
        ensures { IsTrue result ↔ (self.now ≡ other.now) }
    {
        self.has_colouring(other.size, &other.points)
    }

    /// The colouring, with an entry for each point of the board, in which each stone reaches empty.
    pub(crate) fn colouring(&self) -> &Colouring
        ensures value { result.now ≡ self.now.points }
        ensures fits { length self.now.points ≡ point_count self.now.size }
        ensures alive { AllHaveLiberties self.now.size self.now.points }
    {
        &self.points
    }

    /// Whether the board has this size and colouring.
    pub(crate) fn has_colouring(&self, size: Size, points: &Colouring) -> bool
        ensures { IsTrue result ↔ (self.now ≡ record { size = size; points = points.now }) }
    {
        if !self.points.same(points) {
            return false;
        }
        self.size == size
    }

    /// The colouring as an array, row by row; points past the last point hold none.
    pub fn entries(&self) -> [Option<Colour>; 361]
        ensures shown { take (point_count self.now.size) result ≡ self.now.points }
        ensures wide { length result ≡ MOST_POINTS }
        ensures rest { (k : ℕ) → point_count self.now.size ≤ k → entry_at result k ≡ None }
    {
        self.points.entries()
    }

    /// The area scores of Black and of White, each 0 to 361: a colour's stones, and the empty points that reach that colour alone
    /// (the Tromp-Taylor rules of Go).
    pub fn score(&self) -> (u16, u16)
        ensures black { result.0 ≡ score_of self.now.size self.now.points Black }
        ensures white { result.1 ≡ score_of self.now.size self.now.points White }
    {
        let empty = self.empty_points();
        let by_black = empty_reaching(self.size, &self.points, &empty, Colour::Black);
        let by_white = empty_reaching(self.size, &self.points, &empty, Colour::White);
        let black = count_area(self.size, &self.points, Colour::Black, &by_black, &by_white);
        let white = count_area(self.size, &self.points, Colour::White, &by_white, &by_black);
        (black, white)
    }
}
