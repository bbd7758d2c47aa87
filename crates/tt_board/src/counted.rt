//! The board on which one plays: it has its chains counted, so a play takes no fill and no walk.
//!
//! It has some two thousand bytes and a `Board` a hundred, so a history keeps that.

pub(crate) mod captures;
pub(crate) mod chain_counts;
pub(crate) mod chain_names;
pub(crate) mod chains;
pub(crate) mod joins;
pub(crate) mod play_effects;
pub(crate) mod play_kind;

ghost use Rattle.tt_board.specs.Reach.{entry_at};
ghost use Rattle.tt_board.specs.Play.{play_of};
ghost use Rattle.tt_board.specs.PlayKind.{IsPlayOfKind};
ghost use Rattle.tt_sgf.specs.declared.bits.TheConstants.{BITS};
ghost use Rattle.tt_sgf.specs.Sizes.{point_count};
ghost use Rattle.tt_sgf.specs.MachineWords.{bit_in};
ghost use Rattle.std.specs.Prelude.{◌≡◌, ℕ, ◌<◌, length, slice_set, IsTrue, Some, None, true};

use crate::Colour;
use crate::board::Board;
use crate::counted::chains::Chains;
use crate::counted::play_kind::PlayKind;
use std::marker::Model;
use tt_sgf::{BITS, Bits, Point};

/// A board with its chains counted. Contracts see the board that it is.
#[derive(Drop)]
pub struct CountedBoard {
    chains: Chains,
}

impl Model for CountedBoard {
    ghost use Rattle.tt_board.specs.Position.{Position};

    ghost Value = { Position };

    ghost view = { λ b. record { size = b.chains.size; points = b.chains.points } };
}

impl CountedBoard {
    /// The same board with its chains counted.
    pub fn of(board: &Board) -> CountedBoard
        ensures { result ≡ board.now }
    {
        CountedBoard {
            chains: Chains::of(board.size(), board.colouring()),
        }
    }

    /// The same board again.
    pub fn copy(&self) -> CountedBoard
        ensures { result ≡ self.now }
    {
        CountedBoard {
            chains: self.chains.copy(),
        }
    }

    /// The plain board that it is.
    pub fn board(&self) -> Board
        ensures { result ≡ self.now }
    {
        Board::from_colouring(self.chains.size(), self.chains.colouring().copy())
    }

    /// Makes another board the plain board that this one is. It is written in place, so that no board is moved.
    pub fn write_to_board(&self, board: &mut Board)
        ensures { board.new ≡ self.now }
    {
        board.set_to_colouring(self.chains.size(), self.chains.colouring());
    }

    /// What is known of a play of `colour` on `p`, an empty point, by the points beside it.
    #[inline(always)]
    pub fn play_kind(&self, colour: Colour, p: Point) -> PlayKind
        requires on_board { p < point_count self.now.size }
        requires free { entry_at self.now.points p ≡ None }
        ensures fits { length self.now.points ≡ point_count self.now.size }
        ensures kind { IsPlayOfKind result self.now.size self.now.points colour p }
    {
        self.chains.play_kind(colour, usize::from(p.number()))
    }

    /// Some of these empty points on which a play of `colour` puts a stone and takes none off, by what is beside them.
    pub fn some_noncapturing_plays(&self, colour: Colour, points: &Bits) -> Bits
        requires { (q : ℕ) → q < point_count self.now.size → bit_in points.now.words q ≡ true
            → entry_at self.now.points q ≡ None }
        ensures fits { length self.now.points ≡ point_count self.now.size }
        ensures no_capture { (p : ℕ) → p < BITS → bit_in result.words p ≡ true
            → (bit_in points.now.words p ≡ true)
            × (play_of self.now.size self.now.points colour p
            ≡ slice_set self.now.points p (Some colour)) }
    {
        self.chains.some_noncapturing_plays(colour, points)
    }

    /// The board after a play of `colour` on `p`, an empty point: the stone is put, then the other colour is cleared, then
    /// `colour` (the Tromp-Taylor rules of Go). This one stays as it is.
    pub fn after(&self, colour: Colour, p: Point) -> Board
        requires on_board { p < point_count self.now.size }
        requires free { entry_at self.now.points p ≡ None }
        ensures { result
            ≡ record { size = self.now.size; points = play_of self.now.size self.now.points colour p } }
    {
        self.after_of_kind(colour, p, self.play_kind(colour, p))
    }

    /// The board after a play of `colour` on `p`, an empty point, of which this is known by the points beside it. This one stays as it is.
    pub fn after_of_kind(&self, colour: Colour, p: Point, kind: PlayKind) -> Board
        requires on_board { p < point_count self.now.size }
        requires free { entry_at self.now.points p ≡ None }
        requires kind { IsPlayOfKind kind self.now.size self.now.points colour p }
        ensures { result
            ≡ record { size = self.now.size; points = play_of self.now.size self.now.points colour p } }
    {
        let points = self
            .chains
            .colouring_after(colour, usize::from(p.number()), kind);
        Board::from_colouring(self.chains.size(), points)
    }

    /// Plays `colour` on `p`, an empty point.
    pub fn play(&mut self, colour: Colour, p: Point)
        requires on_board { p < point_count self.old.size }
        requires free { entry_at self.old.points p ≡ None }
        ensures { self.new
            ≡ record { size = self.old.size; points = play_of self.old.size self.old.points colour p } }
    {
        self.chains.play_and_clear(colour, usize::from(p.number()));
    }

    /// Becomes what another board is after a play of `colour` on `p`, an empty point of that one.
    pub fn become_after(&mut self, other: &CountedBoard, colour: Colour, p: Point)
        requires on_board { p < point_count other.now.size }
        requires free { entry_at other.now.points p ≡ None }
        ensures { self.new
            ≡ record { size = other.now.size; points = play_of other.now.size other.now.points colour p } }
    {
        self.chains.set_to(&other.chains);
        self.play(colour, p);
    }
}
