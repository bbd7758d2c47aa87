//! A problem's frame, and its two sides.

ghost use Rattle.std.specs.Prelude.{◌≡◌, ◌↔◌, IsTrue};
ghost use Rattle.tt_board.specs.Stones.{IsSetOnBoard};
ghost use Rattle.tt_game.specs.Game.{side_colour, winner_on};

use tt_board::{Board, Colour};
use tt_sgf::{PointSet, Size};

/// The side that wants to capture a target stone, or the side that wants to keep them all.
#[derive(Clone, Copy, Debug, PartialEq, Eq, Hash)]
pub enum Side {
    Attacker,
    Defender,
}

/// What a problem asks: on a board of this size, where both sides play in the region alone, can the defender keep the
/// stones on all target points? The attacker has the other colour.
#[derive(Drop)]
pub struct Frame {
    /// The size of the board.
    pub size: Size,
    /// The points on which both sides may play.
    pub region: PointSet,
    /// The points whose stones are at stake.
    pub targets: PointSet,
    /// The colour of those stones.
    pub defender: Colour,
}

impl Frame {
    /// The same frame again.
    pub fn copy(&self) -> Frame
        ensures { result ≡ self.now }
    {
        Frame {
            size: self.size,
            region: self.region.copy(),
            targets: self.targets.copy(),
            defender: self.defender,
        }
    }

    /// Whether both frames ask the same.
    pub fn same(&self, other: &Frame) -> bool
        ensures { IsTrue result ↔ (self.now ≡ other.now) }
    {
        if self.size != other.size {
            return false;
        }
        if self.defender != other.defender {
            return false;
        }
        if !self.region.same(&other.region) {
            return false;
        }
        self.targets.same(&other.targets)
    }

    /// The colour of a side.
    pub fn colour_of(&self, side: Side) -> Colour
        ensures { result ≡ side_colour self.now side }
    {
        match side {
            Side::Attacker => self.defender.other(),
            Side::Defender => self.defender,
        }
    }

    /// Who has won on a board of this size after so many passes in a row: the attacker where some target is empty, else the
    /// defender after two passes.
    pub(crate) fn winner_on(&self, board: &Board, passes: u8) -> Option<Side>
        requires size { board.now.size ≡ self.now.size }
        requires on_board { IsSetOnBoard self.now.size self.now.targets }
        ensures { result ≡ winner_on self.now board.now.points passes }
    {
        if board.has_some_empty(&self.targets) {
            Some(Side::Attacker)
        } else if passes == 2 {
            Some(Side::Defender)
        } else {
            None
        }
    }
}

impl Side {
    ghost use Rattle.tt_game.specs.Game.{opponent};
    ghost use Rattle.tt_game.specs.Sides.{verdict_word};

    /// The other side.
    pub fn opponent(self) -> Side
        ensures { result ≡ opponent self }
    {
        match self {
            Side::Attacker => Side::Defender,
            Side::Defender => Side::Attacker,
        }
    }
    /// The word that says that this side wins.
    pub fn verdict_word(self) -> &'static [u8]
        ensures { result.now ≡ verdict_word self }
    {
        match self {
            Side::Attacker => b"killed",
            Side::Defender => b"lives",
        }
    }
}
