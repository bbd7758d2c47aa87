//! Turns, and the list of the legal ones.

ghost use Rattle.std.specs.Prelude.{◌≡◌, ◌≤◌, ◌↔◌, length, Contains};
ghost use Rattle.tt_game.specs.declared.turns.TheConstants.{MOST_LEGAL};

use crate::line::Line;
use arrayvec::ArrayVec;
use tt_sgf::Point;

/// A play on a point, or a pass. A turn's number is that of its point, and the pass has the number of the points; so the
/// pass comes last.
#[derive(Clone, Copy, Debug, PartialEq, Eq, Default)]
pub enum Turn {
    Play(Point),
    #[default]
    Pass,
}

/// So many turns are legal at the most: a play on each point of a board of 19 by 19, and the pass.
pub const MOST_LEGAL: usize = 362;

/// A list of turns, with room for all that may be legal.
pub type Turns = ArrayVec<Turn, MOST_LEGAL>;

impl Line {
    ghost use Rattle.tt_game.specs.Game.{IsLegal};
    ghost use Rattle.tt_game.specs.Turns.{legal_turns, IsRising};
    ghost use Rattle.tt_game.specs.declared.turns.Turn.{Turn};

    /// The legal turns, rising by their numbers.
    pub fn turns(&self) -> Turns
        ensures list { result.items ≡ legal_turns self.now.frame self.now.state }
        ensures legal { (t : Turn)
            → Contains result.items t ↔ IsLegal self.now.frame self.now.state t }
        ensures rising { IsRising self.now.frame result.items }
        ensures few { length result.items ≤ MOST_LEGAL }
    {
        let mut turns = ArrayVec::new();
        if self.winner().is_some() {
            return turns;
        }
        let mut plays = self.legal_plays();
        while let Some((p, _)) = plays.next() {
            turns.push(Turn::Play(p));
        }
        turns.push(Turn::Pass);
        turns
    }
}
