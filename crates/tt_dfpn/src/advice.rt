//! What the certifier asks the finder.

ghost use Rattle.std.specs.Prelude.{◌≤◌};

use tt_game::{Line, Turn};
use tt_sgf::NoMemory;

/// How many positions may still be visited. Each visit takes one off.
#[derive(Clone, Copy, Debug, PartialEq, Eq)]
pub struct VisitsLeft {
    pub left: u32,
}

/// A source of advice. Nothing is believed of what it says.
pub trait Advice: Drop {
    /// A turn for the side to move at the line, by which it may win, or none where it knows no more. So many turns that it said
    /// here were refused already.
    fn advise(
        &mut self,
        line: &Line,
        refused: u16,
        visits: &mut VisitsLeft,
    ) -> Result<Option<Turn>, NoMemory>
        ensures fewer { visits.new.left ≤ visits.old.left };
}
