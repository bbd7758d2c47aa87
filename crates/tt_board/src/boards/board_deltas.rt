//! Boards one after another, kept by how they differ from a board that many share: what has been played since a board takes a few
//! bytes for each turn, and no board of its own.

ghost use Rattle.std.specs.Prelude.{◌≡◌, ◌↔◌, List, ◌∷◌, ◌++◌, [], All, Contains, IsTrue, IfOk, MatchOption};
ghost use Rattle.std.specs.Arc.{arc_value};
ghost use Rattle.tt_board.specs.Position.{Position};

use crate::board::Board;
use crate::boards::differences::Differences;
use std::alloc::Global;
use std::marker::Model;
use std::sync::Arc;
use tt_sgf::NoMemory;

/// Boards of the size of a base, oldest first; there may be none. The base is held through a handle and isn't one of them: the first
/// is kept by how it differs from the base, and each other one by how it differs from the one before it. Contracts see the list.
#[derive(Drop)]
pub struct BoardDeltas {
    base: Arc<Board>,
    steps: Differences,
}

impl Model for BoardDeltas {
    ghost use Rattle.std.specs.Prelude.{List};
    ghost use Rattle.std.specs.Arc.{arc_value};
    ghost use Rattle.tt_board.specs.Position.{Position};
    ghost use Rattle.tt_board.specs.inside.Boards.{trail_of, IsTrail};

    ghost Value = { List Position };

    ghost view = { λ t. trail_of (arc_value t.base) t.steps };

    ghost invariant = { λ t. IsTrail (arc_value t.base) t.steps };
}

impl BoardDeltas {
    /// Keeps these boards, which have the base's size. `NoMemory` where memory was refused.
    pub fn of(alloc: Global, base: &Arc<Board>, boards: &[Board]) -> Result<BoardDeltas, NoMemory>
        requires { All (λ b. b.size ≡ (arc_value base.now).size) boards.now }
        ensures { IfOk result (λ t. t ≡ boards.now) }
    {
        let mut steps = Differences::with_capacity(alloc, boards.len().saturating_mul(2))?;
        let mut here = base.colouring();
        for board in boards {
            let next = board.colouring();
            steps.push(here, next)?;
            here = next;
        }
        steps.shrink_to_fit();
        let base = Arc::try_clone(base)?;
        Ok(BoardDeltas { base, steps })
    }

    /// Whether they are exactly these boards. It takes no memory.
    pub fn equals_boards(&self, boards: &[Board]) -> bool
        ensures { IsTrue result ↔ (self.now ≡ boards.now) }
    {
        let size = self.base.size();
        let mut points = self.base.colouring().copy();
        let mut seen = 0;
        let mut from = 0;
        while let Some(next) = self.steps.apply_next(from, &mut points) {
            if seen == boards.len() || !boards[seen].has_colouring(size, &points) {
                return false;
            }
            seen += 1;
            from = next;
        }
        seen == boards.len()
    }

    /// True only where the others are kept alike, which are then the same boards. No board is made for it, and it takes no memory.
    pub fn is_kept_alike(&self, other: &BoardDeltas) -> bool
        ensures { IsTrue result → self.now ≡ other.now }
    {
        self.base.same(&*other.base) && self.steps.same_edits(&other.steps)
    }

    /// True only where the board is one of them. It takes no memory.
    pub fn has(&self, board: &Board) -> bool
        ensures { IsTrue result → Contains self.now board.now }
    {
        let size = self.base.size();
        let mut points = self.base.colouring().copy();
        let mut from = 0;
        while let Some(next) = self.steps.apply_next(from, &mut points) {
            if board.has_colouring(size, &points) {
                return true;
            }
            from = next;
        }
        false
    }

    /// The last board, made anew; none where there are no boards.
    pub fn last(&self) -> Option<Board>
        ensures { MatchOption result (self.now ≡ [])
            (λ b. (before : List Position) × (self.now ≡ before ++ b ∷ [])) }
    {
        if self.steps.is_empty() {
            return None;
        }
        Some(Board::from_colouring(
            self.base.size(),
            self.steps.apply_all(self.base.colouring()),
        ))
    }
}
