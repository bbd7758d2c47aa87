//! The board that a line plays on, and those to which it goes back.

ghost use Rattle.std.specs.Prelude.{◌≡◌, ◌<◌, ◌∷◌, ◌++◌, [], length, slice_index_or, slice_set, None, OnOk, OnErr, IfOk};
ghost use Rattle.std.specs.Arc.{arc_value};
ghost use Rattle.tt_sgf.specs.Sizes.{point_count};
ghost use Rattle.tt_board.specs.Reach.{entry_at};
ghost use Rattle.tt_board.specs.Play.{play_of};
ghost use Rattle.tt_game.specs.inside.Undoing.{board_on};

use std::alloc::Global;
use std::marker::Model;
use std::sync::Arc;
use tt_board::{Colour, CountedBoard};
use tt_sgf::{NoMemory, Point};

/// The present board, counted, and those before the plays that may be undone. Contracts see it as `Stack`.
///
/// The first board is held through a handle, so that a line has a small size and lines that begin alike share it. The boards above
/// the present one stay, so that a play is written over the next of them and takes no memory. The first `valid` boards are still what
/// their plays made, so that the same play again makes nothing.
#[derive(Drop)]
pub(crate) struct BoardStack {
    first: Arc<CountedBoard>,
    later: Vec<CountedBoard>,
    plays: Vec<(Colour, Point)>,
    count: usize,
    valid: usize,
}

impl Model for BoardStack {
    ghost use Rattle.std.specs.Prelude.{◌≡◌, ◌≤◌, length};
    ghost use Rattle.std.specs.Arc.{arc_value};
    ghost use Rattle.tt_game.specs.inside.Undoing.{Stack, stack_at, AreMade};

    ghost Value = { Stack };

    ghost view = { λ s. stack_at (arc_value s.first) s.later.items s.count };

    ghost invariant = { λ s. record {
      count : s.count ≤ s.valid;
      valid : s.valid ≤ length s.later.items;
      plays : length s.plays.items ≡ length s.later.items;
      made : AreMade (arc_value s.first) s.later.items s.plays.items s.valid;
    } };
}

/// Writes over the board at the index `k` what a play makes of the one before it.
fn overwrite_with_play(
    first: &CountedBoard,
    later: &mut [CountedBoard],
    k: usize,
    colour: Colour,
    p: Point,
)
    requires room { k < length later.old }
    requires on_board { p < point_count (slice_index_or (first.now ∷ later.old) k first.now).size }
    requires free { entry_at (slice_index_or (first.now ∷ later.old) k first.now).points p ≡ None }
    ensures { later.new
        ≡ slice_set later.old k (board_on (slice_index_or (first.now ∷ later.old) k first.now).size
        (play_of (slice_index_or (first.now ∷ later.old) k first.now).size (slice_index_or (first.now ∷ later.old) k first.now).points colour p)) }
{
    if k == 0 {
        later[0].become_after(first, colour, p);
    } else {
        let (below, above) = later.split_at_mut(k);
        above[0].become_after(&below[k - 1], colour, p);
    }
}

/// Adds a board and a play; without memory there are none more.
fn push_with_play(
    board: CountedBoard,
    later: &mut Vec<CountedBoard>,
    plays: &mut Vec<(Colour, Point)>,
    colour: Colour,
    p: Point,
) -> Result<(), NoMemory>
    ensures later { OnOk result (later.new.items ≡ later.old.items ++ board ∷ []) }
    ensures plays { OnOk result (plays.new.items ≡ plays.old.items ++ (colour, p) ∷ []) }
    ensures err { OnErr result ((later.new.items ≡ later.old.items)
        × (plays.new.items ≡ plays.old.items)) }
{
    later.push(board)?;
    if plays.push((colour, p)).is_err() {
        later.pop();
        return Err(NoMemory);
    }
    Ok(())
}

impl BoardStack {
    /// This board, with no play to undo.
    pub(crate) fn of(alloc: Global, board: CountedBoard) -> Result<BoardStack, NoMemory>
        ensures { IfOk result (λ s. s ≡ record { present = board; below = [] }) }
    {
        Ok(BoardStack {
            first: Arc::new(alloc, board)?,
            later: Vec::new(alloc),
            plays: Vec::new(alloc),
            count: 0,
            valid: 0,
        })
    }

    /// The present board, to be shared.
    fn arc_of_present(&self, alloc: Global) -> Result<Arc<CountedBoard>, NoMemory>
        ensures { IfOk result (λ b. arc_value b ≡ self.now.present) }
    {
        if self.count > 0 {
            return Ok(Arc::new(alloc, self.present().copy())?);
        }
        Ok(Arc::try_clone(&self.first)?)
    }

    /// The same present board, with no play to undo.
    pub(crate) fn from_present(&self, alloc: Global) -> Result<BoardStack, NoMemory>
        ensures { IfOk result (λ s. s ≡ record { present = self.now.present; below = [] }) }
    {
        Ok(BoardStack {
            first: self.arc_of_present(alloc)?,
            later: Vec::new(alloc),
            plays: Vec::new(alloc),
            count: 0,
            valid: 0,
        })
    }

    /// The present board.
    pub(crate) fn present(&self) -> &CountedBoard
        ensures { result.now ≡ self.now.present }
    {
        if self.count == 0 {
            return &*self.first;
        }
        &self.later[self.count - 1]
    }

    /// Writes over the board above, or adds one, what a play of `colour` on `p`, an empty point, makes; without memory it is as it was.
    fn write_play(&mut self, colour: Colour, p: Point) -> Result<(), NoMemory>
        requires on_board { p < point_count self.old.present.size }
        requires free { entry_at self.old.present.points p ≡ None }
        ensures below { OnOk result (self.new.below ≡ self.old.present ∷ self.old.below) }
        ensures present { OnOk result (self.new.present ≡ board_on self.old.present.size
            (play_of self.old.present.size self.old.present.points colour p)) }
        ensures err { OnErr result (self.new ≡ self.old) }
    {
        if self.count == self.later.len() {
            let above = self.first.copy();
            push_with_play(above, &mut self.later, &mut self.plays, colour, p)?;
        }
        overwrite_with_play(&*self.first, &mut self.later, self.count, colour, p);
        self.plays[self.count] = (colour, p);
        self.count += 1;
        self.valid = self.count;
        Ok(())
    }

    /// Plays `colour` on `p`, an empty point; without memory it is as it was.
    pub(crate) fn push(&mut self, colour: Colour, p: Point) -> Result<(), NoMemory>
        requires on_board { p < point_count self.old.present.size }
        requires free { entry_at self.old.present.points p ≡ None }
        ensures below { OnOk result (self.new.below ≡ self.old.present ∷ self.old.below) }
        ensures present { OnOk result (self.new.present ≡ board_on self.old.present.size
            (play_of self.old.present.size self.old.present.points colour p)) }
        ensures err { OnErr result (self.new ≡ self.old) }
    {
        if self.count < self.valid && self.plays[self.count] == (colour, p) {
            self.count += 1;
            return Ok(());
        }
        self.write_play(colour, p)
    }

    /// Goes back to the board before the last play.
    pub(crate) fn pop(&mut self)
        requires { 0 < length self.old.below }
        ensures { self.old.below ≡ self.new.present ∷ self.new.below }
    {
        self.count -= 1;
    }
}
